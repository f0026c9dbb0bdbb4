//! Laws, without code: steps that compute, copy, load, store, go on or wait keep a state secure.
#![tactic(auto)]

mod laws;

pub use laws::values_stay_secure;
