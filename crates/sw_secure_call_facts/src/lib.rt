//! Laws, without code: calls keep a state secure.
#![tactic(auto)]

mod laws;

pub use laws::calls_stay_secure;
