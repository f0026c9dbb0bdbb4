//! Laws, without code: steps that make objects, actors, boxes and closures keep a state secure.
#![tactic(auto)]

mod laws;

pub use laws::makers_stay_secure;
