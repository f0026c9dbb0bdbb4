//! Laws, without code: in a graph that is clean, supplied and without region breaches, each state of
//! the late colouring is secure by hue, and so is each state of the coloured machine.
//!
//! The crate knows nothing of races.
#![tactic(auto)]

mod laws;

pub use laws::{
    coloured_states_are_secure, late_effects_stay_secure, late_owners_keep_their_numbers,
    late_states_are_secure,
};
