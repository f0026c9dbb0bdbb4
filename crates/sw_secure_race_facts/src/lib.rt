//! A law, without code: in a secure state no two jobs are about to race.
//!
//! The crate knows nothing of steps.
#![tactic(auto)]

mod laws;

pub use laws::secure_states_never_race;
