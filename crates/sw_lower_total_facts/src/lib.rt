//! Laws, without code: each program that keeps the rules can be lowered, since its code requires
//! nothing that isn't known. It knows nothing of how a program is gone through.
#![tactic(auto)]

mod laws;

pub use laws::programs_can_be_lowered;
