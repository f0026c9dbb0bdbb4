//! The breaches of names, written types and entries (E301, E302, E304) in declarations. It knows
//! nothing of what values may stand in them.
#![tactic(auto)]

mod members;

pub use members::in_program;
