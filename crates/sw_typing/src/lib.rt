//! The types of a program's nodes and what its names mean, or its first ill node (E401 to E408): a
//! walk over bodies and first values by the rules of `sw_typing_rules`. It knows nothing of
//! isolation.
#![tactic(auto)]

mod ills;
mod programs;
mod settings;
mod steps;
mod typing;
mod walk;

pub use sw_typing_table::Typed;
pub use typing::{TypeFault, type_program};
