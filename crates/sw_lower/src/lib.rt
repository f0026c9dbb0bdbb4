//! The functions of a program: its bodies in the order of their keys, each as its plan says, or the
//! first that is larger than a function of a graph (E510, E511). It knows nothing of how code is
//! made of a form.
#![tactic(auto)]

mod codes;
mod fault;
mod lowering;
mod making;
mod numbers;
mod takes;

pub use fault::LowerFault;
pub use lowering::{Lowering, lower};
