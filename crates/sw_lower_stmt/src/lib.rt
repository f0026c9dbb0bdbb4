//! The code of statements, blocks and bodies, and of what an initialiser gives its properties. It
//! knows nothing of declarations.
#![tactic(auto)]

mod bodies;
mod cases;
mod givens;
mod leaving;
mod places;
mod variables;
mod walk;

pub use bodies::body;
pub use givens::{GivenOperand, give_values};
pub use walk::block;
