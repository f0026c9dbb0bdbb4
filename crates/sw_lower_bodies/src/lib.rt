//! The bodies of a program: of functions, methods, initialisers, closures and tasks, getters, and
//! what gives global variables their first values. It says of each how it is isolated and what is
//! made of it, and knows nothing of how code is made.
#![tactic(auto)]

mod body_tree;
mod closures;
mod programs;

pub use body_tree::{BodyForm, BodyTree};
pub use closures::BodyList;
pub use programs::bodies_of;
