//! Steps of making a function of a graph: what each adds, said by whole lists (a plan), and what it
//! does to a function that is being made (a run). It knows nothing of trees.
#![tactic(auto)]

mod bound;
mod fault;
mod laws;
mod name;

pub use bound::Bound;
pub use fault::CodeFault;
pub use laws::{runs_join, scopes_end, steps_make_plans};
pub use name::FunctionName;
