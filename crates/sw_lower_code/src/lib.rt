//! How a function of a graph is made of pieces of code, each a plan and a run that does what the plan
//! says. It knows nothing of trees.
#![tactic(auto)]

mod fault;
mod laws;
mod taken;

pub use fault::BodyFault;
pub use laws::{functions_are_their_plans, runs_make_plans};
pub use taken::Taken;
