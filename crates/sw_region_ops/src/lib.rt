//! The operations on region states of each instruction of a graph (SE-0414, SE-0430), the state at
//! the entry of a function, and how operations change a state. It knows nothing of how control goes
//! through a function.
#![tactic(auto)]

mod calls;
mod context;
mod elements;
mod entry;
mod groups;
mod laws;
mod marks;
mod op;
mod running;
mod sites;
mod table;

pub use context::Context;
pub use entry::{enter, ops_of};
pub use laws::{entries_are_one, operations_are_monotone, operations_fit};
pub use marks::Mark;
pub use op::{ISOLATED_TO_ACTOR, ISOLATED_TO_TASK, NOT_DISCONNECTED, Op, OpList};
pub use running::{apply, run};
