//! The work of a program as an arena of nodes, each of which names nodes before it, so that what a
//! body does, and where it goes on, is found in constant time; and the work of names, operators,
//! closures and patterns in it. It knows nothing of states and steps.
#![tactic(auto)]

mod arena;
mod closures;
mod laying;
mod names;
mod node;
mod operators;
mod payloads;
mod site;

pub use arena::Arena;
pub use closures::{captured, close, closure_gives, start, task_gives};
pub use laying::{jump, lay, then, unknown};
pub use names::{
    call_func, change_part, make, read_global, read_own, read_part, read_self, read_typed_part,
    word_read, word_write,
};
pub use node::{Act, BodyName, Node};
pub use operators::{Operation, computed_by, operation_of, prefixed};
pub use payloads::patterns;
pub use site::Site;
