//! The types of a program's nodes and what its names mean, as a table by key. It knows nothing of
//! how they are found.
#![tactic(auto)]

mod laws;
mod typed;

pub use laws::keys_find_what_nodes_have;
pub use typed::Typed;
