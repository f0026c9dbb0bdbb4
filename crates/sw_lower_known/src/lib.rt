//! What is known of a program when its functions are made, each by its key and in constant time:
//! the types and meanings of nodes, the isolation of bodies, the kinds of calls, captures, and what
//! is kept in boxes. It knows nothing of code.
#![tactic(auto)]

mod known;
mod tables;

pub use known::Known;
