//! The graph of a program: its functions with its shapes, its global variables, the function of its
//! entry and those of its first values. It knows nothing of how a function is made.
#![tactic(auto)]

mod graph;

pub use graph::graph_of;
