//! A function of a graph, made an instruction at a time. It knows the limits of a graph's functions
//! and nothing of what an instruction does.
#![tactic(auto)]

mod builder;
mod fault;

pub use builder::{Builder, MOST_BLOCKS};
pub use fault::BuildFault;
