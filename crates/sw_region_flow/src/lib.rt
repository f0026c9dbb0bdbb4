//! The region breaches of a graph (SE-0414, SE-0430): the tests that fail in the least annotation
//! of each function's points with region states. It solves a flow of the function's blocks, whose
//! answer stands for the points, and then goes once through each block that control reaches. A
//! caller may take that answer, or go through blocks with states of its own. The crate knows
//! nothing of how graphs are made and of the machine.
#![tactic(auto)]

mod block_flow;
mod finding;
mod laws;
mod listing;
mod testing;
mod walking;

pub use block_flow::BlockFlow;
pub use finding::{breaches, states};
pub use laws::{
    certified_graphs_have_no_breach, graphs_have_one_list_of_breaches,
    graphs_without_breaches_pass, lists_have_one_list_of_breaches, region_codes,
};
pub use listing::in_order;
