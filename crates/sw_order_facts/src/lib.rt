//! Laws, without code: in a graph that is clean, supplied and without region breaches, of two
//! accesses to one location by two jobs, of which one writes, the earlier one happens before the later.
//! Who owns a piece of memory knows all accesses to it, and who has the name of a cell knows the event
//! that made it. The crate knows nothing of clocks, of texts or of how a schedule is read.
#![tactic(auto)]

mod laws;

pub use laws::{passed_graphs_order_their_accesses, states_know_their_past};
