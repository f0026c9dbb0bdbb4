//! A graph whose machine never races: one that is clean and supplied and that has no region breach.
//! Of two conflicting accesses of its machine the earlier one happens before the later.
//! The crate knows nothing of texts, or of how such a graph is made.
#![tactic(auto)]

mod checked;
mod laws;

pub use checked::{CertifyFault, Checked};
pub use laws::{
    checked_colours_meet_in_two_ways, checked_graphs_never_race,
    checked_graphs_order_their_accesses, checked_graphs_own_their_memory,
};
