//! The theorem on graphs alone, as a law without code: the machine of a graph that is clean, supplied
//! and without region breaches never races, whatever items it takes.
//!
//! The crate knows nothing of texts.
#![tactic(auto)]

mod laws;

pub use laws::passed_graphs_never_race;
