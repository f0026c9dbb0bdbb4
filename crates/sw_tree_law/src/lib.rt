//! Laws, without code, on the written trees of texts: the machine on the tree does what the machine on
//! the text's graph does, item for item, and that of an accepted text never races. The crate knows
//! nothing of how the facts that it puts together are shown.
#![tactic(auto)]

mod laws;

pub use laws::{accepted_trees_never_race, trees_run_as_graphs};
