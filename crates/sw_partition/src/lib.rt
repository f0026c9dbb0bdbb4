//! Region states: which elements are in one region, and which sites gave an element away.
//!
//! The elements are numbers from 0 on. Element 0 is `Here`, what belongs to the running isolation.
//! A `Partition` is such a state, with the operations of region-based isolation (SE-0414) in place.
//! It is a `Lattice`, whose order is the inclusion of the equivalence and of the set of pairs. The
//! crate knows nothing of graphs.
#![tactic(auto)]

mod labels;
mod laws;
mod links;
mod state;
mod words;

pub use laws::{
    fresh_is_monotone, give_is_monotone, join_is_monotone, put_is_monotone, tests_are_monotone,
};
pub use state::Partition;
