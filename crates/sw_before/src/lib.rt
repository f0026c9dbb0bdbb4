//! Happens-before on the machine, and the first two accesses that it leaves unordered: definitions
//! and laws, without code. The crate knows nothing of how a step is taken, of how clocks are kept
//! in memory, or of which graphs are accepted.
#![tactic(auto)]

mod laws;

pub use laws::{
    channels_carry_the_order, clocks_decide_the_order, events_grow, first_pair_is_found_by_clocks,
    first_pair_is_one, order_stays,
};
