//! The machine with the clocks of happens-before: one item of a schedule at a time, and the first
//! two accesses of the items so far that are unordered; and what comes of a schedule whose accesses
//! are to be ordered. The crate knows nothing of how an instruction is executed, of how clocks are
//! kept in memory, of races of states or of source texts.
#![tactic(auto)]

mod clocked;
mod entries;
mod fault;
mod finding;
mod history;
mod laws;
mod links;
mod ordering;
mod table;

pub use clocked::{Clocked, ItemList, clock_start, clock_step};
pub use fault::ClockFault;
pub use laws::items_have_one_order;
pub use ordering::{OrderReplay, order_replay};
