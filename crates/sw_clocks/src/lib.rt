//! Vector clocks in memory: of each job, of its end, and of each actor and global actor, how many
//! events of each job are known there. They follow the events of a run one by one. The crate knows
//! nothing of graphs, of the machine or of accesses: an event is its job and the jobs and executors
//! that link it to others.
#![tactic(auto)]

mod channel;
mod clocks;
mod counts;
mod links;

pub use clocks::Clocks;
pub use links::{Links, MOST_JOBS};
pub use sw_value::Executor;
