//! Programs that are generated, each with a schedule: for `n`, the text of a program of `n` actors,
//! and the runs of jobs by which it comes to its end. The crate knows these texts as bytes, and
//! nothing of what programs and schedules mean.
#![tactic(auto)]

mod program;
mod schedule;

pub use program::make_program;
pub use schedule::make_schedule;

/// The largest `n`.
pub const MAX_ACTORS: u32 = 200;
