//! A machine over the written tree: what one item of a schedule makes its job do, by the work that the
//! job's frames still have to do. It knows nothing of graphs, and nothing of how a program is judged.
#![tactic(auto)]

mod examples;
mod laws;

pub use examples::{actors_are_hopped_to, loops_are_left, right_is_skipped, tasks_are_awaited};
pub use laws::{
    events_tell_of_traps, halted_machines_stay, idle_items_change_nothing, other_jobs_stay,
    programs_begin,
};
