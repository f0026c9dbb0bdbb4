//! Who owns memory while a program runs, as laws: which moves of jobs and frames keep each job's
//! memory apart from the others', so that no two running jobs hold one colour in their top frames.
//!
//! A move says how one view of the running program may differ from the next. There is no machine
//! here, no graph and no code: a proof about a machine has to show that each of its steps is made
//! of these moves.
#![tactic(auto)]

mod laws;
mod premises;
mod unreached;

pub use laws::{
    actors_are_anchored, calls_keep_soundness, changes_keep_soundness, closing_keeps_soundness,
    colours_have_one_owner, dispatch_keeps_soundness, giving_keeps_soundness,
    merging_keeps_soundness, no_frames_are_sound, operations_keep_soundness,
    returns_keep_soundness, suspended_frames_stay, tasks_keep_soundness,
};
pub use premises::{
    premises_of_calls, premises_of_changes, premises_of_colours, premises_of_returns,
};
pub use unreached::{callers_wait_on_actors, ownership_alone_is_not_kept};
