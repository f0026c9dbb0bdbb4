//! Laws, without code, that join the machine to ownership: what the view of a coloured state is,
//! and what each effect does to it, as a move of ownership or a chain of moves. The crate knows
//! nothing of which colours a step gives, of the instruction that has an effect, or of how the
//! region states of a function are found.
#![tactic(auto)]

mod colours;
mod effects;
mod jobs;

pub use colours::{
    cells_show_what_they_are_given, colours_unite, registers_keep_what_they_reach,
    registers_show_their_values, some_colour_is_kept,
};
pub use effects::{
    effects_change_one_frame, effects_keep_soundness, frames_keep_their_shapes,
    initialisers_begin_to_close, parts_are_taken, region_states_change,
    stores_and_makers_keep_soundness,
};
pub use jobs::{
    calls_push_frames, dispatches_give_executors, first_frames_are_sound, frames_hold_what_is_lent,
    returns_pop_frames, tasks_add_jobs, traps_change_no_view, waking_keeps_soundness,
};
