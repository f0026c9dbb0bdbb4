//! Late colours, as laws: a second colouring of the machine's states, in which what a job hands
//! over to an actor stays the job's until the job is dispatched on that actor. So no memory is ever
//! between two owners. What a task takes to the actor on which its maker runs is the actor's at
//! once. It is the coloured machine but for that delay.
//!
//! The crate knows how colours change (`sw_color_rules`), and colours that name their owner
//! (`sw_owner_facts`). It knows nothing of views, of regions or of races.
#![tactic(auto)]

mod laws;

pub use laws::{
    carriers_wait_for_their_actor, changes_move_one_colour, jobs_take_to_one_actor,
    late_colors_are_early_ones, late_colors_removed, late_owners_are_early_ones,
    owners_own_their_number,
};
