//! Laws, without code: in a graph that is clean, supplied and without region breaches, the memory
//! of each state of the coloured machine is owned, part by part and by the numbers of its colours.
//!
//! The crate knows nothing of races.
#![tactic(auto)]

mod laws;

pub use laws::{
    actors_keep_their_colours, coloured_states_are_owned, colours_meet_in_two_ways,
    owned_jobs_share_no_colour,
};
