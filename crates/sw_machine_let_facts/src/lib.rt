//! Laws, without code: steps change no `let`. In a graph that is placed and supplied, all that a
//! step changes in a cell is what the next access of its job writes, and that is no `let`. A global
//! `let` is stored only by the functions that give first values, and keeps its value when these are
//! done. The crate knows nothing of how a step is taken, of races or of regions.
#![tactic(auto)]

mod laws;

pub use laws::{
    global_lets_get_first_values, global_lets_stay, lets_are_no_locations, lets_stay,
    steps_change_what_they_write,
};
