//! Laws, without code: which cells the values of a state name after a step, and where the step takes
//! what it gives to registers, cells, globals and new frames. So a job comes by the name of a cell
//! only from its own registers, from what these lead to, from a location that it reads, from a global
//! `let`, or from the job whose end it waited for. The crate knows nothing of colours, of regions or
//! of the order of events.
#![tactic(auto)]

mod laws;

pub use laws::{
    cells_and_jobs_are_numbered_in_turn, first_values_are_given_alone,
    names_go_from_place_to_place, places_are_filled_in_three_ways, steps_give_what_they_find,
};
