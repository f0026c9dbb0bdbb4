//! Laws, without code, on what the operations at a point do to the regions of a frame (SE-0414,
//! SE-0430): which of its elements are used, come together or are given away, and what a register
//! gets. They are about graphs without region breaches, and the states that the least annotation of a
//! function has at its points. `specs/Rows.antt` has a row for each instruction.
//!
//! The crate knows nothing of the machine, of colours, or of how the annotation is found.
#![tactic(auto)]

mod laws;

pub use laws::{
    blocks_end_as_asked, greater_states_are_weaker, instructions_keep_their_rows,
    operands_are_registers, passed_graphs_are_annotated, points_have_states,
    registers_get_what_sources_hold, registers_have_own_numbers, states_tell_of_elements,
};
