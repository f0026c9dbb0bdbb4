//! Laws, without code, on the colours of memory that values reach: a value refers to cells, a cell
//! shows its colour or what it captured, and a value that is Sendable reaches no colour at all. The
//! crate knows nothing of who owns a colour, of frames, of regions or of how a step is taken.
#![tactic(auto)]

mod laws;

pub use laws::{
    cells_show_colours, colours_are_renamed, colours_fit_kinded_states, colours_stay,
    parts_reach_less, references_go_by_form, untracked_values_reach_no_colour,
    untracked_values_refer_to_untracked, values_name_cells,
};
