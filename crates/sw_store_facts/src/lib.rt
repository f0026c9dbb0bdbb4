//! Laws, without code, on instructions that copy, load, make and store values: in a coloured state of a clean
//! graph whose view is sound, the state after such an instruction has a sound view too. They put
//! together what the instruction does to the regions of its frame, what its effect does to the view,
//! and what values reach.
//!
//! The crate knows nothing of calls and jobs, or of how colours are chosen.
#![tactic(auto)]

mod laws;

pub use laws::{
    copies_keep_soundness, literals_keep_soundness, loads_keep_soundness, makers_keep_soundness,
    new_cells_keep_soundness, prints_and_yields_keep_soundness,
    reads_of_what_is_here_keep_soundness, stores_keep_soundness,
};
