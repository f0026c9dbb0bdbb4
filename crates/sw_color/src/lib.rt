//! The coloured machine: a start and a step, each with what it does to the colours of cells and
//! frames, and the owner of a cell. It knows nothing of how an instruction is executed, of races or of
//! schedules.
#![tactic(auto)]

mod colors;
mod names;
mod palette;
mod planning;
mod starting;
mod stepping;
mod values;

pub use starting::color_start;
pub use stepping::{color_step, owner_of};
