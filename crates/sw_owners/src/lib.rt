//! Who owns the coloured cells of a program after a schedule: the replay of the schedule on the
//! coloured machine, and the lines about owners. The crate knows nothing of what steps do to
//! colours, nor of source texts: it is given the names of global actors.
#![tactic(auto)]

mod lines;
mod owners;
mod replaying;

pub use lines::owner_lines;
pub use owners::{CellOwner, OwnedList, owners_of};
pub use replaying::{OwnerReplay, color_replay};
