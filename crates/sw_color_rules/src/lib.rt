//! The coloured machine as definitions: the machine, and the colours of its cells and frames. A colour
//! marks memory that one owner may reach: a job, an actor or a global actor. It knows nothing of how a
//! step is taken, and its states are those of the machine.
#![tactic(auto)]

mod colored;
mod colors;
mod laws;
mod names;
mod plan;

pub use colored::Colored;
pub use colors::{ColorNumbers, Colors, HereList, Owner, OwnerList, Palette, Tint, TintList};
pub use laws::{colors_removed, colors_were_made, palettes_stay_whole};
pub use names::Names;
pub use plan::{FrameChange, Plan};
