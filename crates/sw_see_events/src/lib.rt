//! The events of a replay, for people: of each item that made its job do something the job, where it
//! stood, the access that it made and what it did. The crate knows nothing of texts.
#![tactic(auto)]

mod acts;
mod happening;
mod laws;
mod position;
mod watching;

pub use happening::{Deed, Happening};
pub use laws::{happenings_are_events, watches_are_replays};
pub use watching::{Watched, watch};
