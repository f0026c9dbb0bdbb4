//! The races of a state: the access that a job makes next, the race that it is in, and an index
//! that finds the race that a step brings in. It takes no step, and knows nothing of texts of
//! schedules.
#![tactic(auto)]

mod access;
mod index;
mod laws;
mod target;
mod uses;
mod with;

pub use access::next_access;
pub use index::RaceIndex;
pub use laws::steps_bring_in_races_of_one_job;
pub use sw_value::{Access, Place, Race};
pub use target::Target;
pub use with::race_with;
