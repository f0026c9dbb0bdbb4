//! Pictures of replays, as SVG: a lane for each job, with a mark for each event in order, in the
//! colour of what the job runs on; arrows for tasks that start and whose ends are heard of; and the
//! race at which a replay stopped, in red, with both lines of the source. The crate knows events, and
//! nothing of how the machine takes a step.
#![tactic(auto)]

mod keys;
mod lanes;
mod laws;
mod layout;
mod marking;
mod marks;
mod markup;
mod paints;
mod picture;
mod races;
mod shapes;

pub use laws::{drawn_marks_cover_last_events, marks_cover_events};
pub use marks::{Link, MOST_MARKS, Mark};
pub use markup::escaped;
pub use picture::{MOST_NAMED, draw};
