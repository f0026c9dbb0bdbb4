//! The events of a replay as lines for people, one for each. The crate knows the words for what a
//! job does, and reads the names of what it does it to in the source. It knows nothing of how the
//! machine takes a step.
#![tactic(auto)]

mod deeds;
mod laws;
mod steps;
mod words;

pub use deeds::executor_text;
pub use laws::lines_follow_events;
pub use steps::{step_line, step_lines};
pub use words::{MOST_OF_A_WORD, word_of};
