//! Schedules: the items that a schedule text spells, and what comes of them: what a program prints
//! under all of them, and the same until two of its jobs are about to race. The crate knows nothing
//! of source texts, and of the machine only its start, its steps, what they print and the races of
//! its states.
#![tactic(auto)]

mod items;
mod iter;
mod laws;
mod output;
mod playing;
mod replaying;
mod runs;
mod text;

pub use items::{MAX_ITEMS, Schedule};
pub use laws::{
    items_have_one_replay, items_of_texts, schedule_limits, schedule_texts_have_one_reading,
};
pub use output::{End, Output, Replay};
pub use playing::{add_line, output_by, output_of};
pub use replaying::replay;
pub use text::{SCHEDULE_LIMIT, SchedFault, schedule};
