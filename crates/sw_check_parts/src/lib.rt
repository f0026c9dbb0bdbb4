//! What a command is made of: parts that follow one another, the files that they read, the reply
//! that one of them decides, what a function that does some of them leaves of a shelf, and the
//! writing of the reply. It knows of exits and of limits of files, and nothing of programs,
//! schedules or the words of the command line.
#![tactic(auto)]

mod exit;
mod fetching;
mod outcome;
mod stop;
mod writing;

pub use exit::Exit;
pub use fetching::fetch;
pub use outcome::{Outcome, lines, too_long, with_last_line};
pub use stop::Stop;
pub use writing::write_all;

/// The most bytes that a program's file may have. No file that a command fetches has a lower limit.
pub const PROGRAM_LIMIT: usize = 262_144;
