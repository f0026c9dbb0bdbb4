//! The verdict on the text of a program, with the graph of one that is accepted as a checked graph.
//! The crate knows which phases decide. It knows nothing of what a phase requires of a text, of
//! files or of commands.
#![tactic(auto)]

mod checking;
mod laws;

pub use checking::{Verdict, check_text};
pub use laws::verdicts_are_exact;
