//! Where the breaches of a program's text stand in a document: the lines and characters of its
//! positions as the Language Server Protocol counts them, and the range that a position stands for.
//! The crate knows a text and its tokens. It knows nothing of messages, of verdicts or of what is to
//! be answered.
#![tactic(auto)]

mod laws;
mod place;
mod range;

pub use laws::{characters_have_their_units, lines_are_those_of_messages};
pub use range::RangeTable;
