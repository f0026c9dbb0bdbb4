//! What is known of the isolation of a program, as tables: its bodies, the kinds of its calls, what
//! its closures capture, and which of its values cross that may not. It knows nothing of how they
//! are found.
#![tactic(auto)]

mod by_key;
mod isolated;
mod laws;

pub use by_key::{kinds_of, note_first};
pub use isolated::Isolated;
pub use laws::answers_are_those_of_the_program;
