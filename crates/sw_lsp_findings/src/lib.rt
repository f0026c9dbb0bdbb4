//! What an editor is shown of the text of a program: its breaches as diagnostics, and what is known
//! of the codes. The crate knows the verdict on a text, where breaches stand, and what the page of
//! codes says. It knows nothing of messages, of documents that are open, or of streams.
#![tactic(auto)]

mod finding;
mod findings;
mod hovers;
mod lookup;
mod sections;
mod setting;

pub use finding::diagnostic_of;
pub use findings::{breaches_of, findings_of};
pub use hovers::{Hover, is_over, known_at};
pub use setting::Setting;
