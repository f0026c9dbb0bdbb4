//! Edits that mend breaches of a program's text: words that are put in at one place. An edit is
//! offered only if it was tried: in the edited text the breach isn't found any more, and none that is
//! new. The crate knows which breaches words may mend, and what is found in a text. It knows nothing
//! of messages, of documents that are open, or of why a breach is one.
#![tactic(auto)]

mod actions;
mod examined;
mod sites;
mod trial;
mod words;

pub use actions::actions_at;
