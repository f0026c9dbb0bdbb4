//! A language server: what it does about each message of a client, and a session with one client
//! over any reader and writer, to its end. The crate knows the messages of the protocol, and which
//! documents are open. It knows nothing of how a text is judged, or of the system.
#![tactic(auto)]

mod documents;
mod ending;
mod laws;
mod phase;
mod server;
mod session;

pub use ending::{Ending, Stop};
pub use laws::{requests_are_answered, what_is_shown_was_found};
pub use session::serve;
