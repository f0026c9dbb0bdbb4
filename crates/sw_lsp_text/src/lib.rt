//! The texts of the Language Server Protocol 3.17: frames, the messages of a client, and the replies
//! to them. A stream of bytes is cut into frames, the JSON of a frame's body is read as a message,
//! and a reply is made as JSON and put into a frame. The crate knows the protocol's texts, and
//! nothing of programs, of files or of what is to be answered.
#![tactic(auto)]

mod diagnostic;
mod fault;
mod frame;
mod header;
mod laws;
mod message;
mod part;
mod place;
mod reply;
mod sending;

pub use diagnostic::{Action, Diagnostic, Edit, Related};
pub use fault::Fault;
pub use frame::{BODY_LIMIT, Cut, HEADER_LIMIT, first_cut};
pub use laws::{cuts_stay, replies_are_shallow, sent_frames_are_whole};
pub use message::{Message, read_message};
pub use place::{Place, Range};
pub use reply::{begun, hovered, nothing, offered, published, refused, reported};
pub use sending::framed;
