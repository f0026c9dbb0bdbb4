//! Breaches: what is wrong with a program's text, and where. The crate knows the codes of all
//! phases with their texts, the order in which breaches are listed, and the lines of a verdict on a
//! text that is refused. It knows nothing of how a breach is found.
#![tactic(auto)]

mod codes;
mod line_table;
mod order;
mod rendering;

pub use codes::GIVEN_AWAY;
pub use order::breaches_are_in_order;
pub use rendering::render;

/// What is wrong with a program's text.
#[derive(Clone, Copy, Debug, PartialEq, Eq)]
pub struct Breach {
    /// One of the codes with a text, as 201.
    pub code: u16,
    /// The position that the breach names: a byte offset into the text.
    pub at: u32,
    /// The position of the note: of `GIVEN_AWAY` where the value was given away, and of no other
    /// code.
    pub note: Option<u32>,
}
