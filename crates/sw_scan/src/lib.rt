//! One scan of a whole text: some pieces of it are skipped, others are items, and where neither
//! stands the text has its first fault. Here are the definitions, the scan as a function, and the
//! lemmas that both agree and that a text is scanned in only one way. A crate that has a form of
//! texts, such as tokens or schedules, says what its pieces, items and faults are, and writes the
//! loop. There are also the classes of bytes that such forms share. Nothing here knows of a
//! particular form.
#![tactic(auto)]

mod bytes;

pub use bytes::{digits_len, is_blank, is_digit};

/// What stands at one offset of a text that has no fault there. Lengths are in bytes.
#[derive(Clone, Copy)]
pub enum Step {
    /// The end of the text.
    End,
    /// A piece of this length, to be skipped.
    Skip(usize),
    /// An item of this length.
    Take(usize),
}
