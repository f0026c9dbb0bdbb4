//! The line of a text in which a position stands, as a terminal shows it, with a mark under the
//! position. The crate knows texts and the widths of characters, and nothing of breaches, of tokens
//! or of the language.
#![tactic(auto)]

mod around;
mod showing;
mod shown;
mod table;

pub use around::SIDE;
pub use showing::{excerpt, source_line};
pub use shown::shown_text;
pub use table::LineTable;
