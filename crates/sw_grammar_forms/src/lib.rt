//! Grammars as forms, and how they are read. This crate knows what a form spells, the reader of a
//! form, the laws that hold of every grammar whose forms are decided by one token, and the cursor
//! that a parser reads with. It knows which texts the grammar of programs quotes, and no rule of
//! it.
#![tactic(auto)]

mod cursor;
mod laws;
mod stop;

pub use cursor::Cursor;
pub use laws::sets_have_their_tokens;
pub use stop::Stop;
