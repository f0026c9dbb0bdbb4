//! The parser of statements and blocks, over any parser of what stands in nests: an `Inner` reads
//! the expressions, arguments and statements further in. This crate knows the grammar's rules for
//! statements, each a function that follows it. It knows nothing of declarations, and nothing of
//! what trees mean.
//!
//! Each function answers as the grammar's reader of its rule, if its `Inner` reads at each lesser
//! depth: it takes the tokens of the rule from the front of `tokens`, or stops where the reader
//! does. `around` is what stands around them, and `depth` is how many more nests may be opened. Out
//! of memory is the one free answer, and after a stop nothing is said of the tokens that are left.
#![tactic(auto)]

mod arms;
mod blocks;
mod control;
mod if_let;
mod simple;
mod statement;
mod switch;
mod variables;

pub use blocks::{block, value};
pub use control::if_stmt;
pub use statement::stmt;
