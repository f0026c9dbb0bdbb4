//! The parser of expressions, closures and values that may be optionals, over any parser of what
//! stands in nests: an `Inner` reads the expressions, arguments and statements further in. This
//! crate knows the grammar's rules for expressions and such values, each a function that follows
//! it. It knows nothing of the rules of statements, and nothing of what trees mean.
//!
//! Each function answers as the grammar's reader of its rule, if its `Inner` reads at each lesser
//! depth: it takes the tokens of the rule from the front of `tokens`, or stops where the reader
//! does. `around` is what stands around them, and `depth` is how many more nests may be opened.
//! `closures` says whether closures and the bodies of tasks may stand outside brackets; in a
//! condition they may not. Out of memory is the one free answer, and after a stop nothing is said
//! of the tokens that are left.
#![tactic(auto)]

mod blocks;
mod calls;
mod chains;
mod closures;
mod inner;
mod operands;
mod values;

pub use blocks::{block_items, stmts_inside};
pub use calls::{after_operand, after_word, arg};
pub use chains::{awaited, expr, more_operands};
pub use inner::Inner;
pub use operands::{after_task, negated};
pub use values::{Given, value_for, value_in};
