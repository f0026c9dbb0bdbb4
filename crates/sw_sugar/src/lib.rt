//! The trees that forms with optionals and `async let` stand for, and the texts that these trees
//! name. It knows trees and names. It knows nothing of tokens, of how the forms are spelled, and of
//! what the trees mean.
#![tactic(auto)]

mod awaits;
mod calls;
mod nodes;
mod optionals;
mod rewritten;
mod tasks;
mod texts;
mod types;
mod words;

pub use awaits::of_task;
pub use calls::{async_let, declare, if_let, none_of, optional_enum, or_literal, some_of};
pub use optionals::{if_let_tree, none_tree, optional_enum_tree, or_literal_stmts, some_tree};
pub use tasks::{async_let_stmts, task_bind};
pub use texts::{part_text, whole_text};
pub use types::copied_type;
pub use words::{Declared, LetArm, OrLiteral};
