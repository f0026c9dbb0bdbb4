//! The parser of what holds no expression: words, operators, literals, written types, headers of
//! closures and patterns. It knows the rules of the grammar for them, each as a function that
//! follows it, and nothing of statements, of declarations or of what trees mean.
//!
//! Each function answers as the grammar's reader of its rule: it takes the tokens of the rule from
//! the front of `tokens`, or stops where the reader does. `around` is what stands around them, and
//! `depth` is how many more nests may be opened. Out of memory is the one free answer, and after a
//! stop nothing is said of the tokens that are left. If an optional part is missing, its function
//! takes no token.
#![tactic(auto)]

mod around;
mod headers;
mod operators;
mod patterns;
mod tasks;
mod types;
mod words;

pub use around::Around;
pub use headers::{
    captures, captures_if, empty, signature, signature_if, task_signature, task_signature_if,
};
pub use operators::{
    a_literal, assign_op, equals, infix_and, infix_compare, infix_or, infix_plus, infix_times,
    prefix_op, sees_assign, sees_binding, sees_compare, sees_expr, sees_literal, sees_plus,
    sees_prefix, sees_stmt, sees_times, sees_value_on_line,
};
pub use patterns::patterns_if;
pub use tasks::Tasks;
pub use types::{Typed, some_types, tree_of, type_if, type_tree, wanted_of, written_type};
pub use words::{
    DeclaredWord, attribute, new_name, new_word, plain_word, sees_attribute, sees_plain_word,
    sees_value_word, sendable, task_word, value_word, word,
};
