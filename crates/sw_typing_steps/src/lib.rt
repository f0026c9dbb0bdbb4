//! Each rule of types as a step over a table: what is known of an expression or how a statement
//! goes, by what is known of its parts, and what is noted then. The definitions stand in
//! `sw_typing_rules`; this crate goes over no tree.
#![tactic(auto)]

mod bodies;
mod closures;
mod codes;
mod declare;
mod exprs;
mod known;
mod reading;
mod rows;
mod stmts;
mod switches;
mod table;

pub use bodies::{body_rows, open_body};
pub use closures::{Opened, close_closure, fun_types, open_closure, task_types};
pub use exprs::{
    awaited, call, callee_by_member, callee_by_word, forget_enum, infix, literal_bool, member,
    note, prefix, word,
};
pub use known::{Enclosed, Known, Went};
pub use rows::Rows;
pub use stmts::{
    assign, assign_place, bind, break_out, condition, continue_on, expects, marked_result, plain,
    return_value, return_void,
};
pub use switches::{declare_patterns, switch_end};
pub use table::Table;
