//! What words, members, callees and operators are where they stand, by what a program declares: the
//! rules of types as code, each exactly as `sw_typing_rules` defines it. It goes over no
//! expressions and no statements.
#![tactic(auto)]

mod arguments;
mod callee;
mod calling;
mod cases;
mod codes;
mod found;
mod meant;
mod operators;
mod scope;
mod types;
mod words;

pub use arguments::{call_types, is_marked_at};
pub use callee::{Callee, callee_meaning};
pub use calling::{
    case_in, case_meaning, enum_callee, enum_types, found_callee, init_number, outer_callee,
    variable_callee,
};
pub use cases::{cases_of, written};
pub use found::{found_in, found_meaning, found_settable, found_types};
pub use meant::Outer;
pub use operators::{assigned, assigns, infix_types, prefix_types};
pub use scope::Scope;
pub use types::{copy_if, copy_of, fits, is_accepted, is_bool, is_marked, is_unit, marked_type};
pub use words::{
    is_object_kind, me_types, outer, outer_enum, outer_meaning, outer_settable, outer_types,
    var_types,
};
