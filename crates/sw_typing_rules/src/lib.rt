//! The rules of types: what the type of each node of a program is, by the types of its parts, what
//! each word means, and which nodes are ill (E401 to E408). They stand in specs/ as definitions;
//! this crate has the types that they speak of and their laws, and no code that goes over a
//! program.
#![tactic(auto)]

mod found;
mod laws;
mod row;
mod scope;
mod verdict;

pub use found::Found;
pub use laws::{
    expressions_are_judged, expressions_are_judged_by_key, expressions_are_judged_once,
    ill_nodes_have_codes_of_types, programs_have_a_first_ill_node,
    programs_have_one_first_ill_node, programs_have_one_world, programs_say_what_is_said,
    statements_leave_one_thing, statements_leave_something, types_fit_where_they_are_accepted,
    well_expressions_have_types, well_programs_have_types, well_statements_have_types,
};
pub use row::{Meaning, Row};
pub use scope::{Inside, Returned, Var};
pub use verdict::{Given, Verdict};
