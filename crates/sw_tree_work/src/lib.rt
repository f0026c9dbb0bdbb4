//! The work of each form of the language: what it does, in order, and how it goes on. It knows nothing
//! of graphs, and nothing of states and steps, which a machine over this work has.
#![tactic(auto)]

mod laws;

pub use laws::{
    arguments_are_in_order, assignments_find_values_first, conditions_choose,
    loops_are_left_by_break, operands_are_in_order, receivers_come_first, returns_end_bodies,
    right_operands_may_be_skipped, statements_are_in_order, subjects_are_found_once,
};
