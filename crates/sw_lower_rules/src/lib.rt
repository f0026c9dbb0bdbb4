//! What the graph of a program is, form by form. It knows nothing of how a program is gone through.
#![tactic(auto)]

mod laws;
mod targets;

pub use laws::{
    functions_are_in_order, literals_take_one_register, numbers_are_places,
    programs_have_one_first_too_large, results_follow_operands, the_right_operand_is_skipped,
};
pub use targets::Targets;
