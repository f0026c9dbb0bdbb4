//! The types of operators.
ghost use Rattle.std.specs.Prelude.{◌≡◌};
ghost use Rattle.sw_typing_rules.specs.Operators.{are_bools, are_ints, assigns, infix_types};
ghost use Rattle.sw_typing_rules.specs.Operators.{prefix_types, sort_of, takes, gives};
ghost use Rattle.sw_typing_rules.specs.Statements.{assigned};

use crate::codes::TYPES;
use crate::types::{fits, is_bool, is_int};
use sw_tree::{AssignOp, InfixOp, PrefixOp};
use sw_types::Ty;
use sw_typing_rules::Verdict;

fn are_ints(left: &Ty, right: &Ty) -> bool
    ensures { result ≡ are_ints left.now right.now }
{
    is_int(left) && is_int(right)
}

fn are_bools(left: &Ty, right: &Ty) -> bool
    ensures { result ≡ are_bools left.now right.now }
{
    is_bool(left) && is_bool(right)
}

/// Whether an operator takes these operands.
fn takes(op: InfixOp, left: &Ty, right: &Ty) -> bool
    ensures { result ≡ takes (sort_of op) left.now right.now }
{
    match op {
        InfixOp::Or | InfixOp::And => are_bools(left, right),
        InfixOp::Equal | InfixOp::NotEqual => are_ints(left, right) || are_bools(left, right),
        InfixOp::Less
        | InfixOp::LessEqual
        | InfixOp::Greater
        | InfixOp::GreaterEqual
        | InfixOp::Add
        | InfixOp::Subtract
        | InfixOp::Multiply
        | InfixOp::Divide
        | InfixOp::Remainder => are_ints(left, right),
    }
}

/// The type that an operator gives.
fn gives(op: InfixOp) -> Ty
    ensures { result ≡ gives (sort_of op) }
{
    match op {
        InfixOp::Or
        | InfixOp::And
        | InfixOp::Equal
        | InfixOp::NotEqual
        | InfixOp::Less
        | InfixOp::LessEqual
        | InfixOp::Greater
        | InfixOp::GreaterEqual => Ty::Bool,
        InfixOp::Add
        | InfixOp::Subtract
        | InfixOp::Multiply
        | InfixOp::Divide
        | InfixOp::Remainder => Ty::Int,
    }
}

/// What is said of an operator between two operands of these types.
pub fn infix_types(op: InfixOp, left: &Option<Ty>, right: &Option<Ty>) -> Verdict
    ensures { result ≡ infix_types op left.now right.now }
{
    match (left, right) {
        (Some(left), Some(right)) => {
            if takes(op, left, right) {
                Verdict::Has(gives(op))
            } else {
                Verdict::Fails(TYPES)
            }
        }
        (None, _) | (Some(_), None) => Verdict::Held,
    }
}

/// What is said of an operator before an operand of this type.
pub fn prefix_types(op: PrefixOp, operand: &Option<Ty>) -> Verdict
    ensures { result ≡ prefix_types op operand.now }
{
    match (op, operand) {
        (_, None) => Verdict::Held,
        (PrefixOp::Not, Some(ty)) => {
            if is_bool(ty) {
                Verdict::Has(Ty::Bool)
            } else {
                Verdict::Fails(TYPES)
            }
        }
        (PrefixOp::Negate, Some(ty)) => {
            if is_int(ty) {
                Verdict::Has(Ty::Int)
            } else {
                Verdict::Fails(TYPES)
            }
        }
    }
}

/// Whether a value of this type can be assigned to such a place.
pub fn assigns(op: AssignOp, place: &Ty, value: &Ty) -> bool
    ensures { result ≡ assigns op place.now value.now }
{
    match op {
        AssignOp::Set => fits(value, place),
        AssignOp::Add
        | AssignOp::Subtract
        | AssignOp::Multiply
        | AssignOp::Divide
        | AssignOp::Remainder => are_ints(place, value),
    }
}

/// Whether a place and a value have types, and the value can be assigned.
pub fn assigned(op: AssignOp, place: &Option<Ty>, value: &Option<Ty>) -> bool
    ensures { result ≡ assigned op place.now value.now }
{
    match (place, value) {
        (Some(place), Some(value)) => assigns(op, place, value),
        (None, _) | (Some(_), None) => false,
    }
}
