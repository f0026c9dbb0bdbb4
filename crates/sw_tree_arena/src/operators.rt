//! What operators do.
ghost use Rattle.std.specs.Prelude.{◌≡◌, ℕ};
ghost use Rattle.sw_tree_arena.specs.Nodes.{act_of};
ghost use Rattle.sw_tree_arena.specs.Operations.{assign_with, by_operation};
ghost use Rattle.sw_tree_work.specs.Forms.{ExprWork, assign, by_op, prefixed};
ghost use Rattle.sw_tree_work.specs.Work.{Before, Work};

use crate::node::Act;
use sw_graph::{BinOp, UnOp};
use sw_tree::{AssignOp, InfixOp, PrefixOp};

/// What an operator between two operands does.
#[derive(Clone, Copy)]
pub enum Operation {
    /// `||`: the right operand is looked at where the left one is false.
    Either,
    /// `&&`: the right operand is looked at where the left one is true.
    Both,
    /// A value is computed from both operands.
    Computed(BinOp),
}

/// What an operator between two operands does.
pub fn operation_of(op: InfixOp) -> Operation
    ensures { (at : ℕ) (right : Before) (rest : Work)
        → by_operation result at right rest ≡ by_op op at right rest }
{
    match op {
        InfixOp::Or => Operation::Either,
        InfixOp::And => Operation::Both,
        InfixOp::Equal => Operation::Computed(BinOp::Eq),
        InfixOp::NotEqual => Operation::Computed(BinOp::Ne),
        InfixOp::Less => Operation::Computed(BinOp::Lt),
        InfixOp::LessEqual => Operation::Computed(BinOp::Le),
        InfixOp::Greater => Operation::Computed(BinOp::Gt),
        InfixOp::GreaterEqual => Operation::Computed(BinOp::Ge),
        InfixOp::Add => Operation::Computed(BinOp::Add),
        InfixOp::Subtract => Operation::Computed(BinOp::Sub),
        InfixOp::Multiply => Operation::Computed(BinOp::Mul),
        InfixOp::Divide => Operation::Computed(BinOp::Div),
        InfixOp::Remainder => Operation::Computed(BinOp::Rem),
    }
}

/// The act of an operator before its operand.
pub fn prefixed(op: PrefixOp, at: u32) -> Act
    ensures { act_of result ≡ prefixed op at }
{
    match op {
        PrefixOp::Not => Act::Unary { at, op: UnOp::Not },
        PrefixOp::Negate => Act::Unary { at, op: UnOp::Neg },
    }
}

/// What an assignment computes the next value with, from the one before and the value that is given.
pub fn computed_by(op: AssignOp) -> Option<BinOp>
    ensures { (at : ℕ) (place : ExprWork) (rest : Work)
        → assign_with result at place rest ≡ assign op at place rest }
{
    match op {
        AssignOp::Set => None,
        AssignOp::Add => Some(BinOp::Add),
        AssignOp::Subtract => Some(BinOp::Sub),
        AssignOp::Multiply => Some(BinOp::Mul),
        AssignOp::Divide => Some(BinOp::Div),
        AssignOp::Remainder => Some(BinOp::Rem),
    }
}
