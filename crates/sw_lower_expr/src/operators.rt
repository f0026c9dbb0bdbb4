//! Operators between two operands.
ghost use Rattle.std.specs.Prelude.{◌≡◌, ℕ};
ghost use Rattle.sw_graph.specs.declared.instr.Operand.{Operand};
ghost use Rattle.sw_lower_code.specs.Code.{Code};
ghost use Rattle.sw_lower_expr.specs.Operations.{by_operation};
ghost use Rattle.sw_lower_rules.specs.Expressions.{by_op};

use sw_graph::BinOp;
use sw_tree::InfixOp;

/// What an operator between two operands does.
#[derive(Clone, Copy)]
pub enum Operation {
    /// It gives `true` without its right operand where the left one is true.
    Either,
    /// It gives `false` without its right operand where the left one is false.
    Both,
    /// It compares two values.
    Compared(BinOp),
    /// It calculates an integer from two.
    Calculated(BinOp),
}

/// What an operator does.
pub fn operation_of(op: InfixOp) -> Operation
    ensures { (at : ℕ) (right : Code Operand) (left : Operand)
        → by_op op at right left ≡ by_operation result at right left }
{
    match op {
        InfixOp::Or => Operation::Either,
        InfixOp::And => Operation::Both,
        InfixOp::Equal => Operation::Compared(BinOp::Eq),
        InfixOp::NotEqual => Operation::Compared(BinOp::Ne),
        InfixOp::Less => Operation::Compared(BinOp::Lt),
        InfixOp::LessEqual => Operation::Compared(BinOp::Le),
        InfixOp::Greater => Operation::Compared(BinOp::Gt),
        InfixOp::GreaterEqual => Operation::Compared(BinOp::Ge),
        InfixOp::Add => Operation::Calculated(BinOp::Add),
        InfixOp::Subtract => Operation::Calculated(BinOp::Sub),
        InfixOp::Multiply => Operation::Calculated(BinOp::Mul),
        InfixOp::Divide => Operation::Calculated(BinOp::Div),
        InfixOp::Remainder => Operation::Calculated(BinOp::Rem),
    }
}
