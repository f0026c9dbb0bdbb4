ghost use Rattle.std.specs.Prelude.{◌≡◌};
ghost use Rattle.sw_value.specs.Arithmetic.{unary, binary, of_integers, of_truths, quotient};
ghost use Rattle.sw_value.specs.Arithmetic.{remainder, is_same_truth};
ghost use Rattle.sw_step.specs.Checked.{of_checked};

use sw_graph::{BinOp, UnOp};
use sw_value::{TrapKind, Value};

/// What a prefix operator gives of a value, or `None` where it doesn't take such a value.
#[tactic(auto, using(crate::proofs::ArithmeticLemmas::checks))]
pub fn unary(op: UnOp, value: &Value) -> Option<Result<Value, TrapKind>>
    ensures { result ≡ unary op value.now }
{
    match op {
        UnOp::Not => Some(Ok(Value::Bool(!value.truth()?))),
        UnOp::Neg => Some(of_checked(value.integer()?.checked_neg())),
    }
}

/// What an infix operator gives of two values, or `None` where it doesn't take such values.
pub fn binary(op: BinOp, left: &Value, right: &Value) -> Option<Result<Value, TrapKind>>
    ensures { result ≡ binary op left.now right.now }
{
    match left {
        Value::Int(left) => Some(of_integers(op, *left, right.integer()?)),
        Value::Bool(left) => Some(Ok(of_truths(op, *left, right.truth()?)?)),
        Value::Unit | Value::Cell(_) | Value::Group(_) | Value::Case { .. } => None,
    }
}

/// What an operator gives of two truth values, if it takes such.
fn of_truths(op: BinOp, left: bool, right: bool) -> Option<Value>
    ensures { result ≡ of_truths op left right }
{
    match op {
        BinOp::Eq => Some(Value::Bool(left == right)),
        BinOp::Ne => Some(Value::Bool(left != right)),
        BinOp::Add
        | BinOp::Sub
        | BinOp::Mul
        | BinOp::Div
        | BinOp::Rem
        | BinOp::Lt
        | BinOp::Le
        | BinOp::Gt
        | BinOp::Ge => None,
    }
}

/// What an operator gives of two integers.
#[tactic(auto, using(crate::proofs::ArithmeticLemmas::checks))]
fn of_integers(op: BinOp, left: i64, right: i64) -> Result<Value, TrapKind>
    ensures { result ≡ of_integers op left right }
{
    match op {
        BinOp::Add => of_checked(left.checked_add(right)),
        BinOp::Sub => of_checked(left.checked_sub(right)),
        BinOp::Mul => of_checked(left.checked_mul(right)),
        BinOp::Div => quotient(left, right),
        BinOp::Rem => remainder(left, right),
        BinOp::Eq => Ok(Value::Bool(left == right)),
        BinOp::Ne => Ok(Value::Bool(left != right)),
        BinOp::Lt => Ok(Value::Bool(left < right)),
        BinOp::Le => Ok(Value::Bool(left <= right)),
        BinOp::Gt => Ok(Value::Bool(left > right)),
        BinOp::Ge => Ok(Value::Bool(left >= right)),
    }
}

/// The quotient of a division toward zero.
#[tactic(auto, using(crate::proofs::ArithmeticLemmas::checks))]
fn quotient(left: i64, right: i64) -> Result<Value, TrapKind>
    ensures { result ≡ quotient left right }
{
    if right == 0 {
        return Err(TrapKind::ZeroDivisor);
    }
    of_checked(left.checked_div(right))
}

/// The remainder of a division toward zero.
#[tactic(auto, using(crate::proofs::ArithmeticLemmas::checks))]
fn remainder(left: i64, right: i64) -> Result<Value, TrapKind>
    ensures { result ≡ remainder left right }
{
    if right == 0 {
        return Err(TrapKind::ZeroDivisor);
    }
    of_checked(left.checked_rem(right))
}

/// An integer, or the trap of one that has more than 64 bits.
fn of_checked(number: Option<i64>) -> Result<Value, TrapKind>
    ensures { result ≡ of_checked number }
{
    match number {
        None => Err(TrapKind::Overflow),
        Some(number) => Ok(Value::Int(number)),
    }
}
