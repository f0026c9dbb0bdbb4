ghost use Rattle.std.specs.Prelude.{◌≡◌, IfOk, option_and_then};
ghost use Rattle.sw_value.specs.Arithmetic.{unary, binary};
ghost use Rattle.sw_value.specs.Effect.{needs, computed_of};
ghost use Rattle.sw_value.specs.Printed.{printed_line};
ghost use Rattle.sw_value.specs.Value.{made, operand_value, values_at};
ghost use Rattle.sw_value.specs.declared.effect.Effect.TheVariants.{Set, Print};

use crate::arithmetic::{binary, unary};
use crate::context::Context;
use crate::operands::{printed_line, values_at};
use std::alloc::AllocError;
use sw_graph::{BinOp, Operand, OperandList, UnOp};
use sw_value::{Effect, TrapKind, Value};

/// A register gets what a prefix operator computes.
pub fn unary_effect(context: &Context<'_>, at: u32, reg: u32, op: UnOp, operand: &Operand) -> Effect
    ensures { result
        ≡ needs (option_and_then (unary op) (operand_value context.now.frame.now.regs operand.now))
        (computed_of context.now.next at reg) }
{
    let Some(value) = context.frame.value_at(operand.reg) else {
        return Effect::Stuck;
    };
    match unary(op, value) {
        None => Effect::Stuck,
        Some(outcome) => computed_of(context.next, at, reg, outcome),
    }
}

/// A register gets what an infix operator computes.
pub fn binary_effect(
    context: &Context<'_>,
    at: u32,
    reg: u32,
    op: BinOp,
    left: &Operand,
    right: &Operand,
) -> Effect
    ensures { result ≡ needs (operand_value context.now.frame.now.regs left.now)
        (λ v. needs
        (option_and_then (binary op v) (operand_value context.now.frame.now.regs right.now))
        (computed_of context.now.next at reg)) }
{
    let Some(left) = context.frame.value_at(left.reg) else {
        return Effect::Stuck;
    };
    let Some(right) = context.frame.value_at(right.reg) else {
        return Effect::Stuck;
    };
    match binary(op, left, right) {
        None => Effect::Stuck,
        Some(outcome) => computed_of(context.next, at, reg, outcome),
    }
}

fn computed_of(next: u32, at: u32, reg: u32, outcome: Result<Value, TrapKind>) -> Effect
    ensures { result ≡ computed_of next at reg outcome }
{
    match outcome {
        Ok(value) => Effect::Set { reg, value, next },
        Err(kind) => Effect::Halt { kind, at },
    }
}

/// The line of some operands is printed.
pub fn print_effect(
    context: &Context<'_>,
    reg: u32,
    operands: &OperandList,
) -> Result<Effect, AllocError>
    ensures { IfOk result (λ effect. effect
        ≡ needs (printed_line context.now.frame.now.regs operands.now)
        (λ line. Print reg line context.now.next)) }
{
    match printed_line(context.alloc, context.frame, operands)? {
        None => Ok(Effect::Stuck),
        Some(line) => Ok(Effect::Print {
            reg,
            line,
            next: context.next,
        }),
    }
}

/// A register gets the struct of some operands, or the case with a number and these as its payload.
pub fn make_effect(
    context: &Context<'_>,
    reg: u32,
    tag: Option<usize>,
    operands: &OperandList,
) -> Result<Effect, AllocError>
    ensures { IfOk result (λ effect. effect
        ≡ needs (values_at context.now.frame.now.regs operands.now)
        (λ parts. Set reg (made tag parts) context.now.next)) }
{
    match values_at(context.alloc, context.frame, operands)? {
        None => Ok(Effect::Stuck),
        Some(parts) => Ok(Effect::Set {
            reg,
            value: Value::made(tag, parts),
            next: context.next,
        }),
    }
}
