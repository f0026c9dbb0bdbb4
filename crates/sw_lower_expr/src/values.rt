//! Values that one instruction computes.
#![tactic(auto, unfolding(sw_lower_code::specs::Code::andthen, sw_lower_code::specs::Code::done, sw_lower_code::specs::Code::emit, sw_lower_code::specs::Code::known, sw_lower_code::specs::Code::reg, sw_lower_rules::specs::Uses::typed))]

ghost use Rattle.sw_lower_draft.specs.Drafts.{GivesAsRun, making_of};
ghost use Rattle.sw_graph.specs.declared.instr.Instr.TheVariants as instr;
ghost use Rattle.sw_lower_known.specs.Knowledge.{tables_by};
ghost use Rattle.sw_lower_expr.specs.Walked.{waited};
ghost use Rattle.sw_lower_rules.specs.Expressions.{copied, prefixed};
ghost use Rattle.sw_lower_rules.specs.Uses.{give};
ghost use Rattle.sw_types.specs.declared.ty.Ty.TheVariants as types;

use std::alloc::Global;
use sw_graph::{BinOp, Instr, Literal, Operand, OperandList, RegKind, UnOp};
use sw_lower_draft::Draft;
use sw_lower_known::Known;
use sw_lower_plans::CodeFault;
use sw_lower_uses::{emit_value, type_of};
use sw_tree::PrefixOp;
use sw_types::Ty;

/// The value of a literal.
pub fn literal(at: u32, ty: Ty, value: Literal, draft: &mut Draft<'_>) -> Result<Operand, CodeFault>
    ensures { GivesAsRun ((give at ty (λ dst. instr.Const at dst value)).run (making_of draft.old))
        result draft.new }
{
    let dst = draft.reg(RegKind::Plain(ty))?;
    emit_value(at, dst, Instr::Const { at, dst, value }, draft)
}

/// What a prefix operator gives.
fn unary(
    at: u32,
    ty: Ty,
    op: UnOp,
    src: Operand,
    draft: &mut Draft<'_>,
) -> Result<Operand, CodeFault>
    ensures { GivesAsRun ((give at ty (λ dst. instr.Un at dst op src)).run (making_of draft.old))
        result draft.new }
{
    let dst = draft.reg(RegKind::Plain(ty))?;
    emit_value(at, dst, Instr::Un { at, dst, op, src }, draft)
}

/// The value of an operator before its operand's value.
pub fn prefixed(
    op: PrefixOp,
    at: u32,
    value: Operand,
    draft: &mut Draft<'_>,
) -> Result<Operand, CodeFault>
    ensures { GivesAsRun ((prefixed op at value).run (making_of draft.old)) result draft.new }
{
    match op {
        PrefixOp::Not => unary(at, Ty::Bool, UnOp::Not, value, draft),
        PrefixOp::Negate => unary(at, Ty::Int, UnOp::Neg, value, draft),
    }
}

/// The value of an operator between two values.
pub fn computed(
    at: u32,
    op: BinOp,
    ty: Ty,
    left: Operand,
    right: Operand,
    draft: &mut Draft<'_>,
) -> Result<Operand, CodeFault>
    ensures { GivesAsRun ((give at ty (λ dst. instr.Bin at dst op left right)).run
        (making_of draft.old))
        result draft.new }
{
    let dst = draft.reg(RegKind::Plain(ty))?;
    let instr = Instr::Bin {
        at,
        dst,
        op,
        left,
        right,
    };
    emit_value(at, dst, instr, draft)
}

/// A register with a copy of a truth value.
pub fn copied(at: u32, value: Operand, draft: &mut Draft<'_>) -> Result<u32, CodeFault>
    ensures { GivesAsRun ((copied at value).run (making_of draft.old)) result draft.new }
{
    let dst = draft.reg(RegKind::Plain(Ty::Bool))?;
    draft.emit(Instr::Copy {
        at,
        dst,
        src: value,
    })?;
    Ok(dst)
}

/// The call of `print`.
pub fn print(at: u32, args: OperandList, draft: &mut Draft<'_>) -> Result<Operand, CodeFault>
    ensures { GivesAsRun ((give at types.Unit (λ dst. instr.Print at dst args)).run
        (making_of draft.old)) result draft.new }
{
    let dst = draft.reg(RegKind::Plain(Ty::Unit))?;
    emit_value(at, dst, Instr::Print { at, dst, args }, draft)
}

/// The call of `Task.yield`.
pub fn yielded(at: u32, draft: &mut Draft<'_>) -> Result<Operand, CodeFault>
    ensures { GivesAsRun ((give at types.Unit (λ dst. instr.Yield at dst)).run
        (making_of draft.old))
        result draft.new }
{
    let dst = draft.reg(RegKind::Plain(Ty::Unit))?;
    emit_value(at, dst, Instr::Yield { at, dst }, draft)
}

/// The result of a task.
pub fn waited(
    alloc: Global,
    known: &Known<'_>,
    at: u32,
    task: Operand,
    draft: &mut Draft<'_>,
) -> Result<Operand, CodeFault>
    ensures { GivesAsRun ((waited (tables_by known.now) at task).run (making_of draft.old))
        result draft.new }
{
    let ty = type_of(alloc, known, at)?;
    let dst = draft.reg(RegKind::Plain(ty))?;
    emit_value(at, dst, Instr::Await { at, dst, task }, draft)
}
