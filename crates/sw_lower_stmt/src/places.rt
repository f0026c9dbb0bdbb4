//! Assignments.
#![tactic(auto, unfolding(sw_lower_code::specs::Code::andthen, sw_lower_code::specs::Code::done, sw_lower_code::specs::Code::emit, sw_lower_code::specs::Code::reg))]

ghost use Rattle.std.specs.Prelude.{◌≡◌};
ghost use Rattle.sw_lower_draft.specs.Drafts.{GivesAsRun, making_of};
ghost use Rattle.sw_lower_known.specs.Knowledge.{tables_by};
ghost use Rattle.sw_lower_stmt.specs.Parts.{op_of};
ghost use Rattle.sw_lower_rules.specs.Statements.{assign, assign_by, expr_code};

use std::alloc::Global;
use sw_graph::{BinOp, Instr, Operand, RegKind};
use sw_lower_draft::Draft;
use sw_lower_expr::{expr, write};
use sw_lower_known::Known;
use sw_lower_plans::CodeFault;
use sw_tree::{AssignOp, Expr};
use sw_types::Ty;

/// The operator that an assignment computes with.
fn op_of(op: AssignOp) -> Option<BinOp>
    ensures { result ≡ op_of op }
{
    match op {
        AssignOp::Set => None,
        AssignOp::Add => Some(BinOp::Add),
        AssignOp::Subtract => Some(BinOp::Sub),
        AssignOp::Multiply => Some(BinOp::Mul),
        AssignOp::Divide => Some(BinOp::Div),
        AssignOp::Remainder => Some(BinOp::Rem),
    }
}

/// Assigns what an operator gives of a place's value and another.
fn assign_by(
    alloc: Global,
    known: &Known<'_>,
    owner: Option<u32>,
    at: u32,
    op: BinOp,
    place: &Expr,
    given: Operand,
    draft: &mut Draft<'_>,
) -> Result<(), CodeFault>
    ensures { GivesAsRun ((assign_by at op (expr_code (tables_by known.now) owner place.now)
        given).run
        (making_of draft.old)) result draft.new }
{
    let old = expr(alloc, known, owner, place, draft)?;
    let dst = draft.reg(RegKind::Plain(Ty::Int))?;
    draft.emit(Instr::Bin {
        at,
        dst,
        op,
        left: old,
        right: given,
    })?;
    let new = Operand { reg: dst, at };
    write(alloc, known, owner, place, new, draft)
}

/// Assigns a value to a place by an operator.
pub fn assign(
    alloc: Global,
    known: &Known<'_>,
    owner: Option<u32>,
    op: AssignOp,
    at: u32,
    place: &Expr,
    given: Operand,
    draft: &mut Draft<'_>,
) -> Result<(), CodeFault>
    ensures { GivesAsRun ((assign op at (expr_code (tables_by known.now) owner place.now) given).run
        (making_of draft.old)) result draft.new }
{
    match op_of(op) {
        None => write(alloc, known, owner, place, given, draft),
        Some(op) => assign_by(alloc, known, owner, at, op, place, given, draft),
    }
}
