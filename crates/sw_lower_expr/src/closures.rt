//! Closures and tasks as values: what they capture, and the number of their body. The body is a
//! function of its own.
#![tactic(auto, unfolding(sw_lower_code::specs::Code::andthen, sw_lower_code::specs::Code::known, sw_lower_code::specs::Code::number, sw_lower_code::specs::Code::reg, sw_lower_rules::specs::Uses::typed))]

ghost use Rattle.sw_lower_draft.specs.Drafts.{GivesAsRun, making_of};
ghost use Rattle.sw_lower_expr.specs.Walked.{closure_made, task_made};
ghost use Rattle.sw_lower_known.specs.Knowledge.{tables_by};

use std::alloc::Global;
use sw_graph::{Instr, Operand, RegKind};
use sw_lower_draft::Draft;
use sw_lower_known::Known;
use sw_lower_plans::{CodeFault, FunctionName};
use sw_lower_uses::{captures, emit_value, type_of};

/// The closure whose body has the key `at`.
pub fn closure_made(
    alloc: Global,
    known: &Known<'_>,
    at: u32,
    draft: &mut Draft<'_>,
) -> Result<Operand, CodeFault>
    ensures { GivesAsRun ((closure_made (tables_by known.now) at).run (making_of draft.old))
        result draft.new }
{
    let captured = captures(alloc, known, at, at, draft)?;
    let function = draft.number(FunctionName {
        key: at,
        getter: false,
    })?;
    let ty = type_of(alloc, known, at)?;
    let dst = draft.reg(RegKind::Plain(ty))?;
    let instr = Instr::NewClosure {
        at,
        dst,
        function,
        captures: captured,
    };
    emit_value(at, dst, instr, draft)
}

/// The task whose word stands at `at`, and whose body has the key `body`.
pub fn task_made(
    alloc: Global,
    known: &Known<'_>,
    at: u32,
    body: u32,
    draft: &mut Draft<'_>,
) -> Result<Operand, CodeFault>
    ensures { GivesAsRun ((task_made (tables_by known.now) at body).run (making_of draft.old))
        result draft.new }
{
    let captured = captures(alloc, known, at, body, draft)?;
    let function = draft.number(FunctionName {
        key: body,
        getter: false,
    })?;
    let ty = type_of(alloc, known, at)?;
    let dst = draft.reg(RegKind::Plain(ty))?;
    let instr = Instr::NewTask {
        at,
        dst,
        function,
        captures: captured,
    };
    emit_value(at, dst, instr, draft)
}
