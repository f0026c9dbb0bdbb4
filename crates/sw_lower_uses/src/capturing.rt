//! What closures and tasks take when they are made.
#![tactic(auto, unfolding(sw_lower_code::specs::Code::andthen, sw_lower_code::specs::Code::done, sw_lower_code::specs::Code::emit, sw_lower_code::specs::Code::known, sw_lower_code::specs::Code::reg, sw_lower_code::specs::Code::var, sw_lower_rules::specs::Uses::capture, sw_lower_rules::specs::Uses::capture_bound, sw_lower_rules::specs::Uses::listed_value, sw_lower_rules::specs::Uses::typed, sw_lower_rules::specs::Uses::unknown))]

ghost use Rattle.sw_lower_draft.specs.Drafts.{GivesAsRun, making_of};
ghost use Rattle.sw_lower_code.specs.Code.{each};
ghost use Rattle.sw_lower_known.specs.Knowledge.{tables_by};
ghost use Rattle.sw_lower_rules.specs.Uses.{capture, capture_bound, listed_value};

use crate::finding::type_of;
use crate::giving::emit_value;
use std::alloc::Global;
use sw_graph::{Instr, Operand, OperandList, RegKind};
use sw_isolation_rules::Capture;
use sw_list::ListOf;
use sw_lower_draft::Draft;
use sw_lower_known::Known;
use sw_lower_plans::{Bound, CodeFault};

/// Reads a variable in a box that a closure lists, where the closure is made.
fn listed_value(
    alloc: Global,
    known: &Known<'_>,
    at: u32,
    capture: Capture,
    bound: Bound,
    draft: &mut Draft<'_>,
) -> Result<Operand, CodeFault>
    ensures { GivesAsRun
        ((listed_value (tables_by known.now) at capture bound).run (making_of draft.old))
        result draft.new }
{
    let ty = type_of(alloc, known, bound.key)?;
    let dst = draft.reg(RegKind::Plain(ty))?;
    let cell = Operand {
        reg: bound.reg,
        at: capture.first,
    };
    let instr = Instr::LoadBox { at, dst, cell };
    emit_value(capture.first, dst, instr, draft)
}

/// What goes into a closure for a variable that was looked up. One that is captured by reference
/// and is in no box has no code.
fn capture_bound(
    alloc: Global,
    known: &Known<'_>,
    at: u32,
    capture: Capture,
    bound: Bound,
    draft: &mut Draft<'_>,
) -> Result<Operand, CodeFault>
    ensures { GivesAsRun
        ((capture_bound (tables_by known.now) at capture bound).run (making_of draft.old))
        result draft.new }
{
    match (capture.by_ref, bound.boxed) {
        (true, false) => Err(CodeFault::Missing),
        (false, true) => listed_value(alloc, known, at, capture, bound, draft),
        (true, true) | (false, false) => Ok(Operand {
            reg: bound.reg,
            at: capture.first,
        }),
    }
}

/// What goes into a closure for a variable that it captures.
fn capture(
    alloc: Global,
    known: &Known<'_>,
    at: u32,
    one: Capture,
    draft: &mut Draft<'_>,
) -> Result<Operand, CodeFault>
    ensures { GivesAsRun ((capture (tables_by known.now) at one).run (making_of draft.old))
        result draft.new }
{
    let bound = draft.var(one.variable)?;
    capture_bound(alloc, known, at, one, bound, draft)
}

/// What goes into the closure or task with the key `closure`, in order.
#[tactic(auto, using(crate::proofs::Gathered::each_is))]
pub fn captures(
    alloc: Global,
    known: &Known<'_>,
    at: u32,
    closure: u32,
    draft: &mut Draft<'_>,
) -> Result<OperandList, CodeFault>
    ensures { GivesAsRun ((each (capture (tables_by known.now) at)
        ((tables_by known.now).isolation.captures_of closure)).run (making_of draft.old))
        result draft.new }
{
    let mut operands = ListOf::new(alloc);
    for one in known.captures_of(closure) {
        operands.push(capture(alloc, known, at, *one, draft)?)?;
    }
    Ok(operands)
}
