//! Variables, which are in registers or in boxes.
#![tactic(auto, unfolding(sw_lower_code::specs::Code::andthen, sw_lower_code::specs::Code::done, sw_lower_code::specs::Code::emit, sw_lower_code::specs::Code::known, sw_lower_code::specs::Code::reg, sw_lower_code::specs::Code::var, sw_lower_rules::specs::Uses::read_bound, sw_lower_rules::specs::Uses::read_var, sw_lower_rules::specs::Uses::typed, sw_lower_rules::specs::Uses::write_bound))]

ghost use Rattle.sw_lower_draft.specs.Drafts.{GivesAsRun, making_of};
ghost use Rattle.sw_lower_code.specs.Code.{andthen, var};
ghost use Rattle.sw_lower_known.specs.Knowledge.{tables_by};
ghost use Rattle.sw_lower_rules.specs.Uses.{from_box, read_bound, read_var, write_bound};

use crate::finding::type_of;
use crate::giving::emit_value;
use std::alloc::Global;
use sw_graph::{Instr, Operand, RegKind};
use sw_lower_draft::Draft;
use sw_lower_known::Known;
use sw_lower_plans::{Bound, CodeFault};

/// Reads a variable from its box.
fn from_box(
    alloc: Global,
    known: &Known<'_>,
    at: u32,
    bound: Bound,
    draft: &mut Draft<'_>,
) -> Result<Operand, CodeFault>
    ensures { GivesAsRun ((from_box (tables_by known.now) at bound).run (making_of draft.old))
        result draft.new }
{
    let ty = type_of(alloc, known, bound.key)?;
    let dst = draft.reg(RegKind::Plain(ty))?;
    let cell = Operand { reg: bound.reg, at };
    let instr = Instr::LoadBox { at, dst, cell };
    emit_value(at, dst, instr, draft)
}

/// Reads a variable that was looked up.
fn read_bound(
    alloc: Global,
    known: &Known<'_>,
    at: u32,
    bound: Bound,
    draft: &mut Draft<'_>,
) -> Result<Operand, CodeFault>
    ensures { GivesAsRun ((read_bound (tables_by known.now) at bound).run (making_of draft.old))
        result draft.new }
{
    if bound.boxed {
        from_box(alloc, known, at, bound, draft)
    } else {
        Ok(Operand { reg: bound.reg, at })
    }
}

/// Reads the variable with this key.
pub fn read_var(
    alloc: Global,
    known: &Known<'_>,
    at: u32,
    key: u32,
    draft: &mut Draft<'_>,
) -> Result<Operand, CodeFault>
    ensures { GivesAsRun ((read_var (tables_by known.now) at key).run (making_of draft.old))
        result draft.new }
{
    let bound = draft.var(key)?;
    read_bound(alloc, known, at, bound, draft)
}

/// Assigns to a variable that was looked up.
fn write_bound(at: u32, src: Operand, bound: Bound, draft: &mut Draft<'_>) -> Result<(), CodeFault>
    ensures { GivesAsRun ((write_bound at src bound).run (making_of draft.old)) result draft.new }
{
    if bound.boxed {
        let cell = Operand { reg: bound.reg, at };
        draft.emit(Instr::StoreBox { at, cell, src })
    } else {
        let dst = bound.reg;
        draft.emit(Instr::Copy { at, dst, src })
    }
}

/// Assigns to the variable with this key.
pub fn write_var(at: u32, key: u32, given: Operand, draft: &mut Draft<'_>) -> Result<(), CodeFault>
    ensures { GivesAsRun ((andthen (var key) (write_bound at given)).run (making_of draft.old))
        result draft.new }
{
    let bound = draft.var(key)?;
    write_bound(at, given, bound, draft)
}
