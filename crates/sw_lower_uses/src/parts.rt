//! Properties of values.
#![tactic(auto, unfolding(sw_lower_code::specs::Code::andthen, sw_lower_code::specs::Code::done, sw_lower_code::specs::Code::emit, sw_lower_code::specs::Code::known, sw_lower_code::specs::Code::reg, sw_lower_rules::specs::Uses::call_getter, sw_lower_rules::specs::Uses::part_at, sw_lower_rules::specs::Uses::read_part, sw_lower_rules::specs::Uses::shape_at, sw_lower_rules::specs::Uses::unknown))]

ghost use Rattle.sw_lower_draft.specs.Drafts.{GivesAsRun, making_of};
ghost use Rattle.sw_graph.specs.declared.instr.Instr.TheVariants as instr;
ghost use Rattle.sw_lower_known.specs.Knowledge.{tables_by};
ghost use Rattle.sw_lower_rules.specs.Uses.{give, part_by, part_in, read_part};

use crate::calls::call_getter;
use crate::finding::{part_at, shape_at};
use crate::giving::emit_value;
use std::alloc::Global;
use sw_graph::{Instr, Operand, RegKind};
use sw_list::ListOf;
use sw_lower_draft::Draft;
use sw_lower_known::Known;
use sw_lower_plans::CodeFault;
use sw_types::{CallKind, ShapeKind, Ty};
use sw_typing_words::copy_of;

/// Reads a property of a struct's value.
fn field(
    at: u32,
    number: usize,
    ty: Ty,
    base: Operand,
    draft: &mut Draft<'_>,
) -> Result<Operand, CodeFault>
    ensures { GivesAsRun ((give at ty (λ dst. instr.Field at dst base number)).run
        (making_of draft.old))
        result draft.new }
{
    let dst = draft.reg(RegKind::Plain(ty))?;
    let instr = Instr::Field {
        at,
        dst,
        src: base,
        part: number,
    };
    emit_value(at, dst, instr, draft)
}

/// Reads a property of an object or an actor, where that crosses nothing.
fn load_part(
    at: u32,
    number: usize,
    ty: Ty,
    cell: Operand,
    draft: &mut Draft<'_>,
) -> Result<Operand, CodeFault>
    ensures { GivesAsRun ((give at ty (λ dst. instr.LoadProp at dst cell number)).run
        (making_of draft.old)) result draft.new }
{
    let dst = draft.reg(RegKind::Plain(ty))?;
    let instr = Instr::LoadProp {
        at,
        dst,
        cell,
        part: number,
    };
    emit_value(at, dst, instr, draft)
}

/// Reads a property of an object or an actor: by its getter where that crosses.
fn part_by(
    alloc: Global,
    known: &Known<'_>,
    kind: Option<CallKind>,
    at: u32,
    shape: u32,
    number: usize,
    ty: Ty,
    cell: Operand,
    draft: &mut Draft<'_>,
) -> Result<Operand, CodeFault>
    ensures { GivesAsRun
        ((part_by (tables_by known.now) kind at shape number ty cell).run (making_of draft.old))
        result draft.new }
{
    match kind {
        None => load_part(at, number, ty, cell, draft),
        Some(kind) => {
            let key = known.part_key(shape, number).ok_or(CodeFault::Missing)?;
            call_getter(at, kind, ty, key, ListOf::one(alloc, cell)?, draft)
        }
    }
}

/// Reads a property of a value of a type of this kind.
fn part_in(
    alloc: Global,
    known: &Known<'_>,
    kind: ShapeKind,
    at: u32,
    shape: u32,
    number: usize,
    ty: Ty,
    base: Operand,
    draft: &mut Draft<'_>,
) -> Result<Operand, CodeFault>
    ensures { GivesAsRun
        ((part_in (tables_by known.now) kind at shape number ty base).run (making_of draft.old))
        result draft.new }
{
    match kind {
        ShapeKind::Struct => field(at, number, ty, base, draft),
        ShapeKind::Enum => Err(CodeFault::Missing),
        ShapeKind::Class | ShapeKind::Actor => {
            let kind = known.kind_at(at);
            part_by(alloc, known, kind, at, shape, number, ty, base, draft)
        }
    }
}

/// Reads the property with this number of a value of the type with the number `shape`.
pub fn read_part(
    alloc: Global,
    known: &Known<'_>,
    at: u32,
    shape: u32,
    number: usize,
    base: Operand,
    draft: &mut Draft<'_>,
) -> Result<Operand, CodeFault>
    ensures { GivesAsRun
        ((read_part (tables_by known.now) at shape number base).run (making_of draft.old))
        result draft.new }
{
    let found = shape_at(known, shape)?;
    let ty = copy_of(alloc, &part_at(number, found)?.ty)?;
    part_in(alloc, known, found.kind, at, shape, number, ty, base, draft)
}
