//! Assignments to expressions.
#![tactic(auto, unfolding(sw_lower_code::specs::Code::andthen, sw_lower_code::specs::Code::emit, sw_lower_code::specs::Code::known, sw_lower_code::specs::Code::reg, sw_lower_rules::specs::Uses::shape_at, sw_lower_rules::specs::Uses::shape_of, sw_lower_rules::specs::Uses::write_var, sw_lower_rules::specs::Expressions::write_part))]

ghost use Rattle.sw_lower_draft.specs.Drafts.{GivesAsRun, making_of};
ghost use Rattle.sw_lower_expr.specs.Walked.{cell_written};
ghost use Rattle.sw_lower_known.specs.Knowledge.{tables_by};
ghost use Rattle.sw_lower_rules.specs.Expressions.{member_write, own_base, set_part};
ghost use Rattle.sw_lower_rules.specs.Expressions.{word_write, write_part};
ghost use Rattle.sw_lower_rules.specs.Statements.{expr_code};
ghost use Rattle.sw_types.specs.declared.shape.ShapeKind.TheVariants as shapes;

use crate::keys::key_of;
use crate::walk::expr;
use std::alloc::Global;
use sw_graph::{Instr, Operand, RegKind};
use sw_lower_draft::Draft;
use sw_lower_known::Known;
use sw_lower_plans::CodeFault;
use sw_lower_uses::{read_self, shape_at, shape_of, write_var};
use sw_tree::Expr;
use sw_types::{ShapeKind, Ty};
use sw_typing_rules::Meaning;

/// An assignment of a value to an expression, in a member of the type with the number `owner`.
#[cycle(write)]
#[tactic(auto, unfolding(sw_lower_code::specs::Code::known, sw_lower_rules::specs::Statements::expr_code))]
pub fn write(
    alloc: Global,
    known: &Known<'_>,
    owner: Option<u32>,
    tree: &Expr,
    given: Operand,
    draft: &mut Draft<'_>,
) -> Result<(), CodeFault>
    ensures { GivesAsRun (((expr_code (tables_by known.now) owner tree.now).write given).run
        (making_of draft.old)) result draft.new }
{
    match tree {
        Expr::Use { name } => write_word(alloc, known, owner, name.at, given, draft),
        Expr::Member { base, name } => {
            write_member(alloc, known, owner, base.get(), name.at, given, draft)
        }
        Expr::Int { .. }
        | Expr::Bool { .. }
        | Expr::Me { .. }
        | Expr::Call { .. }
        | Expr::Method { .. }
        | Expr::Chain { .. }
        | Expr::Prefix { .. }
        | Expr::Await { .. }
        | Expr::Fun(_)
        | Expr::Spawn { .. }
        | Expr::Yield { .. } => Err(CodeFault::Missing),
    }
}

/// An assignment to the word at `at`.
fn write_word(
    alloc: Global,
    known: &Known<'_>,
    owner: Option<u32>,
    at: u32,
    given: Operand,
    draft: &mut Draft<'_>,
) -> Result<(), CodeFault>
    ensures { GivesAsRun ((word_write (tables_by known.now) owner at
        ((tables_by known.now).answers.meaning_at at) given).run (making_of draft.old))
        result draft.new }
{
    match known.meaning_at(at).ok_or(CodeFault::Missing)? {
        Meaning::Local(variable) => write_var(at, variable, given, draft),
        Meaning::OwnPart(number) => {
            let shape = owner.ok_or(CodeFault::Missing)?;
            write_own(alloc, known, owner, at, shape, number, given, draft)
        }
        Meaning::GlobalOf(number) => draft.emit(Instr::StoreGlobal {
            at,
            global: number,
            src: given,
        }),
        Meaning::OwnFunc(_)
        | Meaning::FuncOf(_)
        | Meaning::MakeOf(_)
        | Meaning::CaseOf(..)
        | Meaning::PartOf(_)
        | Meaning::Print
        | Meaning::TaskValue => Err(CodeFault::Missing),
    }
}

/// An assignment to a property of `self` in a struct's method. No program that was judged has one:
/// there is no assignment to `self`, to which the changed value would go.
fn write_own_field(
    alloc: Global,
    known: &Known<'_>,
    owner: Option<u32>,
    at: u32,
    shape: u32,
    number: usize,
    given: Operand,
    draft: &mut Draft<'_>,
) -> Result<(), CodeFault>
    ensures { GivesAsRun ((set_part (tables_by known.now) owner shapes.Struct at shape number
        (own_base (tables_by known.now) owner at) given).run (making_of draft.old))
        result draft.new }
{
    let old = read_self(alloc, known, owner, at, draft)?;
    let dst = draft.reg(RegKind::Plain(Ty::Named(shape)))?;
    draft.emit(Instr::Copy { at, dst, src: old })?;
    draft.emit(Instr::SetField {
        at,
        target: Operand { reg: dst, at },
        part: number,
        src: given,
    })?;
    Err(CodeFault::Missing)
}

/// An assignment to a property of `self`, which has the type with the number `shape` and is left
/// out.
fn write_own(
    alloc: Global,
    known: &Known<'_>,
    owner: Option<u32>,
    at: u32,
    shape: u32,
    number: usize,
    given: Operand,
    draft: &mut Draft<'_>,
) -> Result<(), CodeFault>
    ensures { GivesAsRun ((write_part (tables_by known.now) owner at shape number
        (own_base (tables_by known.now) owner at) given).run (making_of draft.old))
        result draft.new }
{
    match shape_at(known, shape)?.kind {
        ShapeKind::Struct => write_own_field(alloc, known, owner, at, shape, number, given, draft),
        ShapeKind::Enum => Err(CodeFault::Missing),
        ShapeKind::Class | ShapeKind::Actor => {
            let cell = read_self(alloc, known, owner, at, draft)?;
            draft.emit(Instr::StoreProp {
                at,
                cell,
                part: number,
                src: given,
            })
        }
    }
}

/// An assignment to the member at `at` of `base`.
#[cycle(write)]
fn write_member(
    alloc: Global,
    known: &Known<'_>,
    owner: Option<u32>,
    base: &Expr,
    at: u32,
    given: Operand,
    draft: &mut Draft<'_>,
) -> Result<(), CodeFault>
    ensures { GivesAsRun ((member_write (tables_by known.now) owner at
        (expr_code (tables_by known.now) owner base.now)
        ((tables_by known.now).answers.meaning_at at) given).run (making_of draft.old))
        result draft.new }
{
    match known.meaning_at(at).ok_or(CodeFault::Missing)? {
        Meaning::PartOf(number) => {
            let shape = shape_of(known, key_of(base))?;
            write_part(alloc, known, owner, base, at, shape, number, given, draft)
        }
        Meaning::Local(_)
        | Meaning::OwnPart(_)
        | Meaning::OwnFunc(_)
        | Meaning::GlobalOf(_)
        | Meaning::FuncOf(_)
        | Meaning::MakeOf(_)
        | Meaning::CaseOf(..)
        | Meaning::Print
        | Meaning::TaskValue => Err(CodeFault::Missing),
    }
}

/// An assignment to a property of `base`, which has the type with the number `shape`.
#[cycle(write)]
fn write_part(
    alloc: Global,
    known: &Known<'_>,
    owner: Option<u32>,
    base: &Expr,
    at: u32,
    shape: u32,
    number: usize,
    given: Operand,
    draft: &mut Draft<'_>,
) -> Result<(), CodeFault>
    ensures { GivesAsRun ((write_part (tables_by known.now) owner at shape number
        (expr_code (tables_by known.now) owner base.now) given).run (making_of draft.old))
        result draft.new }
{
    match shape_at(known, shape)?.kind {
        ShapeKind::Struct => {
            write_field(alloc, known, owner, base, at, shape, number, given, draft)
        }
        ShapeKind::Enum => Err(CodeFault::Missing),
        ShapeKind::Class | ShapeKind::Actor => {
            write_cell(alloc, known, owner, base, at, number, given, draft)
        }
    }
}

/// An assignment to a property of an object or an actor.
fn write_cell(
    alloc: Global,
    known: &Known<'_>,
    owner: Option<u32>,
    base: &Expr,
    at: u32,
    number: usize,
    given: Operand,
    draft: &mut Draft<'_>,
) -> Result<(), CodeFault>
    ensures { GivesAsRun ((cell_written at number
        (expr_code (tables_by known.now) owner base.now).read given).run (making_of draft.old))
        result draft.new }
{
    let cell = expr(alloc, known, owner, base, draft)?;
    draft.emit(Instr::StoreProp {
        at,
        cell,
        part: number,
        src: given,
    })
}

/// An assignment to a property of a struct's value: a copy is changed, and assigned to what held
/// the value.
#[cycle(write)]
fn write_field(
    alloc: Global,
    known: &Known<'_>,
    owner: Option<u32>,
    base: &Expr,
    at: u32,
    shape: u32,
    number: usize,
    given: Operand,
    draft: &mut Draft<'_>,
) -> Result<(), CodeFault>
    ensures { GivesAsRun ((set_part (tables_by known.now) owner shapes.Struct at shape number
        (expr_code (tables_by known.now) owner base.now) given).run (making_of draft.old))
        result draft.new }
{
    let old = expr(alloc, known, owner, base, draft)?;
    let dst = draft.reg(RegKind::Plain(Ty::Named(shape)))?;
    draft.emit(Instr::Copy { at, dst, src: old })?;
    let whole = Operand {
        reg: dst,
        at: key_of(base),
    };
    draft.emit(Instr::SetField {
        at,
        target: whole,
        part: number,
        src: given,
    })?;
    write(alloc, known, owner, base, whole, draft)
}
