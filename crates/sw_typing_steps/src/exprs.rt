//! Expressions.
ghost use Rattle.std.specs.Prelude.{◌≡◌, [], ◌++◌, drop, IfOk, OnOk};
ghost use Rattle.sw_typing_rules.specs.Calls.{call_types, callee_meaning};
ghost use Rattle.sw_typing_rules.specs.Expressions.{bool_judged, call_callee, member_judged};
ghost use Rattle.sw_typing_rules.specs.Expressions.{method_by, noted, rows_by, value_method};
ghost use Rattle.sw_typing_rules.specs.Expressions.{word_judged};
ghost use Rattle.sw_typing_rules.specs.Operators.{infix_types, prefix_types};
ghost use Rattle.sw_typing_rules.specs.Verdicts.{meaning_rows, rows_of};
ghost use Rattle.sw_typing_rules.specs.Words.{var_types};
ghost use Rattle.sw_typing_rules.specs.Worlds.{world_of};
ghost use Rattle.sw_typing_words.specs.Callees.{as_callee};
ghost use Rattle.sw_typing_steps.specs.Steps.{cut, judged_since, known_of, setting_in, with_rows};

use crate::known::Known;
use crate::reading::{member_reading, note_reading, type_in, word_reading};
use crate::table::Table;
use std::alloc::{AllocError, Global};
use sw_decls::Decls;
use sw_list::ListOf;
use sw_tree::{InfixOp, Name, PrefixOp};
use sw_types::Ty;
use sw_typing_rules::{Given, Row, Verdict};
use sw_typing_words::{
    Callee, call_types, callee_meaning, case_in, enum_callee, found_callee, found_in, infix_types,
    outer, outer_callee, prefix_types, var_types, variable_callee,
};

/// Notes what a rule says of the node with a key.
pub fn note(
    alloc: Global,
    at: u32,
    verdict: Verdict,
    table: &mut Table,
) -> Result<Known, AllocError>
    ensures known { IfOk result (λ known. known ≡ known_of (noted at verdict [])) }
    ensures noted { OnOk result (table.new ≡ with_rows table.old (rows_of at verdict)) }
{
    table.rows.note_verdict(alloc, at, &verdict)?;
    Ok(Known {
        key: at,
        ty: type_in(verdict),
        names: None,
        settable: false,
        is_true: false,
    })
}

/// A literal `true` or `false`.
pub fn literal_bool(at: u32, value: bool, table: &mut Table) -> Result<Known, AllocError>
    ensures known { IfOk result (λ known. known ≡ known_of (bool_judged at value)) }
    ensures noted { OnOk result (table.new ≡ with_rows table.old (bool_judged at value).rows) }
{
    table.rows.push(Row::Typed { at, ty: Ty::Bool })?;
    Ok(Known {
        key: at,
        ty: Some(Ty::Bool),
        names: None,
        settable: false,
        is_true: value,
    })
}

/// A word.
pub fn word(
    alloc: Global,
    world: &Decls,
    owner: Option<u32>,
    name: Name,
    table: &mut Table,
) -> Result<Known, AllocError>
    ensures known { IfOk result (λ known. known
        ≡ known_of (word_judged (world_of world.now) (setting_in owner table.old) name)) }
    ensures noted { OnOk result (table.new ≡ with_rows table.old
        (word_judged (world_of world.now) (setting_in owner table.old) name).rows) }
{
    let reading = word_reading(alloc, world, owner, &table.vars, name.id)?;
    note_reading(alloc, name.at, reading, table)
}

/// A member of `base`, which was judged since the table had `start` rows.
pub fn member(
    alloc: Global,
    world: &Decls,
    start: usize,
    base: Known,
    name: Name,
    table: &mut Table,
) -> Result<Known, AllocError>
    ensures known { IfOk result (λ known. known
        ≡ known_of (member_judged (world_of world.now) (judged_since base start table.old) name)) }
    ensures noted { OnOk result (table.new ≡ with_rows (cut start table.old)
        (member_judged (world_of world.now) (judged_since base start table.old) name).rows) }
{
    let reading = member_reading(alloc, world, &base, name.id)?;
    forget_enum(start, &base, table);
    note_reading(alloc, name.at, reading, table)
}

/// An operator before its operand.
pub fn prefix(
    alloc: Global,
    op: PrefixOp,
    at: u32,
    inner: Known,
    table: &mut Table,
) -> Result<Known, AllocError>
    ensures known { IfOk result (λ known. known
        ≡ known_of (noted at (prefix_types op inner.ty) [])) }
    ensures noted { OnOk result (table.new
        ≡ with_rows table.old (rows_of at (prefix_types op inner.ty))) }
{
    note(alloc, at, prefix_types(op, &inner.ty), table)
}

/// `await` before its operand.
pub fn awaited(alloc: Global, at: u32, inner: Known, table: &mut Table) -> Result<Known, AllocError>
    ensures known { IfOk result (λ known. known ≡ known_of (noted at (var_types inner.ty) [])) }
    ensures noted { OnOk result (table.new
        ≡ with_rows table.old (rows_of at (var_types inner.ty))) }
{
    let verdict = var_types(alloc, &inner.ty)?;
    note(alloc, at, verdict, table)
}

/// An operator between two operands.
pub fn infix(
    alloc: Global,
    op: InfixOp,
    at: u32,
    left: Known,
    right: Known,
    table: &mut Table,
) -> Result<Known, AllocError>
    ensures known { IfOk result (λ known. known
        ≡ known_of (noted at (infix_types op left.ty right.ty) [])) }
    ensures noted { OnOk result (table.new
        ≡ with_rows table.old (rows_of at (infix_types op left.ty right.ty))) }
{
    note(alloc, at, infix_types(op, &left.ty, &right.ty), table)
}

/// What a call by a word calls.
pub fn callee_by_word(
    alloc: Global,
    world: &Decls,
    owner: Option<u32>,
    name: Name,
    table: &Table,
) -> Result<Callee, AllocError>
    ensures { IfOk result (λ callee. as_callee (world_of world.now) callee
        ≡ call_callee (world_of world.now) (setting_in owner table.now) name) }
{
    match table.vars.find(name.id) {
        Some(var) => variable_callee(alloc, var.at, &var.ty),
        None => outer_callee(alloc, world, outer(world, owner, name.id)),
    }
}

/// What a call of a member of a value of this type calls, if it has one.
fn value_method(
    alloc: Global,
    world: &Decls,
    ty: &Option<Ty>,
    id: u32,
) -> Result<Callee, AllocError>
    ensures { IfOk result (λ callee. as_callee (world_of world.now) callee
        ≡ value_method (world_of world.now) ty.now id) }
{
    match ty {
        None => Ok(Callee::Untyped(None)),
        Some(ty) => {
            let found = found_in(alloc, world, ty, id)?;
            found_callee(alloc, world, &found)
        }
    }
}

/// What a call of a member of `base` calls.
pub fn callee_by_member(
    alloc: Global,
    world: &Decls,
    base: &Known,
    name: Name,
) -> Result<Callee, AllocError>
    ensures { IfOk result (λ callee. as_callee (world_of world.now) callee
        ≡ method_by (world_of world.now) base.now.names base.now.ty name.id) }
{
    match base.names {
        None => value_method(alloc, world, &base.ty, name.id),
        Some(shape) => Ok(enum_callee(world, shape, case_in(world, shape, name.id))),
    }
}

/// Takes back what was noted of `base` since the table had `start` rows, where it is a word that
/// names an enum before a `.`, which is no node.
pub fn forget_enum(start: usize, base: &Known, table: &mut Table)
    ensures { table.new ≡ with_rows (cut start table.old)
        (rows_by base.now.names (drop start table.old.rows)) }
{
    match base.names {
        None => {}
        Some(_) => table.rows.truncate(start),
    }
}

/// A call with these arguments.
pub fn call(
    alloc: Global,
    world: &Decls,
    callee: Callee,
    at: u32,
    given: ListOf<Given>,
    table: &mut Table,
) -> Result<Known, AllocError>
    ensures known { IfOk result (λ known. known
        ≡ known_of (noted at (call_types (as_callee (world_of world.now) callee) given) [])) }
    ensures noted { OnOk result (table.new ≡ with_rows table.old
        (meaning_rows at (callee_meaning (as_callee (world_of world.now) callee))
        ++ rows_of at (call_types (as_callee (world_of world.now) callee) given))) }
{
    table.rows.note_meaning(at, callee_meaning(world, &callee))?;
    let verdict = call_types(alloc, world, &callee, given.as_slice())?;
    note(alloc, at, verdict, table)
}
