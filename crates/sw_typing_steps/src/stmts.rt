//! Statements.
ghost use Rattle.std.specs.Prelude.{◌≡◌, ◌++◌, ◌&&◌, ◌||◌, [], true, false, IfOk, OnOk, is_some};
ghost use Rattle.std.specs.Prelude.{None, map, not};
ghost use Rattle.sw_typing_rules.specs.Statements.{assigned, bind_left, break_left, continue_left};
ghost use Rattle.sw_typing_rules.specs.Statements.{expects, fixed, is_condition, marked_result};
ghost use Rattle.sw_typing_rules.specs.Statements.{bare_rows, misassigned, no_bare, place_type};
ghost use Rattle.sw_typing_rules.specs.Statements.{plain_left};
ghost use Rattle.sw_typing_rules.specs.Statements.{return_value, return_void};
ghost use Rattle.sw_typing_rules.specs.Verdicts.{ill_if};
ghost use Rattle.sw_typing_rules.specs.declared.row.Row.TheVariants.{Ill};
ghost use Rattle.sw_typing_steps.specs.Results.{takes_bare, takes_plain, takes_value, value_rows};
ghost use Rattle.sw_typing_steps.specs.Results.{with_bare, with_value};
ghost use Rattle.sw_typing_steps.specs.Steps.{after, cut, judged_of, judged_since, state_of};
ghost use Rattle.sw_typing_steps.specs.Steps.{went_of, with_rows};

use crate::codes::{FIXED, NOTHING_AROUND, TYPES};
use crate::declare::declare;
use crate::known::{Known, Went};
use crate::rows::Rows;
use crate::table::Table;
use std::alloc::{AllocError, Global};
use sw_tree::{AssignOp, Name};
use sw_types::Ty;
use sw_typing_rules::{Inside, Returned};
use sw_typing_words::{assigned, assigns, is_accepted, is_bool, is_marked, is_unit, marked_type};

/// A statement after which the ways go on.
fn goes_on(fine: bool) -> Went
    ensures { result ≡ record { fine = fine; ends = false; breaks = false } }
{
    Went {
        fine,
        ends: false,
        breaks: false,
    }
}

/// A statement at which the ways end.
fn ended(fine: bool) -> Went
    ensures { result ≡ record { fine = fine; ends = true; breaks = false } }
{
    Went {
        fine,
        ends: true,
        breaks: false,
    }
}

/// A `let` or `var` whose value was judged since the table had `start` rows.
#[tactic(auto, using(crate::proofs::TableLemmas::bound_open, crate::proofs::TableLemmas::bound_written))]
pub fn bind(
    alloc: Global,
    start: usize,
    mutable: bool,
    name: Name,
    ty: Option<Ty>,
    value: Known,
    table: &mut Table,
) -> Result<Went, AllocError>
    ensures went { IfOk result (λ went. went ≡ went_of
        (bind_left (state_of table.old) mutable name ty (judged_since value start table.old))) }
    ensures left { OnOk result (table.new ≡ after (cut start table.old)
        (bind_left (state_of table.old) mutable name ty (judged_since value start table.old))) }
{
    match ty {
        None => {
            let fine = value.ty.is_some();
            declare(alloc, name, mutable, value.ty, table)?;
            Ok(goes_on(fine))
        }
        Some(ty) => {
            let fine = is_accepted(&value.ty, &ty);
            table.rows.note_refused(name.at, &value.ty, &ty)?;
            declare(alloc, name, mutable, Some(ty), table)?;
            Ok(goes_on(fine))
        }
    }
}

/// The type of a place that is assigned. Notes one that can't be.
pub fn assign_place(
    inside: Inside,
    place: Known,
    table: &mut Table,
) -> Result<Option<Ty>, AllocError>
    ensures ty { IfOk result (λ ty. ty ≡ place_type inside (judged_of place [])) }
    ensures noted { OnOk result (table.new
        ≡ with_rows table.old (ill_if (fixed inside (judged_of place [])) place.key 404)) }
{
    let fixed = place.ty.is_some() && !(inside.init || place.settable);
    table.rows.note_ill(fixed, place.key, FIXED)?;
    if fixed { Ok(None) } else { Ok(place.ty) }
}

/// Notes an assignment whose value doesn't fit its place.
fn note_misassigned(
    at: u32,
    op: AssignOp,
    place: &Option<Ty>,
    value: &Option<Ty>,
    rows: &mut Rows,
) -> Result<(), AllocError>
    ensures { OnOk result (rows.new ≡ rows.old ++ misassigned op at place.now value.now) }
{
    match (place, value) {
        (Some(place), Some(value)) => rows.note_ill(!assigns(op, place, value), at, TYPES),
        (None, _) | (Some(_), None) => Ok(()),
    }
}

/// An assignment to a place of this type, by the operator that stands at `at`.
pub fn assign(
    at: u32,
    op: AssignOp,
    place: &Option<Ty>,
    value: &Known,
    table: &mut Table,
) -> Result<Went, AllocError>
    ensures went { IfOk result (λ went. went
        ≡ record { fine = assigned op place.now value.now.ty; ends = false; breaks = false }) }
    ensures noted { OnOk result (table.new
        ≡ with_rows table.old (misassigned op at place.now value.now.ty)) }
{
    note_misassigned(at, op, place, &value.ty, &mut table.rows)?;
    Ok(goes_on(assigned(op, place, &value.ty)))
}

fn is_condition(ty: &Option<Ty>) -> bool
    ensures { result ≡ is_condition ty.now }
{
    match ty {
        None => false,
        Some(ty) => is_bool(ty),
    }
}

/// Whether an expression is a condition. Notes one that has another type.
pub fn condition(cond: &Known, table: &mut Table) -> Result<bool, AllocError>
    ensures is { IfOk result (λ is. is ≡ is_condition cond.now.ty) }
    ensures noted { OnOk result (table.new ≡ with_rows table.old
        (ill_if (is_some cond.now.ty && not (is_condition cond.now.ty)) cond.now.key 402)) }
{
    let is = is_condition(&cond.ty);
    table
        .rows
        .note_ill(cond.ty.is_some() && !is, cond.key, TYPES)?;
    Ok(is)
}

/// A `break`.
pub fn break_out(inside: Inside, at: u32, table: &mut Table) -> Result<Went, AllocError>
    ensures went { IfOk result (λ went. went
        ≡ went_of (break_left inside (state_of table.old) at)) }
    ensures left { OnOk result (table.new
        ≡ after table.old (break_left inside (state_of table.old) at)) }
{
    table.rows.note_ill(!inside.leaves, at, NOTHING_AROUND)?;
    Ok(Went {
        fine: inside.leaves,
        ends: false,
        breaks: true,
    })
}

/// A `continue`.
pub fn continue_on(inside: Inside, at: u32, table: &mut Table) -> Result<Went, AllocError>
    ensures went { IfOk result (λ went. went
        ≡ went_of (continue_left inside (state_of table.old) at)) }
    ensures left { OnOk result (table.new
        ≡ after table.old (continue_left inside (state_of table.old) at)) }
{
    table.rows.note_ill(!inside.loops, at, NOTHING_AROUND)?;
    Ok(goes_on(inside.loops))
}

/// Whether a `return` without a value fits.
fn takes_bare(returned: &Returned) -> bool
    ensures { result ≡ takes_bare returned.now }
{
    match returned {
        Returned::Wants(ty) | Returned::Gives(Some(ty)) => is_unit(ty),
        Returned::Open(_) | Returned::Gives(None) => true,
    }
}

/// Keeps the place of a `return` without a value, as long as the result isn't known.
fn add_bare(at: u32, returned: &mut Returned) -> Result<(), AllocError>
    ensures { OnOk result (returned.new ≡ with_bare at returned.old) }
{
    match returned {
        Returned::Open(places) => places.push(at),
        Returned::Wants(_) | Returned::Gives(_) => Ok(()),
    }
}

/// A `return` without a value.
pub fn return_void(at: u32, table: &mut Table) -> Result<Went, AllocError>
    ensures went { IfOk result (λ went. went
        ≡ went_of (return_void table.old.returned (state_of table.old) at)) }
    ensures left { OnOk result (table.new
        ≡ after table.old (return_void table.old.returned (state_of table.old) at)) }
{
    let takes = takes_bare(&table.returned);
    table.rows.note_ill(!takes, at, TYPES)?;
    add_bare(at, &mut table.returned)?;
    Ok(ended(takes))
}

/// Whether these places are none or the type is `Void`, if there is one.
fn no_bare(places: &[u32], ty: &Option<Ty>) -> bool
    ensures { result ≡ no_bare places.now ty.now }
{
    match ty {
        None => false,
        Some(ty) => places.is_empty() || is_unit(ty),
    }
}

/// Whether a `return` of a value of this type, if it has one, fits, and all before it.
fn takes_value(ty: &Option<Ty>, returned: &Returned) -> bool
    ensures { result ≡ takes_value ty.now returned.now }
{
    match returned {
        Returned::Wants(wanted) | Returned::Gives(Some(wanted)) => is_accepted(ty, wanted),
        Returned::Open(places) => no_bare(places.as_slice(), ty),
        Returned::Gives(None) => ty.is_some(),
    }
}

/// Notes that each `return` at these places has no value.
fn note_places(places: &[u32], rows: &mut Rows) -> Result<(), AllocError>
    ensures { OnOk result (rows.new ≡ rows.old ++ map (λ at. Ill at 402 None) places.now) }
{
    for at in places {
        rows.note_ill(true, *at, TYPES)?;
    }
    Ok(())
}

/// Notes each `return` without a value at these places, where the result is of another type than
/// `Void`.
fn note_bare(places: &[u32], ty: &Option<Ty>, rows: &mut Rows) -> Result<(), AllocError>
    ensures { OnOk result (rows.new ≡ rows.old ++ bare_rows places.now ty.now) }
{
    match ty {
        None => Ok(()),
        Some(ty) => {
            if is_unit(ty) {
                Ok(())
            } else {
                note_places(places, rows)
            }
        }
    }
}

/// Notes a `return` of a value of this type, if it has one.
fn note_value(
    at: u32,
    ty: &Option<Ty>,
    returned: &Returned,
    rows: &mut Rows,
) -> Result<(), AllocError>
    ensures { OnOk result (rows.new ≡ rows.old ++ value_rows at ty.now returned.now) }
{
    match returned {
        Returned::Wants(wanted) | Returned::Gives(Some(wanted)) => {
            rows.note_refused(at, ty, wanted)
        }
        Returned::Open(places) => note_bare(places.as_slice(), ty, rows),
        Returned::Gives(None) => Ok(()),
    }
}

/// The result that isn't written is the type of the first value.
fn add_value(ty: Option<Ty>, returned: &mut Returned)
    ensures { returned.new ≡ with_value ty returned.old }
{
    match returned {
        Returned::Open(_) => *returned = Returned::Gives(ty),
        Returned::Wants(_) | Returned::Gives(_) => {}
    }
}

/// A `return` of a value that was judged since the table had `start` rows.
#[tactic(auto, using(crate::proofs::TableLemmas::returned_value))]
pub fn return_value(
    start: usize,
    at: u32,
    value: Known,
    table: &mut Table,
) -> Result<Went, AllocError>
    ensures went { IfOk result (λ went. went ≡ went_of
        (return_value table.old.returned (state_of table.old) at
        (judged_since value start table.old))) }
    ensures left { OnOk result (table.new ≡ after (cut start table.old)
        (return_value table.old.returned (state_of table.old) at
        (judged_since value start table.old))) }
{
    let takes = takes_value(&value.ty, &table.returned);
    note_value(at, &value.ty, &table.returned, &mut table.rows)?;
    add_value(value.ty, &mut table.returned);
    Ok(ended(takes))
}

/// Whether the one expression of a body is its result.
fn takes_plain(returned: &Returned) -> bool
    ensures { result ≡ takes_plain returned.now }
{
    match returned {
        Returned::Wants(ty) => !is_unit(ty),
        Returned::Open(_) => true,
        Returned::Gives(_) => false,
    }
}

/// An expression as a statement, which was judged since the table had `start` rows.
pub fn plain(start: usize, only: bool, value: Known, table: &mut Table) -> Result<Went, AllocError>
    ensures went { IfOk result (λ went. went ≡ went_of
        (plain_left only (state_of table.old) (judged_since value start table.old))) }
    ensures left { OnOk result (table.new ≡ after (cut start table.old)
        (plain_left only (state_of table.old) (judged_since value start table.old))) }
{
    if only && takes_plain(&table.returned) {
        let at = value.key;
        return_value(start, at, value, table)
    } else {
        Ok(goes_on(value.ty.is_some()))
    }
}

/// Whether a `@Sendable` function is expected of a value that is returned.
pub fn marked_result(returned: &Returned) -> bool
    ensures { result ≡ marked_result returned.now }
{
    match returned {
        Returned::Wants(ty) => is_marked(ty),
        Returned::Open(_) => false,
        Returned::Gives(ty) => marked_type(ty),
    }
}

/// Whether a `@Sendable` function is expected of an expression as a statement.
pub fn expects(only: bool, table: &Table) -> bool
    ensures { result ≡ expects only (state_of table.now) }
{
    only && marked_result(&table.returned)
}
