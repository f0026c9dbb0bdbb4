//! The arms of a `switch`, and its end.
ghost use Rattle.std.specs.Prelude.{◌≡◌, ◌++◌, ◌&&◌, false, drop, map, not, slice_get, IfOk, OnOk};
ghost use Rattle.std.specs.List.{list_all};
ghost use Rattle.std.specs.Option.{option_copied};
ghost use Rattle.sw_typing_rules.specs.Doubts.{bare_in, last_after};
ghost use Rattle.sw_typing_rules.specs.Statements.{arm_payload, arm_vars, case_named, has_arm};
ghost use Rattle.sw_typing_rules.specs.Statements.{heads_fit, pattern_types, pattern_vars};
ghost use Rattle.sw_typing_rules.specs.Statements.{patterns_fit, payload_of, switch_fits};
ghost use Rattle.sw_typing_rules.specs.Statements.{vars_rows};
ghost use Rattle.sw_typing_rules.specs.Verdicts.{all_well, ill_unless};
ghost use Rattle.sw_typing_steps.specs.Steps.{after, cut, went_of, with_rows};
ghost use Rattle.sw_typing_steps.specs.Switches.{head_at, pattern_var, switched};
ghost use Rattle.sw_typing_steps.specs.Variables.{with_variables};

use crate::codes::ARMS;
use crate::declare::declare;
use crate::known::{Known, Went};
use crate::table::Table;
use std::alloc::{AllocError, Global};
use sw_tree::{CaseArm, Pattern};
use sw_types::{CaseList, CaseShape, Ty, TyList};
use sw_typing_rules::Returned;
use sw_typing_words::copy_of;

/// The payload of the case with this name, if there is one.
fn payload_named(cases: &[CaseShape], id: u32) -> Option<&TyList>
    ensures { option_copied result ≡ payload_of (case_named cases.now id) }
{
    for one in cases {
        if one.name == id {
            return Some(&one.payload);
        }
    }
    None
}

/// The payload of the case with this name, if the subject is an enum that has it.
fn arm_payload(cases: Option<&CaseList>, id: u32) -> Option<&TyList>
    ensures { option_copied result ≡ arm_payload (option_copied cases.entry) id }
{
    payload_named(cases?.as_slice(), id)
}

/// Whether there are patterns for none or all of a payload.
fn patterns_fit(patterns: &[Pattern], payload: Option<&TyList>) -> bool
    ensures { result ≡ patterns_fit patterns.now (option_copied payload.entry) }
{
    match payload {
        None => false,
        Some(payload) => patterns.is_empty() || patterns.len() == payload.len(),
    }
}

/// The type of the pattern at an index, if the patterns fit.
fn type_at<'a>(patterns: &[Pattern], payload: Option<&'a TyList>, index: usize) -> Option<&'a Ty>
    ensures { option_copied result
        ≡ slice_get (pattern_types patterns.now (option_copied payload.entry)) index }
{
    let payload = payload?;
    if patterns.len() == payload.len() {
        payload.get(index)
    } else {
        None
    }
}

/// Makes the variable of a pattern visible, if it has one, and notes it.
fn declare_pattern(
    alloc: Global,
    pattern: Pattern,
    ty: Option<&Ty>,
    table: &mut Table,
) -> Result<(), AllocError>
    ensures { OnOk result (table.new
        ≡ with_variables table.old (pattern_var pattern (option_copied ty.entry))) }
{
    match pattern {
        Pattern::Skip { .. } => Ok(()),
        Pattern::Let { name } => {
            let ty = match ty {
                None => None,
                Some(ty) => Some(copy_of(alloc, ty)?),
            };
            declare(alloc, name, false, ty, table)
        }
    }
}

/// Makes the variables of patterns visible, and notes them.
fn declare_all(
    alloc: Global,
    patterns: &[Pattern],
    payload: Option<&TyList>,
    table: &mut Table,
) -> Result<(), AllocError>
    ensures { OnOk result (table.new ≡ with_variables table.old (pattern_vars patterns.now
        (pattern_types patterns.now (option_copied payload.entry)))) }
{
    for (index, pattern) in patterns.iter().enumerate() {
        let ty = type_at(patterns, payload, index);
        declare_pattern(alloc, *pattern, ty, table)?;
    }
    Ok(())
}

/// Makes the variables of an arm's patterns visible, and notes them; whether the patterns fit.
pub fn declare_patterns(
    alloc: Global,
    cases: Option<&CaseList>,
    arm: &CaseArm,
    table: &mut Table,
) -> Result<bool, AllocError>
    ensures fit { IfOk result (λ fit. fit ≡ patterns_fit (head_at arm.now).patterns
        (arm_payload (option_copied cases.entry) (head_at arm.now).name)) }
    ensures vars { OnOk result (table.new ≡ record table.old {
      vars = table.old.vars ++ arm_vars (head_at arm.now)
          (arm_payload (option_copied cases.entry) (head_at arm.now).name);
      rows = table.old.rows ++ vars_rows (arm_vars (head_at arm.now)
          (arm_payload (option_copied cases.entry) (head_at arm.now).name));
    }) }
{
    let payload = arm_payload(cases, arm.name.id);
    let patterns = arm.patterns.as_slice();
    declare_all(alloc, patterns, payload, table)?;
    Ok(patterns_fit(patterns, payload))
}

/// Whether an arm names a case, with patterns for none or all of its payload.
fn head_fits(cases: Option<&CaseList>, arm: &CaseArm) -> bool
    ensures { result ≡ patterns_fit (head_at arm.now).patterns
        (arm_payload (option_copied cases.entry) (head_at arm.now).name) }
{
    patterns_fit(arm.patterns.as_slice(), arm_payload(cases, arm.name.id))
}

/// Whether each arm names a case, with patterns for none or all of its payload.
fn heads_fit(cases: Option<&CaseList>, arms: &[CaseArm]) -> bool
    ensures { result ≡ heads_fit (option_copied cases.entry) (map head_at arms.now) }
{
    for arm in arms {
        if !head_fits(cases, arm) {
            return false;
        }
    }
    true
}

/// Whether an arm names the case.
fn has_arm(arms: &[CaseArm], one: &CaseShape) -> bool
    ensures { result ≡ has_arm (map head_at arms.now) one.now }
{
    for arm in arms {
        if arm.name.id == one.name {
            return true;
        }
    }
    false
}

/// Whether each case has an arm.
fn have_arms(arms: &[CaseArm], cases: &[CaseShape]) -> bool
    ensures { result ≡ list_all (has_arm (map head_at arms.now)) cases.now }
{
    for one in cases {
        if !has_arm(arms, one) {
            return false;
        }
    }
    true
}

/// Whether the subject is an enum whose cases these arms fit.
fn switch_fits(cases: Option<&CaseList>, arms: &[CaseArm], otherwise: bool) -> bool
    ensures { result ≡ switch_fits (option_copied cases.entry) (map head_at arms.now) otherwise }
{
    match cases {
        None => false,
        Some(list) => { heads_fit(cases, arms) && (otherwise || have_arms(arms, list.as_slice())) }
    }
}

/// The last of these keys, if it stands after `at`.
#[tactic(auto, using(crate::proofs::DoubtLemmas::none_after))]
fn last_after(at: u32, places: &[u32]) -> Option<u32>
    ensures { result ≡ last_after at places.now }
{
    match places.last() {
        None => None,
        Some(place) => { if at < *place { Some(*place) } else { None } }
    }
}

/// A `return` without a value in a `switch`, if it may turn out ill.
fn bare_in(at: u32, returned: &Returned) -> Option<u32>
    ensures { result ≡ bare_in at returned.now }
{
    match returned {
        Returned::Open(places) => last_after(at, places.as_slice()),
        Returned::Wants(_) | Returned::Gives(_) => None,
    }
}

/// Notes a `switch` whose subject has a type, whose arms don't fit and in which nothing is ill, by
/// what is noted since there were `start` rows.
fn note_arms(
    start: usize,
    at: u32,
    typed: bool,
    fits: bool,
    table: &mut Table,
) -> Result<(), AllocError>
    ensures { OnOk result (table.new ≡ with_rows table.old
        (ill_unless (typed && (all_well (drop start table.old.rows) && not fits)) at 405
        (bare_in at table.old.returned))) }
{
    let fails = typed && (table.rows.well_since(start) && !fits);
    let bare = bare_in(at, &table.returned);
    table.rows.note_unless(fails, at, ARMS, bare)
}

/// How a `switch` goes, by whether its subject has a type and its arms fit. A `break` leaves it.
fn switch_went(typed: bool, fits: bool, inner: Went) -> Went
    ensures { result ≡ record {
      fine = typed && (inner.fine && fits);
      ends = inner.ends && not inner.breaks;
      breaks = false;
    } }
{
    Went {
        fine: typed && (inner.fine && fits),
        ends: inner.ends && !inner.breaks,
        breaks: false,
    }
}

/// The end of a `switch`, whose subject was judged since the table had `start` rows and whose arms
/// went like `inner`.
pub fn switch_end(
    start: usize,
    at: u32,
    cases: Option<&CaseList>,
    subject: &Known,
    arms: &[CaseArm],
    otherwise: bool,
    inner: Went,
    table: &mut Table,
) -> Result<Went, AllocError>
    ensures went { IfOk result (λ went. went ≡ went_of (switched (option_copied cases.entry)
        start at subject.now arms.now otherwise inner table.old)) }
    ensures left { OnOk result (table.new ≡ after (cut start table.old)
        (switched (option_copied cases.entry) start at subject.now arms.now otherwise inner
        table.old)) }
{
    let fits = switch_fits(cases, arms, otherwise);
    let typed = subject.ty.is_some();
    note_arms(start, at, typed, fits, table)?;
    Ok(switch_went(typed, fits, inner))
}
