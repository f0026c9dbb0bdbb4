//! What a callee takes, and whether arguments fit.
ghost use Rattle.std.specs.Prelude.{◌≡◌, drop, is_none, slice_get, IfOk};
ghost use Rattle.std.specs.Option.{option_copied, option_map};
ghost use Rattle.std.specs.List.{list_all};
ghost use Rattle.sw_typing_rules.specs.Calls.{Slot, all_typed, call_types, called, labels_fit};
ghost use Rattle.sw_typing_rules.specs.Calls.{print_types, printable_type, same_label, slots_of};
ghost use Rattle.sw_typing_rules.specs.Calls.{types_fit};
ghost use Rattle.sw_typing_rules.specs.Expressions.{first_marked};
ghost use Rattle.sw_typing_rules.specs.Worlds.{world_of};
ghost use Rattle.sw_typing_rules.specs.declared.verdict.Given.{Given};
ghost use Rattle.sw_typing_words.specs.Callees.{as_callee, taken, takes_type, wants_label};

use crate::callee::{Callee, case_at, has_payload};
use crate::codes::{LABELS, NO_MEMBER, NO_VALUE, TYPES};
use crate::types::{copy_of, is_accepted, is_bool, is_int, is_marked};
use std::alloc::{AllocError, Global};
use sw_decls::Decls;
use sw_types::Ty;
use sw_typing_rules::{Given, Verdict};

/// The type that the parameter at an index takes.
fn type_at<'a>(world: &'a Decls, callee: &'a Callee, index: usize) -> Option<&'a Ty>
    ensures { option_copied result ≡ option_map (λ (slot : Slot). slot.ty)
        (slice_get (slots_of (as_callee (world_of world.now) callee.now)) index) }
{
    match callee {
        Callee::Func { number, .. } => { Some(&world.funcs.get(*number)?.params.get(index)?.ty) }
        Callee::Struct(number) => {
            let shape = world.shapes.list().get(*number as usize)?;
            Some(&shape.parts.get(index)?.ty)
        }
        Callee::Case { shape, number } => case_at(world, *shape, *number)?.payload.get(index),
        Callee::Value { params, .. } => params.get(index),
        Callee::Untyped(_) | Callee::Prints | Callee::Uncallable(_) => None,
    }
}

/// The label that the parameter at an index wants, if there is such a parameter.
fn label_at(world: &Decls, callee: &Callee, index: usize) -> Option<Option<u32>>
    ensures { result ≡ option_map (λ (slot : Slot). slot.label)
        (slice_get (slots_of (as_callee (world_of world.now) callee.now)) index) }
{
    match callee {
        Callee::Func { number, .. } => Some(world.funcs.get(*number)?.params.get(index)?.label),
        Callee::Struct(number) => {
            let shape = world.shapes.list().get(*number as usize)?;
            Some(Some(shape.parts.get(index)?.name))
        }
        Callee::Case { shape, number } => {
            let _ = case_at(world, *shape, *number)?.payload.get(index)?;
            Some(None)
        }
        Callee::Value { params, .. } => {
            let _ = params.get(index)?;
            Some(None)
        }
        Callee::Untyped(_) | Callee::Prints | Callee::Uncallable(_) => None,
    }
}

/// Whether a `@Sendable` function is expected of the argument at an index.
#[tactic(auto, using(crate::proofs::SlotLemmas::marked_here))]
pub fn is_marked_at(world: &Decls, callee: &Callee, index: usize) -> bool
    ensures { result ≡ first_marked
        (drop index (slots_of (as_callee (world_of world.now) callee.now))) }
{
    match type_at(world, callee, index) {
        None => false,
        Some(ty) => is_marked(ty),
    }
}

/// Whether two labels are the same.
fn same_label(one: Option<u32>, other: Option<u32>) -> bool
    ensures { result ≡ same_label one other }
{
    match (one, other) {
        (None, None) => true,
        (Some(one), Some(other)) => one == other,
        (None, Some(_)) | (Some(_), None) => false,
    }
}

/// Whether the argument at an index has the label that is wanted there.
fn label_fits(world: &Decls, callee: &Callee, index: usize, label: Option<u32>) -> bool
    ensures { result ≡ wants_label (slice_get
        (slots_of (as_callee (world_of world.now) callee.now)) index) label }
{
    match label_at(world, callee, index) {
        None => false,
        Some(wanted) => same_label(wanted, label),
    }
}

/// Whether there are as many arguments as parameters, with their labels.
#[tactic(auto, using(crate::proofs::SlotLemmas::labels_here, crate::proofs::SlotLemmas::labels_end))]
fn labels_fit(world: &Decls, callee: &Callee, given: &[Given]) -> bool
    ensures { result ≡ labels_fit (slots_of (as_callee (world_of world.now) callee.now)) given.now }
{
    for (index, one) in given.iter().enumerate() {
        if !label_fits(world, callee, index, one.label) {
            return false;
        }
    }
    label_at(world, callee, given.len()).is_none()
}

/// Whether the argument at an index is accepted there.
fn type_fits(world: &Decls, callee: &Callee, index: usize, ty: &Option<Ty>) -> bool
    ensures { result ≡ takes_type (slice_get
        (slots_of (as_callee (world_of world.now) callee.now)) index) ty.now }
{
    match type_at(world, callee, index) {
        None => true,
        Some(wanted) => is_accepted(ty, wanted),
    }
}

/// Whether each argument is accepted by its parameter.
#[tactic(auto, using(crate::proofs::SlotLemmas::types_here, crate::proofs::SlotLemmas::types_end))]
fn types_fit(world: &Decls, callee: &Callee, given: &[Given]) -> bool
    ensures { result ≡ types_fit (slots_of (as_callee (world_of world.now) callee.now)) given.now }
{
    for (index, one) in given.iter().enumerate() {
        if !type_fits(world, callee, index, &one.ty) {
            return false;
        }
    }
    true
}

/// Whether each argument has a type.
fn all_typed(given: &[Given]) -> bool
    ensures { result ≡ all_typed given.now }
{
    for one in given {
        if one.ty.is_none() {
            return false;
        }
    }
    true
}

/// What is said of a call of what gives this type.
fn taken(
    alloc: Global,
    world: &Decls,
    callee: &Callee,
    ty: &Ty,
    given: &[Given],
) -> Result<Verdict, AllocError>
    ensures { IfOk result (λ verdict. verdict ≡ taken
        (slots_of (as_callee (world_of world.now) callee.now)) ty.now given.now) }
{
    if !labels_fit(world, callee, given) {
        return Ok(Verdict::Fails(LABELS));
    }
    if !types_fit(world, callee, given) {
        return Ok(Verdict::Fails(TYPES));
    }
    Ok(Verdict::Has(copy_of(alloc, ty)?))
}

/// Whether each argument is without a label.
fn no_labels(given: &[Given]) -> bool
    ensures { result ≡ list_all (λ (one : Given). is_none one.label) given.now }
{
    for one in given {
        if one.label.is_some() {
            return false;
        }
    }
    true
}

/// Whether a value of this type can be printed.
fn printable_type(ty: &Option<Ty>) -> bool
    ensures { result ≡ printable_type ty.now }
{
    match ty {
        None => false,
        Some(ty) => is_int(ty) || is_bool(ty),
    }
}

/// Whether each argument can be printed.
fn all_printable(given: &[Given]) -> bool
    ensures { result ≡ list_all (λ (one : Given). printable_type one.ty) given.now }
{
    for one in given {
        if !printable_type(&one.ty) {
            return false;
        }
    }
    true
}

/// What is said of a call of `print`.
fn print_types(given: &[Given]) -> Verdict
    ensures { result ≡ print_types given.now }
{
    if given.is_empty() || !no_labels(given) {
        Verdict::Fails(LABELS)
    } else if all_printable(given) {
        Verdict::Has(Ty::Unit)
    } else {
        Verdict::Fails(TYPES)
    }
}

/// What is said of a call whose arguments have types.
fn called(
    alloc: Global,
    world: &Decls,
    callee: &Callee,
    given: &[Given],
) -> Result<Verdict, AllocError>
    ensures { IfOk result (λ verdict. verdict
        ≡ called (as_callee (world_of world.now) callee.now) given.now) }
{
    match callee {
        Callee::Func { number, .. } => match world.funcs.get(*number) {
            None => Ok(Verdict::Fails(NO_VALUE)),
            Some(func) => taken(alloc, world, callee, &func.result, given),
        },
        Callee::Struct(number) => {
            if (*number as usize) < world.shapes.list().len() {
                taken(alloc, world, callee, &Ty::Named(*number), given)
            } else {
                Ok(Verdict::Fails(NO_VALUE))
            }
        }
        Callee::Case { shape, number } => {
            if has_payload(world, *shape, *number) {
                taken(alloc, world, callee, &Ty::Named(*shape), given)
            } else {
                Ok(Verdict::Fails(NO_MEMBER))
            }
        }
        Callee::Value { result, .. } => taken(alloc, world, callee, result, given),
        Callee::Untyped(_) => Ok(Verdict::Held),
        Callee::Prints => Ok(print_types(given)),
        Callee::Uncallable(code) => Ok(Verdict::Fails(*code)),
    }
}

/// What is said of a call with these arguments.
pub fn call_types(
    alloc: Global,
    world: &Decls,
    callee: &Callee,
    given: &[Given],
) -> Result<Verdict, AllocError>
    ensures { IfOk result (λ verdict. verdict
        ≡ call_types (as_callee (world_of world.now) callee.now) given.now) }
{
    if all_typed(given) {
        called(alloc, world, callee, given)
    } else {
        Ok(Verdict::Held)
    }
}
