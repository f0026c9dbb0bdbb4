//! What is said of shapes in the order of what they hold: which are Sendable, and how many parts
//! their values have.
ghost use Rattle.std.specs.Prelude.{◌≡◌, ◌+◌, ℕ, ◌<◌, false, length, map, flat_map, min};
ghost use Rattle.std.specs.Prelude.{slice_index_or, IfOk};
ghost use Rattle.std.specs.List.{list_all};
ghost use Rattle.sw_types.specs.Held.{edges_of};
ghost use Rattle.sw_types.specs.Parts.{largest_case, parts_at, parts_together, shape_parts};
ghost use Rattle.sw_types.specs.Parts.{type_parts};
ghost use Rattle.sw_types.specs.Paths.{IsOrder};
ghost use Rattle.sw_types.specs.Sendable.{sends_at, shape_sends, type_sends};
ghost use Rattle.sw_types.specs.declared.shape.CaseShape.{CaseShape};
ghost use Rattle.sw_types.specs.declared.shape.Part.{Part};

use crate::ordering::no_marks;
use crate::shape::{CaseShape, Part, Shape, ShapeKind};
use crate::ty::Ty;
use std::alloc::{AllocError, Global};
use sw_list::ListOf;

/// Counts of parts end here: a value may have one part less.
const TOO_MANY: u32 = 65;

/// Whether values of the type are Sendable, by which declared types are.
pub fn type_sends(ty: &Ty, named: &[bool]) -> bool
    ensures { result ≡ type_sends (λ k. slice_index_or named.now k false) ty.now }
{
    match ty {
        Ty::Int | Ty::Bool | Ty::Unit | Ty::Task(_) => true,
        Ty::Func { sendable, .. } => *sendable,
        Ty::Named(shape) => named.get(*shape as usize).copied().unwrap_or(false),
    }
}

/// Whether all types are Sendable.
fn types_send(types: &[Ty], named: &[bool]) -> bool
    ensures { result ≡ list_all (type_sends (λ k. slice_index_or named.now k false)) types.now }
{
    let mut all = true;
    for ty in types {
        all = all && type_sends(ty, named);
    }
    all
}

/// Whether the types of all parts are Sendable.
fn parts_send(parts: &[Part], named: &[bool]) -> bool
    ensures { result ≡ list_all (type_sends (λ k. slice_index_or named.now k false))
        (map (λ (part : Part). part.ty) parts.now) }
{
    let mut all = true;
    for part in parts {
        all = all && type_sends(&part.ty, named);
    }
    all
}

/// Whether the types of all payloads are Sendable.
fn cases_send(cases: &[CaseShape], named: &[bool]) -> bool
    ensures { result ≡ list_all (type_sends (λ k. slice_index_or named.now k false))
        (flat_map (λ (one : CaseShape). one.payload) cases.now) }
{
    let mut all = true;
    for case in cases {
        all = all && types_send(case.payload.as_slice(), named);
    }
    all
}

/// Whether values of the shape are Sendable, by which declared types are.
fn shape_sends(shape: &Shape, named: &[bool]) -> bool
    ensures { result ≡ shape_sends (λ k. slice_index_or named.now k false) shape.now }
{
    match shape.kind {
        ShapeKind::Actor => true,
        ShapeKind::Class => shape.conforms || shape.actor.is_some(),
        ShapeKind::Struct | ShapeKind::Enum => {
            shape.conforms
                || parts_send(shape.parts.as_slice(), named)
                    && cases_send(shape.cases.as_slice(), named)
        }
    }
}

/// A sum of parts, which ends at 65.
fn add(total: u32, more: u32) -> u32
    ensures { result ≡ min 65 (total + more) }
{
    total.saturating_add(more).min(TOO_MANY)
}

/// How many parts a value of the type has, by how many those of declared types have.
pub fn type_parts(ty: &Ty, named: &[u32]) -> u32
    ensures { result ≡ type_parts (λ k. slice_index_or named.now k 0) ty.now }
{
    match ty {
        Ty::Unit => 0,
        Ty::Int | Ty::Bool | Ty::Func { .. } | Ty::Task(_) => 1,
        Ty::Named(shape) => named.get(*shape as usize).copied().unwrap_or(0),
    }
}

/// How many parts values of the types have together.
fn types_parts(types: &[Ty], named: &[u32]) -> u32
    ensures { result ≡ parts_together (λ k. slice_index_or named.now k 0) types.now }
{
    let mut total = 0;
    for ty in types {
        total = add(total, type_parts(ty, named));
    }
    total
}

/// How many parts the stored properties have together.
pub fn properties_parts(parts: &[Part], named: &[u32]) -> u32
    ensures { result ≡ parts_together (λ k. slice_index_or named.now k 0)
        (map (λ (part : Part). part.ty) parts.now) }
{
    let mut total = 0;
    for part in parts {
        total = add(total, type_parts(&part.ty, named));
    }
    total
}

/// How many parts the payload of the largest case has.
fn largest_case(cases: &[CaseShape], named: &[u32]) -> u32
    ensures { result ≡ largest_case (λ k. slice_index_or named.now k 0) cases.now }
{
    let mut most = 0u32;
    for case in cases {
        most = most.max(types_parts(case.payload.as_slice(), named));
    }
    most
}

/// How many parts a value of the shape has, by how many those of declared types have.
fn shape_parts(shape: &Shape, named: &[u32]) -> u32
    ensures { result ≡ shape_parts (λ k. slice_index_or named.now k 0) shape.now }
{
    match shape.kind {
        ShapeKind::Class | ShapeKind::Actor => 1,
        ShapeKind::Struct => properties_parts(shape.parts.as_slice(), named),
        ShapeKind::Enum => add(1, largest_case(shape.cases.as_slice(), named)),
    }
}

/// Which shapes are Sendable, by number, where the order has each after those that it holds.
pub fn sends_table(
    alloc: Global,
    shapes: &[Shape],
    order: &[u32],
) -> Result<ListOf<bool>, AllocError>
    requires { IsOrder (edges_of shapes.now) order.now }
    ensures { IfOk result (λ table. (k : ℕ)
        → slice_index_or table k false ≡ sends_at shapes.now k) }
{
    let mut table = no_marks(alloc, shapes.len())?;
    for number in order {
        let at = *number as usize;
        let sends = shape_sends(&shapes[at], table.as_slice());
        table.set(at, sends);
    }
    Ok(table)
}

/// How many parts values of the shapes have, by number, where the order has each shape after
/// those that it holds.
pub fn parts_table(
    alloc: Global,
    shapes: &[Shape],
    order: &[u32],
) -> Result<ListOf<u32>, AllocError>
    requires { IsOrder (edges_of shapes.now) order.now }
    ensures { IfOk result (λ table. (k : ℕ) → slice_index_or table k 0 ≡ parts_at shapes.now k) }
{
    let mut table = ListOf::from_vec(vec![in alloc; 0u32; shapes.len()]?);
    for number in order {
        let at = *number as usize;
        let parts = shape_parts(&shapes[at], table.as_slice());
        table.set(at, parts);
    }
    Ok(table)
}
