ghost use Rattle.std.specs.Prelude.{◌≡◌, ◌↔◌, ℕ, ◌<◌, ◌≤◌, ◌^◌, true, false, length, nat_lt, IfOk};
ghost use Rattle.std.specs.Prelude.{IfSome, IfNone};
ghost use Rattle.std.specs.Prelude.{slice_index_or};
ghost use Rattle.sw_types.specs.Cycles.{HoldsItself, place_of};
ghost use Rattle.sw_types.specs.Held.{AreWithin};

use crate::holding::edges_of;
use crate::ordering::{Sorting, sorting_of};
use crate::shape::{Shape, ShapeList};
use crate::tables::{parts_table, properties_parts, sends_table, type_parts, type_sends};
use crate::ty::Ty;
use std::alloc::{AllocError, Global};
use std::marker::Model;
use sw_list::ListOf;
use thiserror::Error;

/// Why shapes were refused.
#[derive(Clone, Copy, Debug, PartialEq, Eq, Error)]
pub enum ShapeFault {
    /// A struct or enum holds itself through structs and enums; of all such the one whose word
    /// stands first.
    #[error("shape {shape} holds itself")]
    Cycle { shape: u32 },
    #[error("out of memory")]
    Memory,
}

impl From<AllocError> for ShapeFault {
    ghost use Rattle.std.specs.Prelude.{◌≡◌};
    ghost use Rattle.sw_types.specs.declared.shapes.ShapeFault.{ShapeFault};

    ghost from_gives = { λ _ fault. fault ≡ ShapeFault.Memory };

    fn from(_error: AllocError) -> ShapeFault {
        ShapeFault::Memory
    }
}

/// The shapes of a program, checked: no struct or enum holds itself. Contracts see them as their
/// list, by number.
#[derive(Debug, Drop)]
pub struct Shapes {
    list: ShapeList,
    /// Which shapes are Sendable.
    sends: ListOf<bool>,
    /// How many parts values of the shapes have.
    parts: ListOf<u32>,
}

impl Model for Shapes {
    ghost use Rattle.std.specs.Prelude.{◌≡◌, ℕ, List, false, slice_index_or};
    ghost use Rattle.std.specs.Coded.{coded_list};
    ghost use Rattle.sw_types.specs.Held.{AreWithin, edges_of};
    ghost use Rattle.sw_types.specs.Parts.{parts_at};
    ghost use Rattle.sw_types.specs.Paths.{AreRanked};
    ghost use Rattle.sw_types.specs.Sendable.{sends_at};
    ghost use Rattle.sw_types.specs.declared.shape.Shape.{Shape};
    ghost use Rattle.sw_types.specs.contracts.shape.Shape as shape;

    ghost Value = { List Shape };

    ghost coded = { coded_list shape.the_row.coded };

    ghost view = { λ s. s.list };

    ghost invariant = { λ s. AreWithin s.list × AreRanked (edges_of s.list)
        × ((k : ℕ) → slice_index_or s.sends k false ≡ sends_at s.list k)
        × ((k : ℕ) → slice_index_or s.parts k 0 ≡ parts_at s.list k) };
}

impl Shapes {
    ghost use Rattle.std.specs.Prelude.{◌≡◌, ◌<◌, ◌^◌, Some, length, IsTrue, IfOk, IfErr, OnOk};
    ghost use Rattle.std.specs.Prelude.{slice_get};
    ghost use Rattle.std.specs.Prelude.{slice_index_or};
    ghost use Rattle.sw_types.specs.Cycles.{IsShapeFault};
    ghost use Rattle.sw_types.specs.Held.{AreWithin, edges_of};
    ghost use Rattle.sw_types.specs.Named.{is_within};
    ghost use Rattle.sw_types.specs.Parts.{object_parts, parts_of};
    ghost use Rattle.sw_types.specs.Paths.{AreRanked, IsOrder};
    ghost use Rattle.sw_types.specs.Sendable.{is_sendable};

    /// Checks the shapes of a program, by number, in a time that is linear in what they hold. A
    /// refusal drops the list.
    pub fn new(alloc: Global, list: ShapeList) -> Result<Shapes, ShapeFault>
        requires small { length list < 2 ^ 32 }
        requires in_range { AreWithin list }
        ensures shapes { IfOk result (λ shapes. shapes ≡ list) }
        ensures ranked { OnOk result (AreRanked (edges_of list)) }
        ensures refused { IfErr result (IsShapeFault list) }
    {
        let edges = edges_of(alloc, list.as_slice())?;
        let Sorting { order, returns } = sorting_of(alloc, edges.as_slice())?;
        match some_marked(returns.as_slice()) {
            Some(number) => {
                let shape = first_marked(list.as_slice(), returns.as_slice(), number);
                Err(ShapeFault::Cycle { shape })
            }
            None => Ok(Shapes::in_order(alloc, list, order.as_slice())?),
        }
    }

    /// Shapes with an order of them.
    fn in_order(alloc: Global, list: ShapeList, order: &[u32]) -> Result<Shapes, AllocError>
        requires in_range { AreWithin list }
        requires order { IsOrder (edges_of list) order.now }
        ensures { IfOk result (λ shapes. shapes ≡ list) }
    {
        let sends = sends_table(alloc, list.as_slice(), order)?;
        let parts = parts_table(alloc, list.as_slice(), order)?;
        Ok(Shapes { list, sends, parts })
    }

    /// Lends the shapes by number.
    pub fn list(&self) -> &ShapeList
        ensures value { result.now ≡ self.now }
        ensures in_range { AreWithin result.now }
        ensures ranked { AreRanked (edges_of result.now) }
    {
        &self.list
    }

    /// Whether values of the type may cross between isolations.
    pub fn is_sendable(&self, ty: &Ty) -> bool
        requires in_range { IsTrue (is_within (length self.now) ty.now) }
        ensures { result ≡ is_sendable self.now ty.now }
    {
        type_sends(ty, self.sends.as_slice())
    }

    /// How many parts a value of the type has, at most 65: an object counts as one, since its
    /// value is a reference.
    pub fn parts(&self, ty: &Ty) -> u32
        requires in_range { IsTrue (is_within (length self.now) ty.now) }
        ensures { result ≡ parts_of self.now ty.now }
    {
        type_parts(ty, self.parts.as_slice())
    }

    /// How many parts an object of the class or actor with this number has, at most 65.
    pub fn object_parts(&self, shape: u32) -> u32
        requires { shape < length self.now }
        ensures { (value : Shape) → slice_get self.now shape ≡ Some value
            → result ≡ object_parts self.now value }
    {
        let shape = self.list.at(shape as usize);
        properties_parts(shape.parts.as_slice(), self.parts.as_slice())
    }
}

/// Which structs and enums hold themselves through structs and enums, by number, in a time that is
/// linear in what the shapes hold.
pub fn which_hold_themselves(alloc: Global, shapes: &[Shape]) -> Result<ListOf<bool>, AllocError>
    requires small { length shapes.now < 2 ^ 32 }
    requires in_range { AreWithin shapes.now }
    ensures { IfOk result (λ marks. (k : ℕ)
        → (slice_index_or marks k false ≡ true) ↔ HoldsItself shapes.now k) }
{
    let edges = edges_of(alloc, shapes)?;
    let Sorting { returns, .. } = sorting_of(alloc, edges.as_slice())?;
    Ok(returns)
}

/// Whether the word of the one shape stands before that of the other.
fn stands_before(shapes: &[Shape], one: u32, other: u32) -> bool
    requires one { one < length shapes.now }
    requires other { other < length shapes.now }
    ensures { result ≡ nat_lt (place_of shapes.now one) (place_of shapes.now other) }
{
    shapes[one as usize].at < shapes[other as usize].at
}

/// The number of a mark, if there is one.
fn some_marked(marks: &[bool]) -> Option<u32>
    requires { length marks.now < 2 ^ 32 }
    ensures none { IfNone result ((k : ℕ) → slice_index_or marks.now k false ≡ false) }
    ensures some { IfSome result (λ number. slice_index_or marks.now number false ≡ true) }
{
    for number in 0..marks.len() as u32 {
        if marks[number as usize] {
            return Some(number);
        }
    }
    None
}

/// Of the marked shapes the one whose word stands first; one of them is `some`.
fn first_marked(shapes: &[Shape], marks: &[bool], some: u32) -> u32
    requires some { slice_index_or marks.now some false ≡ true }
    requires small { length shapes.now < 2 ^ 32 }
    requires sized { length marks.now ≡ length shapes.now }
    ensures marked { slice_index_or marks.now result false ≡ true }
    ensures first { (k : ℕ) → slice_index_or marks.now k false ≡ true
        → place_of shapes.now result ≤ place_of shapes.now k }
{
    let mut first = some;
    for number in 0..shapes.len() as u32 {
        if marks[number as usize] && stands_before(shapes, number, first) {
            first = number;
        }
    }
    first
}
