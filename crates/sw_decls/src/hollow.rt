//! Shapes in which those that hold themselves hold nothing.
ghost use Rattle.std.specs.Prelude.{◌≡◌, ◌<◌, ◌^◌, false, length, slice_index_or, IfOk};
ghost use Rattle.sw_decls.specs.Hollow.{hollow, hollow_if, hollowed};

use crate::holders::is_marked;
use std::alloc::{AllocError, Global};
use sw_list::ListOf;
use sw_types::{Shape, ShapeKind, ShapeList};

/// The shape that stands for one that holds itself.
fn hollow(alloc: Global, shape: Shape) -> Shape
    ensures { result ≡ hollow shape }
{
    Shape {
        kind: ShapeKind::Struct,
        parts: ListOf::new(alloc),
        cases: ListOf::new(alloc),
        ..shape
    }
}

/// The shape, or what stands for it where it holds itself.
fn hollow_if(alloc: Global, holds: bool, shape: Shape) -> Shape
    ensures { result ≡ hollow_if holds shape }
{
    if holds { hollow(alloc, shape) } else { shape }
}

/// The shapes in which the marked ones hold nothing.
#[tactic(auto, using(crate::proofs::HollowLemmas::hollowed_more))]
pub fn hollowed(alloc: Global, marks: &[bool], shapes: ShapeList) -> Result<ShapeList, AllocError>
    ensures { IfOk result (λ made. made ≡ hollowed marks.now shapes) }
{
    let mut made = ListOf::new(alloc);
    for shape in shapes.into_vec() {
        let holds = is_marked(marks, made.len());
        made.push(hollow_if(alloc, holds, shape))?;
    }
    Ok(made)
}
