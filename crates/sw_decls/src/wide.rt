//! Types with more than 64 parts.
ghost use Rattle.std.specs.Prelude.{◌≡◌, ◌++◌, ◌<◌, ◌^◌, Some, length, slice_get, OnOk};
ghost use Rattle.sw_decls.specs.Wide.{declared_parts, wide};

use std::alloc::AllocError;
use sw_decl_words::Placed;
use sw_list::ListOf;
use sw_types::{Shape, ShapeKind, Shapes, Ty};

/// How many parts a type may have.
const MAX_PARTS: u32 = 64;

/// How many parts the declared type with this number has, at most one more than it may have.
fn declared_parts(shapes: &Shapes, number: u32, shape: &Shape) -> u32
    requires within { number < length shapes.now }
    requires shape { slice_get shapes.now number ≡ Some shape.now }
    ensures { result ≡ declared_parts shapes.now number shape.now }
{
    match shape.kind {
        ShapeKind::Struct | ShapeKind::Enum => shapes.parts(&Ty::Named(number)),
        ShapeKind::Class | ShapeKind::Actor => shapes.object_parts(number),
    }
}

/// Adds the words of the shapes that have more parts than a type may have.
pub fn add_wide(shapes: &Shapes, found: &mut ListOf<Placed>) -> Result<(), AllocError>
    requires { length shapes.now < 2 ^ 32 }
    ensures { OnOk result (found.new ≡ found.old ++ wide shapes.now) }
{
    let list = shapes.list().as_slice();
    for (number, shape) in list.iter().enumerate() {
        if declared_parts(shapes, number as u32, shape) > MAX_PARTS {
            found.push(Placed {
                at: shape.at,
                code: 307,
            })?;
        }
    }
    Ok(())
}
