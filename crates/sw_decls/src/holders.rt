//! Structs and enums that hold themselves.
ghost use Rattle.std.specs.Prelude.{◌≡◌, ◌++◌, false, slice_index_or, OnOk};
ghost use Rattle.sw_decls.specs.Holders.{holders};

use std::alloc::AllocError;
use sw_decl_words::Placed;
use sw_list::ListOf;
use sw_types::Shape;

/// Whether the shape with this number is marked.
pub fn is_marked(marks: &[bool], number: usize) -> bool
    ensures { result ≡ slice_index_or marks.now number false }
{
    marks.get(number).copied().unwrap_or(false)
}

/// Adds the words of the shapes that are marked.
pub fn add_holders(
    shapes: &[Shape],
    marks: &[bool],
    found: &mut ListOf<Placed>,
) -> Result<(), AllocError>
    ensures { OnOk result (found.new ≡ found.old ++ holders shapes.now marks.now) }
{
    for (number, shape) in shapes.iter().enumerate() {
        if is_marked(marks, number) {
            found.push(Placed {
                at: shape.at,
                code: 303,
            })?;
        }
    }
    Ok(())
}
