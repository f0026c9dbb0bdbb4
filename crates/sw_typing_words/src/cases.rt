//! What statements look up: the cases of an enum, and written types.
ghost use Rattle.std.specs.Prelude.{◌≡◌, IfOk};
ghost use Rattle.std.specs.Option.{option_copied};
ghost use Rattle.sw_typing_rules.specs.Statements.{cases_of, cases_of_shape, written};
ghost use Rattle.sw_typing_rules.specs.Worlds.{world_of};

use std::alloc::{AllocError, Global};
use sw_decl_words::type_of;
use sw_decls::Decls;
use sw_tree::TypeTree;
use sw_types::{CaseList, Shape, ShapeKind, Ty};

/// The cases of a shape, where it is an enum.
fn cases_of_shape(shape: Option<&Shape>) -> Option<&CaseList>
    ensures { option_copied result ≡ cases_of_shape (option_copied shape.entry) }
{
    match shape {
        None => None,
        Some(shape) => match shape.kind {
            ShapeKind::Enum => Some(&shape.cases),
            ShapeKind::Struct | ShapeKind::Class | ShapeKind::Actor => None,
        },
    }
}

/// The cases of the subject of a `switch` with this type, where it is an enum.
pub fn cases_of<'a>(world: &'a Decls, ty: &Option<Ty>) -> Option<&'a CaseList>
    ensures { option_copied result ≡ cases_of (world_of world.now) ty.now }
{
    match ty {
        Some(Ty::Named(shape)) => cases_of_shape(world.shapes.list().get(*shape as usize)),
        Some(Ty::Int | Ty::Bool | Ty::Unit | Ty::Func { .. } | Ty::Task(_)) | None => None,
    }
}

/// The type that a written type means, if one is written.
pub fn written(
    alloc: Global,
    world: &Decls,
    ty: &Option<TypeTree>,
) -> Result<Option<Ty>, AllocError>
    ensures { IfOk result (λ made. made ≡ written (world_of world.now) ty.now) }
{
    match ty {
        None => Ok(None),
        Some(tree) => Ok(Some(type_of(alloc, &world.words, tree)?)),
    }
}
