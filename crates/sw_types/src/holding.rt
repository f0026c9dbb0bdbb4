ghost use Rattle.std.specs.Prelude.{◌≡◌, ◌++◌, IfOk, OnOk, map, flat_map};
ghost use Rattle.sw_types.specs.Held.{edges_of, held_by, is_value, named_by};
ghost use Rattle.sw_types.specs.declared.shape.CaseShape.{CaseShape};
ghost use Rattle.sw_types.specs.declared.shape.Part.{Part};

use crate::shape::{CaseShape, Part, Shape, ShapeKind};
use crate::ty::Ty;
use std::alloc::{AllocError, Global};
use sw_list::ListOf;

/// Whether it is a struct or an enum, whose values are copied.
fn is_value(kind: ShapeKind) -> bool
    ensures { result ≡ is_value kind }
{
    match kind {
        ShapeKind::Struct | ShapeKind::Enum => true,
        ShapeKind::Class | ShapeKind::Actor => false,
    }
}

/// Adds the declared type that a type is.
fn add_named(held: &mut ListOf<u32>, ty: &Ty) -> Result<(), AllocError>
    ensures { OnOk result (held.new ≡ held.old ++ named_by ty.now) }
{
    match ty {
        Ty::Named(shape) => held.push(*shape),
        Ty::Int | Ty::Bool | Ty::Unit | Ty::Func { .. } | Ty::Task(_) => Ok(()),
    }
}

/// Adds the declared types among the types.
fn add_types(held: &mut ListOf<u32>, types: &[Ty]) -> Result<(), AllocError>
    ensures { OnOk result (held.new ≡ held.old ++ flat_map named_by types.now) }
{
    for ty in types {
        add_named(held, ty)?;
    }
    Ok(())
}

/// Adds the declared types among those of the parts.
fn add_parts(held: &mut ListOf<u32>, parts: &[Part]) -> Result<(), AllocError>
    ensures { OnOk result (held.new
        ≡ held.old ++ flat_map named_by (map (λ (part : Part). part.ty) parts.now)) }
{
    for part in parts {
        add_named(held, &part.ty)?;
    }
    Ok(())
}

/// Adds the declared types among those of the payloads.
fn add_cases(held: &mut ListOf<u32>, cases: &[CaseShape]) -> Result<(), AllocError>
    ensures { OnOk result (held.new
        ≡ held.old ++ flat_map named_by (flat_map (λ (one : CaseShape). one.payload) cases.now)) }
{
    for case in cases {
        add_types(held, case.payload.as_slice())?;
    }
    Ok(())
}

/// The declared types that are part of a value of the shape.
fn held_by(alloc: Global, shape: &Shape) -> Result<ListOf<u32>, AllocError>
    ensures { IfOk result (λ held. held ≡ held_by shape.now) }
{
    let mut held = ListOf::new(alloc);
    if is_value(shape.kind) {
        add_parts(&mut held, shape.parts.as_slice())?;
        add_cases(&mut held, shape.cases.as_slice())?;
    }
    Ok(held)
}

/// What each shape holds.
pub fn edges_of(alloc: Global, shapes: &[Shape]) -> Result<ListOf<ListOf<u32>>, AllocError>
    ensures { IfOk result (λ edges. edges ≡ edges_of shapes.now) }
{
    let mut edges = ListOf::new(alloc);
    for shape in shapes {
        edges.push(held_by(alloc, shape)?)?;
    }
    Ok(edges)
}
