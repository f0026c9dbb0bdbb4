//! Copies of types, and tests of them.
ghost use Rattle.std.specs.Prelude.{◌≡◌, IfOk};
ghost use Rattle.sw_types.specs.Accepts.{is_marked};
ghost use Rattle.sw_typing_rules.specs.Fits.{fits};
ghost use Rattle.sw_typing_rules.specs.Statements.{marked_type};
ghost use Rattle.sw_typing_rules.specs.Verdicts.{is_accepted, is_bool, is_int, is_unit};

use std::alloc::{AllocError, Global};
use sw_list::{Boxed, ListOf};
use sw_types::{Ty, TyList, accepts};
use sw_typing_rules::types_fit_where_they_are_accepted;

/// Copies of types in order.
#[cycle(copies)]
pub fn copies_of(alloc: Global, types: &[Ty]) -> Result<TyList, AllocError>
    ensures { IfOk result (λ made. made ≡ types.now) }
{
    let mut made = ListOf::new(alloc);
    for ty in types {
        made.push(copy_of(alloc, ty)?)?;
    }
    Ok(made)
}

/// A copy of a type.
#[cycle(copies)]
pub fn copy_of(alloc: Global, ty: &Ty) -> Result<Ty, AllocError>
    ensures { IfOk result (λ made. made ≡ ty.now) }
{
    match ty {
        Ty::Int => Ok(Ty::Int),
        Ty::Bool => Ok(Ty::Bool),
        Ty::Unit => Ok(Ty::Unit),
        Ty::Named(shape) => Ok(Ty::Named(*shape)),
        Ty::Func {
            sendable,
            params,
            result,
        } => Ok(Ty::Func {
            sendable: *sendable,
            params: copies_of(alloc, params.as_slice())?,
            result: Boxed::new(alloc, copy_of(alloc, result.get())?)?,
        }),
        Ty::Task(inner) => Ok(Ty::Task(Boxed::new(alloc, copy_of(alloc, inner.get())?)?)),
    }
}

/// A copy of a type, if there is one.
pub fn copy_if(alloc: Global, ty: &Option<Ty>) -> Result<Option<Ty>, AllocError>
    ensures { IfOk result (λ made. made ≡ ty.now) }
{
    match ty {
        None => Ok(None),
        Some(ty) => Ok(Some(copy_of(alloc, ty)?)),
    }
}

pub fn is_int(ty: &Ty) -> bool
    ensures { result ≡ is_int ty.now }
{
    match ty {
        Ty::Int => true,
        Ty::Bool | Ty::Unit | Ty::Named(_) | Ty::Func { .. } | Ty::Task(_) => false,
    }
}

pub fn is_bool(ty: &Ty) -> bool
    ensures { result ≡ is_bool ty.now }
{
    match ty {
        Ty::Bool => true,
        Ty::Int | Ty::Unit | Ty::Named(_) | Ty::Func { .. } | Ty::Task(_) => false,
    }
}

/// Whether the type is `Void`.
pub fn is_unit(ty: &Ty) -> bool
    ensures { result ≡ is_unit ty.now }
{
    match ty {
        Ty::Unit => true,
        Ty::Int | Ty::Bool | Ty::Named(_) | Ty::Func { .. } | Ty::Task(_) => false,
    }
}

/// Whether the type is a function type with `@Sendable` at its top (SE-0302).
pub fn is_marked(ty: &Ty) -> bool
    ensures { result ≡ is_marked ty.now }
{
    match ty {
        Ty::Func { sendable, .. } => *sendable,
        Ty::Int | Ty::Bool | Ty::Unit | Ty::Named(_) | Ty::Task(_) => false,
    }
}

/// Whether a `@Sendable` function is expected of a value of this type, if it has one.
pub fn marked_type(ty: &Option<Ty>) -> bool
    ensures { result ≡ marked_type ty.now }
{
    match ty {
        None => false,
        Some(ty) => is_marked(ty),
    }
}

/// Whether a value of the type `from` may go where `to` is expected (SE-0302).
pub fn fits(from: &Ty, to: &Ty) -> bool
    ensures { result ≡ fits from.now to.now }
{
    types_fit_where_they_are_accepted();
    accepts(from, to)
}

/// Whether a value of the type `from`, if it has one, may go where `to` is expected.
pub fn is_accepted(from: &Option<Ty>, to: &Ty) -> bool
    ensures { result ≡ is_accepted from.now to.now }
{
    match from {
        None => false,
        Some(from) => fits(from, to),
    }
}
