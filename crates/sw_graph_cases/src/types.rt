//! The texts of types: what `{:?}` prints, except for the parts of a type, which stand bare.

use std::alloc::{AllocError, Global};
use sw_graph::RegKind;
use sw_types::Ty;

/// Types between brackets.
#[cycle(types)]
pub fn types_text(alloc: Global, types: &[Ty]) -> Result<String, AllocError> {
    let mut list = String::new(alloc);
    for ty in types {
        if !list.is_empty() {
            list.push_str(", ")?;
        }
        let ty = type_text(alloc, ty)?;
        list.push_str(ty.as_str())?;
    }
    format!(in alloc; "[{list}]")
}

/// A type, with the types that it is made of.
#[cycle(types)]
pub fn type_text(alloc: Global, ty: &Ty) -> Result<String, AllocError> {
    match ty {
        Ty::Int | Ty::Bool | Ty::Unit | Ty::Named(_) => format!(in alloc; "{ty:?}"),
        Ty::Task(result) => {
            let result = type_text(alloc, result.get())?;
            format!(in alloc; "Task({result})")
        }
        Ty::Func {
            sendable,
            params,
            result,
        } => {
            let params = types_text(alloc, params.as_slice())?;
            let result = type_text(alloc, result.get())?;
            format!(in alloc; "Func {{ sendable: {sendable}, params: {params}, result: {result} }}")
        }
    }
}

/// What a register holds.
pub fn kind_text(alloc: Global, kind: &RegKind) -> Result<String, AllocError> {
    match kind {
        RegKind::Plain(ty) => {
            let ty = type_text(alloc, ty)?;
            format!(in alloc; "Plain({ty})")
        }
        RegKind::BoxOf(ty) => {
            let ty = type_text(alloc, ty)?;
            format!(in alloc; "BoxOf({ty})")
        }
    }
}
