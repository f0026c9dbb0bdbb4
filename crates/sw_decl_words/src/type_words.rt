//! What written types mean.
ghost use Rattle.std.specs.Prelude.{◌≡◌, ◌++◌, nat_eq, map, IfOk, OnOk};
ghost use Rattle.indexmap.specs.IndexMap.{get};
ghost use Rattle.sw_decl_words.specs.TypeWords.{bad_words, type_meaning, type_of};

use crate::placed::Placed;
use crate::words::{Meaning, Words};
use std::alloc::{AllocError, Global};
use sw_list::{Boxed, ListOf};
use sw_tree::TypeTree;
use sw_types::{Ty, TyList};

/// The ids of the types that each program has before it declares any.
const INT: u32 = 0;

const BOOL: u32 = 1;

const VOID: u32 = 2;

/// The type that a word names, if it names one.
fn type_meaning(words: &Words, id: u32) -> Option<Ty>
    ensures { result ≡ type_meaning (get nat_eq words.now.meanings) id }
{
    match id {
        INT => Some(Ty::Int),
        BOOL => Some(Ty::Bool),
        VOID => Some(Ty::Unit),
        _ => match words.get(id) {
            Some(Meaning::Shape { number, .. }) => Some(Ty::Named(number)),
            Some(Meaning::GlobalActor(_) | Meaning::Func(_) | Meaning::Global(_) | Meaning::Entry)
            | None => None,
        },
    }
}

/// The types that written types mean, in order.
#[cycle(types)]
pub(crate) fn types_of(
    alloc: Global,
    words: &Words,
    trees: &[TypeTree],
) -> Result<TyList, AllocError>
    ensures { IfOk result (λ types. types
        ≡ map (type_of (get nat_eq words.now.meanings)) trees.now) }
{
    let mut types = ListOf::new(alloc);
    for tree in trees {
        types.push(type_of(alloc, words, tree)?)?;
    }
    Ok(types)
}

/// The type that a written type means. A word that names no type stands for `Void`.
#[cycle(types)]
pub fn type_of(alloc: Global, words: &Words, tree: &TypeTree) -> Result<Ty, AllocError>
    ensures { IfOk result (λ ty. ty ≡ type_of (get nat_eq words.now.meanings) tree.now) }
{
    match tree {
        TypeTree::Named { name } => Ok(type_meaning(words, name.id).unwrap_or(Ty::Unit)),
        TypeTree::Unit { .. } => Ok(Ty::Unit),
        TypeTree::Arrow {
            mark,
            params,
            result,
            ..
        } => Ok(Ty::Func {
            sendable: mark.is_some(),
            params: types_of(alloc, words, params.as_slice())?,
            result: Boxed::new(alloc, type_of(alloc, words, result.get())?)?,
        }),
        TypeTree::TaskOf { inner, .. } => {
            Ok(Ty::Task(Boxed::new(alloc, type_of(alloc, words, inner.get())?)?))
        }
    }
}

/// Adds the words of a written type that name no type.
pub fn bad_words(
    words: &Words,
    tree: &TypeTree,
    found: &mut ListOf<Placed>,
) -> Result<(), AllocError>
    ensures { OnOk result (found.new
        ≡ found.old ++ bad_words (get nat_eq words.now.meanings) tree.now) }
{
    match tree {
        TypeTree::Named { name } => {
            if type_meaning(words, name.id).is_none() {
                found.push(Placed {
                    at: name.at,
                    code: 302,
                })?;
            }
        }
        TypeTree::Unit { .. } => {}
        TypeTree::Arrow { params, result, .. } => {
            for param in params.as_slice() {
                bad_words(words, param, found)?;
            }
            bad_words(words, result.get(), found)?;
        }
        TypeTree::TaskOf { inner, .. } => bad_words(words, inner.get(), found)?,
    }
    Ok(())
}
