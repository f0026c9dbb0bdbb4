//! Copies of written types.

ghost use Rattle.std.specs.Prelude.{◌≡◌, IfOk};
ghost use Rattle.sw_tree.specs.declared.type_tree.TypeTree.TheVariants as types;

use std::alloc::{AllocError, Global};
use sw_list::{Boxed, ListOf};
use sw_tree::{Name, TypeTree, TypeTreeList};

/// A copy of a written type.
#[cycle(types)]
pub fn copied_type(alloc: Global, tree: &TypeTree) -> Result<TypeTree, AllocError>
    ensures { IfOk result (λ made. made ≡ tree.now) }
{
    match tree {
        TypeTree::Named { name } => Ok(TypeTree::Named { name: *name }),
        TypeTree::Unit { at } => Ok(TypeTree::Unit { at: *at }),
        TypeTree::Arrow {
            at,
            mark,
            params,
            result: answer,
        } => {
            let params = copied_types(alloc, params.as_slice())?;
            let answer = copied_type(alloc, answer.get())?;
            arrow(alloc, *at, *mark, params, answer)
        }
        TypeTree::TaskOf { at, inner } => {
            let inner = copied_type(alloc, inner.get())?;
            Ok(TypeTree::TaskOf {
                at: *at,
                inner: Boxed::new(alloc, inner)?,
            })
        }
    }
}

/// Copies of written types.
#[cycle(types)]
fn copied_types(alloc: Global, trees: &[TypeTree]) -> Result<TypeTreeList, AllocError>
    ensures { IfOk result (λ made. made ≡ trees.now) }
{
    let mut made = ListOf::new(alloc);
    for tree in trees {
        made.push(copied_type(alloc, tree)?)?;
    }
    Ok(made)
}

/// A function type of these parts.
fn arrow(
    alloc: Global,
    at: u32,
    mark: Option<Name>,
    params: TypeTreeList,
    answer: TypeTree,
) -> Result<TypeTree, AllocError>
    ensures { IfOk result (λ made. made ≡ types.Arrow at mark params answer) }
{
    Ok(TypeTree::Arrow {
        at,
        mark,
        params,
        result: Boxed::new(alloc, answer)?,
    })
}
