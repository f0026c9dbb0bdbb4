//! What an `await` awaits where a word stands for a task.

#![tactic(auto, using(crate::proofs::TaskForms::forms))]

ghost use Rattle.std.specs.Prelude.{◌≡◌, ℕ, IfOk, IsTrue, not};
ghost use Rattle.sw_sugar.specs.Tasks.{of_task, task_value, used};

use crate::nodes::{chain, member, method, prefix};
use std::alloc::{AllocError, Global};
use sw_tree::{Expr, Name};

/// The id of `value`, which is among the names of each program.
const VALUE: u32 = 8;

/// The value of the task that a word stands for, with the place of the use of the word.
fn task_value(alloc: Global, place: u32, name: Name) -> Result<Expr, AllocError>
    ensures { IfOk result (λ tree. tree ≡ task_value place name) }
{
    let base = Expr::Use {
        name: Name {
            at: place,
            id: name.id,
        },
    };
    let name = Name {
        at: name.at,
        id: VALUE,
    };
    member(alloc, base, name)
}

/// A use of a name in an `await`.
fn used(alloc: Global, tasks: &[u32], place: u32, name: Name) -> Result<Expr, AllocError>
    ensures { IfOk result (λ tree. tree ≡ used tasks.now place name) }
{
    if tasks.contains(&name.id) {
        task_value(alloc, place, name)
    } else {
        Ok(Expr::Use { name })
    }
}

/// Whether an expression stays as it is in an `await`, which it does if its first primary is none of
/// the words that stand for tasks.
fn stays(tasks: &[u32], tree: &Expr) -> bool
    ensures { (place : ℕ) → IsTrue result → of_task tasks.now place tree.now ≡ tree.now }
{
    match tree {
        Expr::Use { name } => !tasks.contains(&name.id),
        Expr::Member { base, .. } => stays(tasks, base.get()),
        Expr::Method { base, .. } => stays(tasks, base.get()),
        Expr::Chain { first, .. } => stays(tasks, first.get()),
        Expr::Prefix { inner, .. } => stays(tasks, inner.get()),
        Expr::Int { .. } => true,
        Expr::Bool { .. } => true,
        Expr::Me { .. } => true,
        Expr::Call { .. } => true,
        Expr::Await { .. } => true,
        Expr::Fun(_) => true,
        Expr::Spawn { .. } => true,
        Expr::Yield { .. } => true,
    }
}

/// An expression in an `await` with its first primary changed.
fn changed(alloc: Global, tasks: &[u32], place: u32, tree: Expr) -> Result<Expr, AllocError>
    ensures { IfOk result (λ made. made ≡ of_task tasks.now place tree) }
{
    match tree {
        Expr::Use { name } => used(alloc, tasks, place, name),
        Expr::Member { base, name } => {
            let base = changed(alloc, tasks, place, base.into_inner())?;
            member(alloc, base, name)
        }
        Expr::Method { base, name, args } => {
            let base = changed(alloc, tasks, place, base.into_inner())?;
            method(alloc, base, name, args)
        }
        Expr::Chain { first, rest } => {
            let first = changed(alloc, tasks, place, first.into_inner())?;
            chain(alloc, first, rest)
        }
        Expr::Prefix { op, at, inner } => {
            let inner = changed(alloc, tasks, place, inner.into_inner())?;
            prefix(alloc, op, at, inner)
        }
        Expr::Int { at, value } => Ok(Expr::Int { at, value }),
        Expr::Bool { at, value } => Ok(Expr::Bool { at, value }),
        Expr::Me { at } => Ok(Expr::Me { at }),
        Expr::Call { name, args } => Ok(Expr::Call { name, args }),
        Expr::Await { at, inner } => Ok(Expr::Await { at, inner }),
        Expr::Fun(closure) => Ok(Expr::Fun(closure)),
        Expr::Spawn { at, detached, body } => Ok(Expr::Spawn { at, detached, body }),
        Expr::Yield { at } => Ok(Expr::Yield { at }),
    }
}

/// What an `await` of an expression awaits, where the words with these ids stand for tasks. `place`
/// is that behind the first byte of the `await`.
pub fn of_task(alloc: Global, tasks: &[u32], place: u32, tree: Expr) -> Result<Expr, AllocError>
    ensures { IfOk result (λ made. made ≡ of_task tasks.now place tree) }
{
    if stays(tasks, &tree) {
        return Ok(tree);
    }
    changed(alloc, tasks, place, tree)
}
