//! The statements of `async let`.

ghost use Rattle.std.specs.Prelude.{◌≡◌, ◌<◌, ◌∷◌, map, IfOk};
ghost use Rattle.sw_sugar.specs.AsyncLet.{async_let_stmts, task_bind, task_body};
ghost use Rattle.sw_sugar.specs.Rewritten.{rewritten};

use crate::nodes::awaited;
use crate::rewritten::stmt;
use std::alloc::{AllocError, Global};
use sw_list::{Boxed, ListOf};
use sw_tree::{Block, Closure, Expr, Name, Stmt, StmtList};

/// The body of the task that a value is awaited in.
fn task_body(alloc: Global, eq_at: u32, await_at: u32, value: Expr) -> Result<Closure, AllocError>
    ensures { IfOk result (λ closure. closure ≡ task_body eq_at await_at value) }
{
    let value = awaited(alloc, await_at, value)?;
    Ok(Closure {
        at: eq_at,
        mark: None,
        captures: ListOf::new(alloc),
        params: ListOf::new(alloc),
        result: None,
        body: Block {
            stmts: ListOf::one(alloc, Stmt::Plain(value))?,
        },
    })
}

/// The variable that stands for the task of `async let name = value`. `at` is where its `async`
/// stands, `eq_at` where its `=` does.
pub fn task_bind(
    alloc: Global,
    at: u32,
    name: Name,
    eq_at: u32,
    value: Expr,
) -> Result<Stmt, AllocError>
    requires { at < 4294967295 }
    ensures { IfOk result (λ stmt. stmt ≡ task_bind at name eq_at value) }
{
    let body = Boxed::new(alloc, task_body(alloc, eq_at, at + 1, value)?)?;
    Ok(Stmt::Bind {
        mutable: false,
        name,
        ty: None,
        value: Expr::Spawn {
            at,
            detached: true,
            body,
        },
    })
}

/// A statement, and those after it as `await`s of the word await its task.
fn with_rest(alloc: Global, word: u32, first: Stmt, rest: StmtList) -> Result<StmtList, AllocError>
    ensures { IfOk result (λ stmts. stmts ≡ first ∷ map (rewritten word) rest) }
{
    let mut stmts = ListOf::one(alloc, first)?;
    for tree in rest.into_vec() {
        stmts.push(stmt(alloc, word, tree)?)?;
    }
    Ok(stmts)
}

/// `async let name = value` with the statements after it. `at` is where its `async` stands, `eq_at`
/// where its `=` does.
pub fn async_let_stmts(
    alloc: Global,
    at: u32,
    name: Name,
    eq_at: u32,
    value: Expr,
    rest: StmtList,
) -> Result<StmtList, AllocError>
    requires { at < 4294967295 }
    ensures { IfOk result (λ stmts. stmts ≡ async_let_stmts at name eq_at value rest) }
{
    let task = task_bind(alloc, at, name, eq_at, value)?;
    with_rest(alloc, name.id, task, rest)
}
