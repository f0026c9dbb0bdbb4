//! Nodes of trees that hold others, made of their parts.

ghost use Rattle.std.specs.Prelude.{◌≡◌, IfOk};
ghost use Rattle.sw_tree.specs.declared.expr.Expr.TheVariants as exprs;

use std::alloc::{AllocError, Global};
use sw_list::Boxed;
use sw_tree::{ArgList, Closure, Expr, LinkList, Name, PrefixOp};

/// `base.name`.
pub fn member(alloc: Global, base: Expr, name: Name) -> Result<Expr, AllocError>
    ensures { IfOk result (λ tree. tree ≡ exprs.Member base name) }
{
    Ok(Expr::Member {
        base: Boxed::new(alloc, base)?,
        name,
    })
}

/// `base.name(args)`.
pub fn method(alloc: Global, base: Expr, name: Name, args: ArgList) -> Result<Expr, AllocError>
    ensures { IfOk result (λ tree. tree ≡ exprs.Method base name args) }
{
    Ok(Expr::Method {
        base: Boxed::new(alloc, base)?,
        name,
        args,
    })
}

/// `first op operand ..`.
pub fn chain(alloc: Global, first: Expr, rest: LinkList) -> Result<Expr, AllocError>
    ensures { IfOk result (λ tree. tree ≡ exprs.Chain first rest) }
{
    Ok(Expr::Chain {
        first: Boxed::new(alloc, first)?,
        rest,
    })
}

/// `op inner`.
pub fn prefix(alloc: Global, op: PrefixOp, at: u32, inner: Expr) -> Result<Expr, AllocError>
    ensures { IfOk result (λ tree. tree ≡ exprs.Prefix op at inner) }
{
    Ok(Expr::Prefix {
        op,
        at,
        inner: Boxed::new(alloc, inner)?,
    })
}

/// `await inner`.
pub fn awaited(alloc: Global, at: u32, inner: Expr) -> Result<Expr, AllocError>
    ensures { IfOk result (λ tree. tree ≡ exprs.Await at inner) }
{
    Ok(Expr::Await {
        at,
        inner: Boxed::new(alloc, inner)?,
    })
}

/// A closure as a value.
pub fn fun(alloc: Global, closure: Closure) -> Result<Expr, AllocError>
    ensures { IfOk result (λ tree. tree ≡ exprs.Fun closure) }
{
    Ok(Expr::Fun(Boxed::new(alloc, closure)?))
}

/// `Task { .. }`, or a detached one.
pub fn spawn(alloc: Global, at: u32, detached: bool, body: Closure) -> Result<Expr, AllocError>
    ensures { IfOk result (λ tree. tree ≡ exprs.Spawn at detached body) }
{
    Ok(Expr::Spawn {
        at,
        detached,
        body: Boxed::new(alloc, body)?,
    })
}
