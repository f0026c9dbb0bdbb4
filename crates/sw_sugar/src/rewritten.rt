//! The statements after an `async let`, in which an `await` of its word awaits the task.

#![tactic(auto, using(crate::proofs::Forms::forms))]

ghost use Rattle.std.specs.Prelude.{◌≡◌, IfOk, map, option_map};
ghost use Rattle.sw_sugar.specs.Rewritten.{awaiting, rewritten, rewritten_arg, rewritten_block};
ghost use Rattle.sw_sugar.specs.Rewritten.{rewritten_case_arm, rewritten_closure, rewritten_expr};
ghost use Rattle.sw_sugar.specs.Rewritten.{rewritten_if_arm, rewritten_link};

use crate::awaits::of_task;
use crate::nodes::{awaited, chain, fun, member, method, prefix, spawn};
use std::alloc::{AllocError, Global};
use sw_list::ListOf;
use sw_tree::{
    Arg, ArgList, Block, CaseArm, CaseArmList, Closure, Expr, IfArm, IfArmList, Link, LinkList,
    Stmt, StmtList,
};

/// An `await` of an expression, after the `async let` of the word with this id.
fn awaiting(alloc: Global, word: u32, at: u32, inner: Expr) -> Result<Expr, AllocError>
    ensures { IfOk result (λ tree. tree ≡ awaiting word at inner) }
{
    if at == u32::MAX {
        return awaited(alloc, at, inner);
    }
    let tasks = [word];
    let inner = of_task(alloc, &tasks, at + 1, inner)?;
    awaited(alloc, at, inner)
}

/// An expression.
#[cycle(walk)]
fn expr(alloc: Global, word: u32, tree: Expr) -> Result<Expr, AllocError>
    ensures { IfOk result (λ made. made ≡ rewritten_expr word tree) }
{
    match tree {
        Expr::Int { at, value } => Ok(Expr::Int { at, value }),
        Expr::Bool { at, value } => Ok(Expr::Bool { at, value }),
        Expr::Use { name } => Ok(Expr::Use { name }),
        Expr::Me { at } => Ok(Expr::Me { at }),
        Expr::Member { base, name } => {
            let base = expr(alloc, word, base.into_inner())?;
            member(alloc, base, name)
        }
        Expr::Call { name, args } => {
            let args = arguments(alloc, word, args)?;
            Ok(Expr::Call { name, args })
        }
        Expr::Method { base, name, args } => {
            let base = expr(alloc, word, base.into_inner())?;
            let args = arguments(alloc, word, args)?;
            method(alloc, base, name, args)
        }
        Expr::Chain { first, rest } => {
            let first = expr(alloc, word, first.into_inner())?;
            let rest = links(alloc, word, rest)?;
            chain(alloc, first, rest)
        }
        Expr::Prefix { op, at, inner } => {
            let inner = expr(alloc, word, inner.into_inner())?;
            prefix(alloc, op, at, inner)
        }
        Expr::Await { at, inner } => {
            let inner = expr(alloc, word, inner.into_inner())?;
            awaiting(alloc, word, at, inner)
        }
        Expr::Fun(tree) => {
            let tree = closure(alloc, word, tree.into_inner())?;
            fun(alloc, tree)
        }
        Expr::Spawn { at, detached, body } => {
            let body = closure(alloc, word, body.into_inner())?;
            spawn(alloc, at, detached, body)
        }
        Expr::Yield { at } => Ok(Expr::Yield { at }),
    }
}

/// The arguments of a call.
#[cycle(walk)]
fn arguments(alloc: Global, word: u32, trees: ArgList) -> Result<ArgList, AllocError>
    ensures { IfOk result (λ made. made ≡ map (rewritten_arg word) trees) }
{
    let mut made = ListOf::new(alloc);
    for tree in trees.into_vec() {
        made.push(argument(alloc, word, tree)?)?;
    }
    Ok(made)
}

/// An argument of a call.
#[cycle(walk)]
fn argument(alloc: Global, word: u32, tree: Arg) -> Result<Arg, AllocError>
    ensures { IfOk result (λ made. made ≡ rewritten_arg word tree) }
{
    Ok(Arg {
        label: tree.label,
        value: expr(alloc, word, tree.value)?,
    })
}

/// The operators of a chain with their right operands.
#[cycle(walk)]
fn links(alloc: Global, word: u32, trees: LinkList) -> Result<LinkList, AllocError>
    ensures { IfOk result (λ made. made ≡ map (rewritten_link word) trees) }
{
    let mut made = ListOf::new(alloc);
    for tree in trees.into_vec() {
        made.push(link(alloc, word, tree)?)?;
    }
    Ok(made)
}

/// An operator of a chain with its right operand.
#[cycle(walk)]
fn link(alloc: Global, word: u32, tree: Link) -> Result<Link, AllocError>
    ensures { IfOk result (λ made. made ≡ rewritten_link word tree) }
{
    Ok(Link {
        op: tree.op,
        at: tree.at,
        operand: expr(alloc, word, tree.operand)?,
    })
}

/// A closure, or the body of a task.
#[cycle(walk)]
fn closure(alloc: Global, word: u32, tree: Closure) -> Result<Closure, AllocError>
    ensures { IfOk result (λ made. made ≡ rewritten_closure word tree) }
{
    let body = block(alloc, word, tree.body)?;
    Ok(Closure {
        at: tree.at,
        mark: tree.mark,
        captures: tree.captures,
        params: tree.params,
        result: tree.result,
        body,
    })
}

/// Statements between braces.
#[cycle(walk)]
fn block(alloc: Global, word: u32, tree: Block) -> Result<Block, AllocError>
    ensures { IfOk result (λ made. made ≡ rewritten_block word tree) }
{
    Ok(Block {
        stmts: stmts(alloc, word, tree.stmts)?,
    })
}

/// The statements of a block.
#[cycle(walk)]
fn stmts(alloc: Global, word: u32, trees: StmtList) -> Result<StmtList, AllocError>
    ensures { IfOk result (λ made. made ≡ map (rewritten word) trees) }
{
    let mut made = ListOf::new(alloc);
    for tree in trees.into_vec() {
        made.push(stmt(alloc, word, tree)?)?;
    }
    Ok(made)
}

/// The block that comes otherwise, where there is one.
#[cycle(walk)]
fn otherwise(alloc: Global, word: u32, tree: Option<Block>) -> Result<Option<Block>, AllocError>
    ensures { IfOk result (λ made. made ≡ option_map (rewritten_block word) tree) }
{
    match tree {
        Some(tree) => Ok(Some(block(alloc, word, tree)?)),
        None => Ok(None),
    }
}

/// The arms of an `if`.
#[cycle(walk)]
fn if_arms(alloc: Global, word: u32, trees: IfArmList) -> Result<IfArmList, AllocError>
    ensures { IfOk result (λ made. made ≡ map (rewritten_if_arm word) trees) }
{
    let mut made = ListOf::new(alloc);
    for tree in trees.into_vec() {
        made.push(if_arm(alloc, word, tree)?)?;
    }
    Ok(made)
}

/// An arm of an `if`.
#[cycle(walk)]
fn if_arm(alloc: Global, word: u32, tree: IfArm) -> Result<IfArm, AllocError>
    ensures { IfOk result (λ made. made ≡ rewritten_if_arm word tree) }
{
    Ok(IfArm {
        at: tree.at,
        cond: expr(alloc, word, tree.cond)?,
        body: block(alloc, word, tree.body)?,
    })
}

/// The arms of a `switch`.
#[cycle(walk)]
fn case_arms(alloc: Global, word: u32, trees: CaseArmList) -> Result<CaseArmList, AllocError>
    ensures { IfOk result (λ made. made ≡ map (rewritten_case_arm word) trees) }
{
    let mut made = ListOf::new(alloc);
    for tree in trees.into_vec() {
        made.push(case_arm(alloc, word, tree)?)?;
    }
    Ok(made)
}

/// An arm of a `switch`.
#[cycle(walk)]
fn case_arm(alloc: Global, word: u32, tree: CaseArm) -> Result<CaseArm, AllocError>
    ensures { IfOk result (λ made. made ≡ rewritten_case_arm word tree) }
{
    let body = block(alloc, word, tree.body)?;
    Ok(CaseArm {
        name: tree.name,
        patterns: tree.patterns,
        body,
    })
}

/// The value of a `return`, where there is one.
#[cycle(walk)]
fn returned(alloc: Global, word: u32, tree: Option<Expr>) -> Result<Option<Expr>, AllocError>
    ensures { IfOk result (λ made. made ≡ option_map (rewritten_expr word) tree) }
{
    match tree {
        Some(tree) => Ok(Some(expr(alloc, word, tree)?)),
        None => Ok(None),
    }
}

/// A statement after the `async let` of the word with this id.
#[cycle(walk)]
pub fn stmt(alloc: Global, word: u32, tree: Stmt) -> Result<Stmt, AllocError>
    ensures { IfOk result (λ made. made ≡ rewritten word tree) }
{
    match tree {
        Stmt::Bind {
            mutable,
            name,
            ty,
            value,
        } => Ok(Stmt::Bind {
            mutable,
            name,
            ty,
            value: expr(alloc, word, value)?,
        }),
        Stmt::Assign {
            at,
            op,
            place,
            value,
        } => Ok(Stmt::Assign {
            at,
            op,
            place: expr(alloc, word, place)?,
            value: expr(alloc, word, value)?,
        }),
        Stmt::Discard { at, value } => Ok(Stmt::Discard {
            at,
            value: expr(alloc, word, value)?,
        }),
        Stmt::If {
            arms,
            otherwise: last,
        } => Ok(Stmt::If {
            arms: if_arms(alloc, word, arms)?,
            otherwise: otherwise(alloc, word, last)?,
        }),
        Stmt::While { at, cond, body } => Ok(Stmt::While {
            at,
            cond: expr(alloc, word, cond)?,
            body: block(alloc, word, body)?,
        }),
        Stmt::Switch {
            at,
            subject,
            arms,
            otherwise: last,
        } => Ok(Stmt::Switch {
            at,
            subject: expr(alloc, word, subject)?,
            arms: case_arms(alloc, word, arms)?,
            otherwise: otherwise(alloc, word, last)?,
        }),
        Stmt::Return { at, value } => Ok(Stmt::Return {
            at,
            value: returned(alloc, word, value)?,
        }),
        Stmt::Break { at } => Ok(Stmt::Break { at }),
        Stmt::Continue { at } => Ok(Stmt::Continue { at }),
        Stmt::Plain(value) => Ok(Stmt::Plain(expr(alloc, word, value)?)),
    }
}
