//! Closures and tasks, by the work of their bodies.
#![tactic(auto, using(crate::proofs::Growing::grown, crate::proofs::Backwards::backwards))]

ghost use Rattle.std.specs.Prelude.{◌≡◌, ◌<◌, IfOk, length, map};
ghost use Rattle.sw_isolation_rules.specs.Noting.{task_result};
ghost use Rattle.sw_tree.specs.declared.expr.ClosureParam.{ClosureParam};
ghost use Rattle.sw_tree_arena.specs.Sites.{Lays, LaysBefore, after, facts_at};
ghost use Rattle.sw_tree_arena.specs.Parts.{capture_work};
ghost use Rattle.sw_tree_work.specs.Facts.{func_result};
ghost use Rattle.sw_tree_work.specs.Forms.{captured, gives_value};
ghost use Rattle.sw_tree_work.specs.Work.{Close, Spawn};

use crate::arena::Arena;
use crate::laying::{lay, then};
use crate::node::{Act, Node};
use crate::site::Site;
use std::alloc::{AllocError, Global};
use sw_isolation_rules::Capture;
use sw_list::ListOf;
use sw_tree::ClosureParam;
use sw_types::Ty;
use sw_typing_words::is_unit;

/// Whether the body of the closure with this key gives a value.
pub fn closure_gives(site: &Site<'_>, at: u32) -> bool
    ensures { result ≡ gives_value (func_result ((facts_at site.now).answers.type_at at)) }
{
    match site.type_at(at) {
        Some(Ty::Func { result, .. }) => !is_unit(result.get()),
        Some(Ty::Int | Ty::Bool | Ty::Unit | Ty::Named(_) | Ty::Task(_)) | None => false,
    }
}

/// Whether the body of the task with this key gives a value.
pub fn task_gives(site: &Site<'_>, at: u32) -> bool
    ensures { result ≡ gives_value (task_result ((facts_at site.now).answers.type_at at)) }
{
    match site.type_at(at) {
        Some(Ty::Task(result)) => !is_unit(result.get()),
        Some(Ty::Int | Ty::Bool | Ty::Unit | Ty::Named(_) | Ty::Func { .. }) | None => false,
    }
}

/// A captured variable is read, unless it is shared.
fn capture(
    site: &Site<'_>,
    one: &Capture,
    rest: usize,
    arena: &mut Arena,
) -> Result<usize, AllocError>
    requires { rest < length arena.old }
    ensures { LaysBefore site.now arena.old arena.new result rest (capture_work one.now) }
{
    if one.by_ref {
        Ok(rest)
    } else {
        let variable = one.variable;
        then(site, Act::Read { variable }, rest, arena)
    }
}

/// What a closure or a task captures by value is read, in order.
fn captures(
    site: &Site<'_>,
    captures: &[Capture],
    rest: usize,
    arena: &mut Arena,
) -> Result<usize, AllocError>
    requires { rest < length arena.old }
    ensures { LaysBefore site.now arena.old arena.new result rest (captured captures.now) }
{
    let mut next = rest;
    for one in captures.iter().rev() {
        next = capture(site, one, next, arena)?;
    }
    Ok(next)
}

/// What the closure or task with this key captures by value is read, in order.
pub fn captured(
    site: &Site<'_>,
    key: u32,
    rest: usize,
    arena: &mut Arena,
) -> Result<usize, AllocError>
    requires { rest < length arena.old }
    ensures { LaysBefore site.now arena.old arena.new result rest
        (captured ((facts_at site.now).captures_of key)) }
{
    captures(site, site.captures_of(key), rest, arena)
}

/// The keys of parameters.
fn keys_of(alloc: Global, params: &[ClosureParam]) -> Result<ListOf<u32>, AllocError>
    ensures { IfOk result (λ keys. keys ≡ map (λ (param : ClosureParam). param.name.at) params.now) }
{
    let mut keys = ListOf::new(alloc);
    for param in params {
        keys.push(param.name.at)?;
    }
    Ok(keys)
}

/// A closure with this key and this body.
pub fn close(
    site: &Site<'_>,
    at: u32,
    params: &[ClosureParam],
    body: usize,
    rest: usize,
    arena: &mut Arena,
) -> Result<usize, AllocError>
    requires body { body < length arena.old }
    requires rest { rest < length arena.old }
    ensures { LaysBefore site.now arena.old arena.new result rest
        (Close at ((facts_at site.now).captures_of at)
        (map (λ (param : ClosureParam). param.name.at) params.now)
        (after site.now arena.old body)) }
{
    let captures = ListOf::from_slice(site.alloc, site.captures_of(at))?;
    let params = keys_of(site.alloc, params)?;
    let node = Node::Close {
        at,
        captures,
        params,
        body,
        rest,
    };
    lay(site, node, arena)
}

/// A task with this key, whose body has the key `closure`.
pub fn start(
    site: &Site<'_>,
    at: u32,
    closure: u32,
    body: usize,
    rest: usize,
    arena: &mut Arena,
) -> Result<usize, AllocError>
    requires body { body < length arena.old }
    requires rest { rest < length arena.old }
    ensures { LaysBefore site.now arena.old arena.new result rest
        (Spawn at ((facts_at site.now).iso_at closure) ((facts_at site.now).captures_of closure)
        (after site.now arena.old body)) }
{
    let captures = ListOf::from_slice(site.alloc, site.captures_of(closure))?;
    let node = Node::Spawn {
        at,
        iso: site.iso_at(closure),
        captures,
        body,
        rest,
    };
    lay(site, node, arena)
}
