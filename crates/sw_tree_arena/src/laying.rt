//! Single nodes.
#![tactic(auto, using(crate::proofs::Growing::grown))]

ghost use Rattle.std.specs.Prelude.{◌<◌, length};
ghost use Rattle.sw_tree_arena.specs.Nodes.{AreBelow, act_of, node_work};
ghost use Rattle.sw_tree_arena.specs.Sites.{Lays, LaysBefore, after, shapes_at};
ghost use Rattle.sw_tree_work.specs.Work as work;

use crate::arena::Arena;
use crate::node::{Act, Node};
use crate::site::Site;
use std::alloc::AllocError;

/// A node, by those that it names.
pub fn lay(site: &Site<'_>, node: Node, arena: &mut Arena) -> Result<usize, AllocError>
    requires { AreBelow (length arena.old) node }
    ensures { Lays site.now arena.old arena.new result
        (node_work (shapes_at site.now) (after site.now arena.old) node) }
{
    arena.put(node)
}

/// An act.
pub fn then(site: &Site<'_>, act: Act, rest: usize, arena: &mut Arena) -> Result<usize, AllocError>
    requires { rest < length arena.old }
    ensures { LaysBefore site.now arena.old arena.new result rest (work.Then (act_of act)) }
{
    lay(site, Node::Then { act, rest }, arena)
}

/// The end of a part.
pub fn jump(site: &Site<'_>, rest: usize, arena: &mut Arena) -> Result<usize, AllocError>
    requires { rest < length arena.old }
    ensures { LaysBefore site.now arena.old arena.new result rest work.Jump }
{
    lay(site, Node::Jump { rest }, arena)
}

/// What no program has that keeps the rules.
pub fn unknown(site: &Site<'_>, arena: &mut Arena) -> Result<usize, AllocError>
    ensures { Lays site.now arena.old arena.new result work.Unknown }
{
    lay(site, Node::Unknown, arena)
}
