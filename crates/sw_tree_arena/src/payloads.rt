//! The variables of patterns.
#![tactic(auto, using(crate::proofs::Growing::grown))]

ghost use Rattle.std.specs.Prelude.{◌<◌, length};
ghost use Rattle.sw_tree_arena.specs.Sites.{LaysBefore};
ghost use Rattle.sw_tree_arena.specs.Parts.{pattern_work};
ghost use Rattle.sw_tree_work.specs.Forms.{patterns_work};

use crate::arena::Arena;
use crate::laying::then;
use crate::node::Act;
use crate::site::Site;
use std::alloc::AllocError;
use sw_tree::Pattern;

/// The variable of a pattern begins with the payload that has this index.
fn pattern(
    site: &Site<'_>,
    index: usize,
    pattern: &Pattern,
    rest: usize,
    arena: &mut Arena,
) -> Result<usize, AllocError>
    requires { rest < length arena.old }
    ensures { LaysBefore site.now arena.old arena.new result rest (pattern_work index pattern.now) }
{
    match pattern {
        Pattern::Skip { .. } => Ok(rest),
        Pattern::Let { name } => {
            let variable = name.at;
            then(site, Act::Payload { variable, index }, rest, arena)
        }
    }
}

/// The variables of patterns begin with the payloads of the newest, in order.
pub fn patterns(
    site: &Site<'_>,
    patterns: &[Pattern],
    rest: usize,
    arena: &mut Arena,
) -> Result<usize, AllocError>
    requires { rest < length arena.old }
    ensures { LaysBefore site.now arena.old arena.new result rest (patterns_work 0 patterns.now) }
{
    let mut next = rest;
    for index in (0..patterns.len()).rev() {
        next = pattern(site, index, &patterns[index], next, arena)?;
    }
    Ok(next)
}
