//! The lines of a certificate, and what they depend on.
ghost use Rattle.std.specs.Prelude.{◌≡◌, IfOk};
ghost use Rattle.sw_cert.specs.Tails.{echo_of};

use crate::shared::Shared;
use std::alloc::{AllocError, Global};
use sw_list::ListOf;

/// What a certificate depends on of a function: how many blocks it has, how many elements its
/// states have, `Here` among them, and the sites at which it gives elements away, in rising order.
#[derive(Debug, Drop)]
pub struct Extent {
    pub blocks: u64,
    pub elements: u64,
    pub sites: ListOf<u64>,
}

/// An element, and a site that gave it away.
#[derive(Clone, Copy, Debug, PartialEq, Eq)]
pub struct Pair {
    pub element: u64,
    pub site: u64,
}

/// A line: a function and a block of it, and the state with which control comes to the block: for
/// each element in order the least element of its class, and the pairs. Lines may have the list of
/// classes in common.
#[derive(Drop)]
pub struct Line {
    pub function: u64,
    pub block: u64,
    pub classes: Shared<ListOf<u64>>,
    pub pairs: ListOf<Pair>,
}

/// A place between lines: the first function and block that may have a line there.
#[derive(Clone, Copy, Debug, PartialEq, Eq)]
pub struct Spot {
    pub function: u64,
    pub block: u64,
}

/// The line of a block that shows what another line shows.
pub(crate) fn echo(alloc: Global, head: Spot, line: &Line) -> Result<Line, AllocError>
    ensures { IfOk result (λ echo. echo ≡ echo_of head line.now) }
{
    let classes = line.classes.share()?;
    let pairs = ListOf::from_slice(alloc, line.pairs.as_slice())?;
    Ok(Line {
        function: head.function,
        block: head.block,
        classes,
        pairs,
    })
}
