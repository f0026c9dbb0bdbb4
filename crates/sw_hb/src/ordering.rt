ghost use Rattle.std.specs.Prelude.{◌≡◌, IfOk};
ghost use Rattle.sw_hb.specs.Clocked.{IsClocked};
ghost use Rattle.sw_replay.specs.Output.{lines_of};
ghost use Rattle.sw_hb.specs.Replay.{IsOrderReplay};

use crate::clocked::{Clocked, clock_start, clock_step};
use crate::fault::ClockFault;
use std::alloc::{AllocError, Global};
use sw_graph::Graph;
use sw_list::ListOf;
use sw_replay::{Schedule, add_line};
use sw_value::{Access, Line, TrapKind};

/// What comes of a schedule whose accesses are to be ordered: the first of these that holds.
#[derive(Debug, Drop)]
pub enum OrderReplay {
    /// An item would make a 257th job.
    ManyJobs,
    /// The first two accesses that are unordered, the earlier one first. The printed lines, here and
    /// below, stand one after the other; each ends in a line feed.
    Unordered {
        lines: Line,
        first: Access,
        second: Access,
    },
    /// The instruction of an item halted the machine; `at` is its byte offset in the source.
    Trapped {
        lines: Line,
        kind: TrapKind,
        at: u32,
    },
    /// All accesses are ordered; so many there are.
    Ordered {
        lines: Line,
        accesses: u64,
    },
}

/// Lets the machine with clocks take the items of a schedule from its start, all of them, also past
/// an unordered pair. It answers an error only for want of memory.
pub fn order_replay(
    alloc: Global,
    graph: &Graph,
    schedule: &Schedule,
) -> Result<OrderReplay, AllocError>
    ensures { IfOk result (IsOrderReplay graph.now schedule.now) }
{
    let mut clocked = clock_start(alloc, graph)?;
    let mut lines = Vec::new(alloc);
    for item in schedule.iter() {
        match clock_step(alloc, graph, &mut clocked, item) {
            Ok(event) => add_line(&mut lines, event)?,
            Err(ClockFault::ManyJobs) => return Ok(OrderReplay::ManyJobs),
            Err(ClockFault::Memory) => return Err(AllocError),
        }
    }
    Ok(replay_of(graph, &clocked, lines))
}

/// What comes of items that led to a clocked state and printed these lines.
fn replay_of(graph: &Graph, clocked: &Clocked, lines: Vec<u8>) -> OrderReplay
    requires clocked { IsClocked graph.now clocked.now }
    requires lines { lines.items ≡ lines_of graph.now clocked.now.items }
    ensures { IsOrderReplay graph.now clocked.now.items result }
{
    let lines = ListOf::from_vec(lines);
    if let Some((first, second)) = clocked.unordered(graph) {
        return OrderReplay::Unordered {
            lines,
            first,
            second,
        };
    }
    match clocked.state.halted {
        None => OrderReplay::Ordered {
            lines,
            accesses: clocked.accesses(graph),
        },
        Some((kind, at)) => OrderReplay::Trapped { lines, kind, at },
    }
}
