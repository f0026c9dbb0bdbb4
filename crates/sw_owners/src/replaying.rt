ghost use Rattle.std.specs.Prelude.{◌≡◌, IfOk};
ghost use Rattle.sw_owners.specs.Replay.{owner_replay};

use crate::owners::{OwnedList, owners_of};
use std::alloc::{AllocError, Global};
use sw_color::{color_start, color_step};
use sw_graph::Graph;
use sw_replay::{Output, Schedule, add_line, output_by};

/// What comes of a schedule, and who owns the coloured cells of the state to which its items lead.
#[derive(Debug, Drop)]
pub struct OwnerReplay {
    pub output: Output,
    pub owners: OwnedList,
}

/// Lets the coloured machine take the items of a schedule from its start, all of them. It answers
/// an error only for want of memory.
pub fn color_replay(
    alloc: Global,
    graph: &Graph,
    schedule: &Schedule,
) -> Result<OwnerReplay, AllocError>
    ensures { IfOk result (λ replay. replay ≡ owner_replay graph.now schedule.now) }
{
    let mut colored = color_start(alloc, graph)?;
    let mut lines = Vec::new(alloc);
    for item in schedule.iter() {
        let event = color_step(alloc, graph, &mut colored, item)?;
        add_line(&mut lines, event)?;
    }
    Ok(OwnerReplay {
        owners: owners_of(alloc, &colored)?,
        output: output_by(&colored.state, lines),
    })
}
