ghost use Rattle.std.specs.Prelude.{IfOk};
ghost use Rattle.sw_replay.specs.Replay.{IsReplay};

use crate::items::Schedule;
use crate::output::Replay;
use crate::playing::Played;
use std::alloc::{AllocError, Global};
use sw_graph::Graph;
use sw_race::RaceIndex;

/// Lets the machine take the items of a schedule from its start, up to the first state that is
/// racing, or all of them where there is none. It answers an error only for want of memory.
pub fn replay(alloc: Global, graph: &Graph, schedule: &Schedule) -> Result<Replay, AllocError>
    ensures { IfOk result (IsReplay graph.now schedule.now) }
{
    let mut played = Played::new(alloc, graph)?;
    let mut index = RaceIndex::new(alloc, graph, &played.state)?;
    for item in schedule.iter() {
        played.take(alloc, graph, item)?;
        index.update(graph, &played.state, item)?;
        if let Some(race) = index.least_race(graph, &played.state) {
            return Ok(Replay {
                output: played.into_output(),
                race: Some(race),
            });
        }
    }
    Ok(Replay {
        output: played.into_output(),
        race: None,
    })
}
