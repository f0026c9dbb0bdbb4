//! The test of items: whether the text that they are printed as shows a race.

ghost use Rattle.std.specs.Prelude.{IfOk, IfSome};
ghost use Rattle.sw_replay.specs.Items.{IsItems};
ghost use Rattle.sw_see_find.specs.Found.{RacesBy};

use crate::printing::schedule_text;
use std::alloc::{AllocError, Global};
use sw_graph::Graph;
use sw_list::ListOf;
use sw_replay::{SCHEDULE_LIMIT, SchedFault, Schedule, replay, schedule};

/// The schedule of a text. One that is too long or has a fault is none.
fn read_again(alloc: Global, text: &[u8]) -> Result<Option<Schedule>, AllocError>
    ensures { IfOk result (λ found. IfSome found (IsItems text.now)) }
{
    if text.len() > SCHEDULE_LIMIT {
        return Ok(None);
    }
    match schedule(alloc, text) {
        Ok(items) => Ok(Some(items)),
        Err(SchedFault::Memory) => Err(AllocError),
        Err(SchedFault::BadItem { .. } | SchedFault::TooBig { .. } | SchedFault::TooMany { .. }) =>
            Ok(None),
    }
}

/// The text of a schedule of these items, if its replay meets a race.
pub fn race_text(
    alloc: Global,
    graph: &Graph,
    items: &[u32],
) -> Result<Option<ListOf<u8>>, AllocError>
    ensures { IfOk result (λ text. IfSome text (RacesBy graph.now)) }
{
    let text = schedule_text(alloc, items)?;
    let Some(schedule) = read_again(alloc, text.as_slice())? else {
        return Ok(None);
    };
    let played = replay(alloc, graph, &schedule)?;
    if played.race.is_some() {
        Ok(Some(text))
    } else {
        Ok(None)
    }
}
