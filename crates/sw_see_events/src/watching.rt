ghost use Rattle.std.specs.Prelude.{◌≡◌, ◌<◌, ◌≤◌, ◌^◌, ◌++◌, [], length, option_to_list, IfOk, OnOk};
ghost use Rattle.sw_value.specs.Reach.{step_of};
ghost use Rattle.sw_value.specs.Start.{start_of};
ghost use Rattle.sw_step.specs.Event.{event_of};
ghost use Rattle.sw_replay.specs.Output.{line_of, output_by};
ghost use Rattle.sw_see_events.specs.Happenings.{happening_of};
ghost use Rattle.sw_see_events.specs.Watches.{IsWatched};

use crate::acts::happening_by;
use crate::happening::Happening;
use std::alloc::{AllocError, Global};
use sw_graph::Graph;
use sw_list::ListOf;
use sw_race::RaceIndex;
use sw_replay::{MAX_ITEMS, Output, Replay, Schedule, add_line, output_by};
use sw_step::{act_of, perform};
use sw_value::{Race, State, start};

/// A replay that is watched for races, with its events.
#[derive(Debug, Drop)]
pub struct Watched {
    /// The events of the items that were taken, in order.
    pub happenings: ListOf<Happening>,
    /// What comes of these items, and the race at which the replay stopped.
    pub replay: Replay,
}

/// How far items have come: the state that they led to, the lines that they printed and their
/// events.
#[derive(Drop)]
struct Walk {
    state: State,
    lines: Vec<u8>,
    happenings: ListOf<Happening>,
}

impl Walk {
    /// No item is taken.
    fn new(alloc: Global, graph: &Graph) -> Result<Walk, AllocError>
        ensures state { IfOk result (λ walk. walk.state ≡ start_of graph.now) }
        ensures lines { IfOk result (λ walk. walk.lines.items ≡ []) }
        ensures happenings { IfOk result (λ walk. walk.happenings ≡ []) }
    {
        Ok(Walk {
            state: start(alloc, graph)?,
            lines: Vec::new(alloc),
            happenings: ListOf::new(alloc),
        })
    }

    /// Takes an item.
    #[tactic(auto, using(crate::proofs::HappeningLemmas::acts))]
    fn take(&mut self, alloc: Global, graph: &Graph, item: u32) -> Result<(), AllocError>
        requires { length self.old.state.cells < 4294967295 }
        ensures state { OnOk result (self.new.state ≡ step_of graph.now self.old.state item) }
        ensures lines { OnOk result (self.new.lines.items
            ≡ self.old.lines.items ++ line_of (event_of graph.now self.old.state item)) }
        ensures happenings { OnOk result (self.new.happenings ≡ self.old.happenings
            ++ option_to_list (happening_of graph.now self.old.state item)) }
    {
        let Some(act) = act_of(alloc, graph, &self.state, item)? else {
            return Ok(());
        };
        let happening = happening_by(alloc, graph, &self.state, item, &act)?;
        self.happenings.push(happening)?;
        let event = perform(alloc, &mut self.state, item, act)?;
        add_line(&mut self.lines, event)
    }

    /// What comes of the items.
    fn into_watched(self, race: Option<Race>) -> Watched
        requires { length self.state.jobs < 2 ^ 32 }
        ensures happenings { result.happenings ≡ self.happenings }
        ensures replay { result.replay
            ≡ record { output = output_by self.state self.lines.items; race = race } }
    {
        let Walk {
            state,
            lines,
            happenings,
        } = self;
        let output: Output = output_by(&state, lines);
        Watched {
            happenings,
            replay: Replay { output, race },
        }
    }
}

/// Lets the machine take the items of a schedule from its start, up to the first state that is
/// racing, or all of them where there is none, and notes their events. It answers an error only for
/// want of memory.
pub fn watch(alloc: Global, graph: &Graph, schedule: &Schedule) -> Result<Watched, AllocError>
    ensures watched { IfOk result (IsWatched graph.now schedule.now) }
    ensures few { IfOk result (λ watched. length watched.happenings ≤ MAX_ITEMS) }
{
    let mut walk = Walk::new(alloc, graph)?;
    let mut index = RaceIndex::new(alloc, graph, &walk.state)?;
    for item in schedule.iter() {
        walk.take(alloc, graph, item)?;
        index.update(graph, &walk.state, item)?;
        if let Some(race) = index.least_race(graph, &walk.state) {
            return Ok(walk.into_watched(Some(race)));
        }
    }
    Ok(walk.into_watched(None))
}
