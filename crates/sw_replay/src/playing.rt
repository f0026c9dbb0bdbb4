ghost use Rattle.std.specs.Prelude.{◌≡◌, ◌<◌, ◌≤◌, ◌^◌, ◌++◌, length, count_by, IfOk, OnOk, []};
ghost use Rattle.sw_value.specs.Reach.{step_of};
ghost use Rattle.sw_value.specs.Start.{start_of};
ghost use Rattle.sw_step.specs.Event.{event_of};
ghost use Rattle.sw_replay.specs.Output.{line_of, end_of, has_ended, ended_in, output_by};
ghost use Rattle.sw_replay.specs.Output.{output_of};

use crate::items::Schedule;
use crate::output::{End, Output};
use std::alloc::{AllocError, Global};
use sw_graph::Graph;
use sw_list::ListOf;
use sw_step::{Event, step};
use sw_value::{Job, State, Status, start};

/// Lets the machine take the items of a schedule from its start, all of them, whatever races there
/// are. It answers an error only for want of memory.
pub fn output_of(alloc: Global, graph: &Graph, schedule: &Schedule) -> Result<Output, AllocError>
    ensures { IfOk result (λ output. output ≡ output_of graph.now schedule.now) }
{
    let mut played = Played::new(alloc, graph)?;
    for item in schedule.iter() {
        played.take(alloc, graph, item)?;
    }
    Ok(played.into_output())
}

/// How far items have come: the state that they led to, and the lines that they printed.
#[derive(Drop)]
pub struct Played {
    pub state: State,
    lines: Vec<u8>,
}

impl Played {
    /// No item is taken.
    pub fn new(alloc: Global, graph: &Graph) -> Result<Played, AllocError>
        ensures state { IfOk result (λ played. played.state ≡ start_of graph.now) }
        ensures lines { IfOk result (λ played. played.lines.items ≡ []) }
    {
        Ok(Played {
            state: start(alloc, graph)?,
            lines: Vec::new(alloc),
        })
    }

    /// Takes an item, and adds the line that it prints.
    pub fn take(&mut self, alloc: Global, graph: &Graph, item: u32) -> Result<(), AllocError>
        requires { length self.old.state.cells < 4294967295 }
        ensures state { OnOk result (self.new.state ≡ step_of graph.now self.old.state item) }
        ensures lines { OnOk result (self.new.lines.items
            ≡ self.old.lines.items ++ line_of (event_of graph.now self.old.state item)) }
    {
        let event = step(alloc, graph, &mut self.state, item)?;
        add_line(&mut self.lines, event)
    }

    /// What comes of the items.
    pub fn into_output(self) -> Output
        requires { length self.state.jobs < 2 ^ 32 }
        ensures { result ≡ output_by self.state self.lines.items }
    {
        let Played { state, lines } = self;
        output_by(&state, lines)
    }
}

/// Adds the line of an event that has one.
pub fn add_line(lines: &mut Vec<u8>, event: Event) -> Result<(), AllocError>
    ensures { OnOk result (lines.new.items ≡ lines.old.items ++ line_of event) }
{
    match event {
        Event::Printed { line } => lines.extend_from_slice(line.as_slice()),
        Event::Nothing
        | Event::Dispatched
        | Event::Woken { .. }
        | Event::Ran
        | Event::Trapped { .. } => Ok(()),
    }
}

/// What comes of items that led to a state and printed these lines.
pub fn output_by(state: &State, lines: Vec<u8>) -> Output
    requires { length state.now.jobs < 2 ^ 32 }
    ensures { result ≡ output_by state.now lines.items }
{
    Output {
        lines: ListOf::from_vec(lines),
        end: end_of(state),
        ended: ended_in(state) as u32,
        jobs: state.jobs.len() as u32,
    }
}

fn end_of(state: &State) -> End
    ensures { result ≡ end_of state.now }
{
    match state.halted {
        None => End::Ran,
        Some((kind, at)) => End::Trapped { kind, at },
    }
}

fn ended_in(state: &State) -> usize
    ensures value { result ≡ ended_in state.now }
    ensures within { result ≤ length state.now.jobs }
{
    count_ended(state.jobs.as_slice())
}

fn count_ended(jobs: &[Job]) -> usize
    ensures { result ≡ count_by has_ended jobs.now }
{
    let mut ended = 0;
    for job in jobs {
        if has_ended(job) {
            ended += 1;
        }
    }
    ended
}

#[tactic(auto, unfolding(crate::specs::Output::has_ended))]
fn has_ended(job: &Job) -> bool
    ensures { result ≡ has_ended job.now }
{
    matches!(job.status, Status::Ended { .. })
}
