//! What an act of a job is, for people.

ghost use Rattle.std.specs.Prelude.{◌≡◌, IfOk};
ghost use Rattle.sw_value.specs.Transition.{ends_by, executor_of_top, transition_by};
ghost use Rattle.sw_see_events.specs.Happenings.{act_deed, called, effect_deed, happening_by};

use crate::happening::{Deed, Happening};
use crate::position::job_position;
use std::alloc::{AllocError, Global};
use sw_graph::Graph;
use sw_list::ListOf;
use sw_race::next_access;
use sw_value::{Act, Effect, Executor, Frame, Job, State};

/// The executor to which a call crosses.
fn called(frame: &Frame) -> Option<Executor>
    ensures { result ≡ called frame.now }
{
    if frame.crossing {
        Some(frame.executor)
    } else {
        None
    }
}

/// What an effect does.
fn effect_deed(alloc: Global, effect: &Effect, ends: bool) -> Result<Deed, AllocError>
    ensures { IfOk result (λ deed. deed ≡ effect_deed effect.now ends) }
{
    match effect {
        Effect::Set { .. }
        | Effect::SetField { .. }
        | Effect::Write { .. }
        | Effect::WriteGlobal { .. }
        | Effect::Stuck => Ok(Deed::Computes),
        Effect::Print { line, .. } => Ok(Deed::Prints {
            line: ListOf::from_slice(alloc, line.as_slice())?,
        }),
        Effect::New { number, .. } => Ok(Deed::Makes { cell: *number }),
        Effect::Goto { .. } => Ok(Deed::Jumps),
        Effect::Enter { frame, .. } => Ok(Deed::Calls { to: called(frame) }),
        Effect::Spawn { job, .. } => Ok(Deed::Starts { job: *job }),
        Effect::Wait { job, .. } => Ok(Deed::Waits { job: *job }),
        Effect::Rest { .. } => Ok(Deed::Yields),
        Effect::Leave { .. } => Ok(if ends { Deed::Ends } else { Deed::Returns }),
        Effect::Halt { kind, .. } => Ok(Deed::Traps { kind: *kind }),
    }
}

/// What an act does, by whether it ends its job.
fn act_deed(alloc: Global, act: &Act, ends: bool) -> Result<Deed, AllocError>
    ensures { IfOk result (λ deed. deed ≡ act_deed act.now ends) }
{
    match act {
        Act::Dispatch => Ok(Deed::Runs),
        Act::Wake { ended, .. } => Ok(Deed::Resumes { ended: *ended }),
        Act::Execute { effect } => effect_deed(alloc, effect, ends),
    }
}

/// The executor of the top call of a job.
fn executor_of_top(job: &Job) -> Option<Executor>
    ensures { result ≡ executor_of_top job.now }
{
    Some(job.top_frame()?.executor)
}

/// Whether an act ends its job.
fn ends_by(act: &Act, job: &Job) -> bool
    ensures { result ≡ ends_by act.now job.now }
{
    match act {
        Act::Execute {
            effect: Effect::Leave { .. },
        } => job.frames.len() == 1,
        Act::Dispatch | Act::Wake { .. } | Act::Execute { .. } => false,
    }
}

/// The event of an act of the job with a number.
#[tactic(auto, unfolding(crate::specs::Position::stands_at, crate::specs::Happenings::executor_at))]
pub fn happening_by(
    alloc: Global,
    graph: &Graph,
    state: &State,
    number: u32,
    act: &Act,
) -> Result<Happening, AllocError>
    ensures { IfOk result (λ happening. happening
        ≡ happening_by graph.now state.now (transition_by graph.now state.now number act.now)) }
{
    let access = next_access(graph, state, number);
    match state.jobs.get(number as usize) {
        None => Ok(Happening {
            job: number,
            at: None,
            executor: None,
            access,
            deed: act_deed(alloc, act, false)?,
        }),
        Some(job) => Ok(Happening {
            job: number,
            at: job_position(graph, job),
            executor: executor_of_top(job),
            access,
            deed: act_deed(alloc, act, ends_by(act, job))?,
        }),
    }
}
