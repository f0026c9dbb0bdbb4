//! What an act of a job involves, as clocks take it in.
ghost use Rattle.std.specs.Prelude.{◌≡◌, Some, slice_get};
ghost use Rattle.sw_value.specs.Transition.{executor_of_top, entered_by, left_by, made_by};
ghost use Rattle.sw_value.specs.Transition.{followed_by, ends_by, is_last_frame, transition_by};
ghost use Rattle.sw_graph.specs.declared.graph.Graph.{Graph};
ghost use Rattle.sw_value.specs.declared.value.Value.{Value};
ghost use Rattle.sw_clocks.specs.Links.{links_of};

use sw_clocks::Links;
use sw_value::{Act, Effect, Executor, Job, State};

/// The links of an act of the job with a number.
#[tactic(auto, unfolding(sw_value::specs::Job::top_frame))]
pub fn links_by(state: &State, number: u32, act: &Act) -> Links
    ensures { (graph : Graph) → result ≡ links_of (transition_by graph state.now number act.now) }
{
    match state.jobs.get(number as usize) {
        None => Links {
            job: number,
            makes: made_by(act),
            follows: followed_by(act),
            enters: None,
            leaves: None,
            ends: false,
        },
        Some(job) => Links {
            job: number,
            makes: made_by(act),
            follows: followed_by(act),
            enters: entered_by(act, job),
            leaves: left_by(act, job),
            ends: ends_by(act, job),
        },
    }
}

/// The job that an act makes.
pub fn made_by(act: &Act) -> Option<u32>
    ensures { result ≡ made_by act.now }
{
    match act {
        Act::Execute {
            effect: Effect::Spawn { job, .. },
        } => Some(*job),
        Act::Dispatch | Act::Wake { .. } | Act::Execute { .. } => None,
    }
}

/// The job whose end an act follows.
fn followed_by(act: &Act) -> Option<u32>
    ensures { result ≡ followed_by act.now }
{
    match act {
        Act::Wake { ended, .. } => Some(*ended),
        Act::Dispatch | Act::Execute { .. } => None,
    }
}

fn executor_of_top(job: &Job) -> Option<Executor>
    ensures { result ≡ executor_of_top job.now }
{
    Some(job.top_frame()?.executor)
}

fn is_last_frame(job: &Job) -> bool
    ensures { result ≡ is_last_frame job.now }
{
    job.frames.len() == 1
}

/// The executor that a dispatch enters.
fn entered_by(act: &Act, job: &Job) -> Option<Executor>
    ensures { result ≡ entered_by act.now job.now }
{
    match act {
        Act::Dispatch => executor_of_top(job),
        Act::Wake { .. } | Act::Execute { .. } => None,
    }
}

/// The executor that an act leaves.
fn left_by(act: &Act, job: &Job) -> Option<Executor>
    ensures { result ≡ left_by act.now job.now }
{
    match act {
        Act::Execute { effect } => left_by_effect(effect, job),
        Act::Dispatch | Act::Wake { .. } => None,
    }
}

fn left_by_effect(effect: &Effect, job: &Job) -> Option<Executor>
    ensures { result ≡ left_by (Act.Execute effect.now) job.now }
{
    match effect {
        Effect::Enter { frame, .. } => {
            if frame.crossing {
                executor_of_top(job)
            } else {
                None
            }
        }
        Effect::Wait { .. } | Effect::Rest { .. } => executor_of_top(job),
        Effect::Leave { .. } => left_by_return(job),
        Effect::Set { .. }
        | Effect::SetField { .. }
        | Effect::Print { .. }
        | Effect::New { .. }
        | Effect::Write { .. }
        | Effect::WriteGlobal { .. }
        | Effect::Goto { .. }
        | Effect::Spawn { .. }
        | Effect::Halt { .. }
        | Effect::Stuck => None,
    }
}

/// The executor that a return from the top frame leaves.
fn left_by_return(job: &Job) -> Option<Executor>
    ensures { (value : Value) → result ≡ left_by (Act.Execute (Effect.Leave value)) job.now }
{
    let frame = job.top_frame()?;
    if frame.crossing || is_last_frame(job) {
        Some(frame.executor)
    } else {
        None
    }
}

/// Whether an act ends its job.
fn ends_by(act: &Act, job: &Job) -> bool
    ensures { result ≡ ends_by act.now job.now }
{
    match act {
        Act::Execute {
            effect: Effect::Leave { .. },
        } => is_last_frame(job),
        Act::Dispatch | Act::Wake { .. } | Act::Execute { .. } => false,
    }
}
