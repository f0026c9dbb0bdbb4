ghost use Rattle.std.specs.Prelude.{◌≡◌, ℕ, ◌↔◌, ◌<◌, IfOk, OnOk, OnErr, length};
ghost use Rattle.sw_value.specs.declared.state.TrapKind.{TrapKind};
ghost use Rattle.sw_step.specs.declared.event.Event.TheVariants.{Nothing, Trapped};
ghost use Rattle.sw_value.specs.Act.{execution_of, dispatch_of, act_by, act_of};
ghost use Rattle.sw_value.specs.Reach.{after_act, step_of, Reached};
ghost use Rattle.sw_step.specs.Event.{act_event, event_of};

use crate::applying::apply;
use crate::event::Event;
use crate::execute::effect_of;
use std::alloc::{AllocError, Global};
use sw_graph::Graph;
use sw_value::{Act, Effect, Frame, Job, State, Status};

/// Does what one item of a schedule says: the job with that number is dispatched, is woken or
/// executes one instruction, or nothing changes. Where memory runs out the state stays as it was.
pub fn step(alloc: Global, graph: &Graph, state: &mut State, item: u32) -> Result<Event, AllocError>
    requires cells { length state.old.cells < 4294967295 }

    ensures steps { OnOk result (state.new ≡ step_of graph.now state.old item) }
    ensures event { IfOk result (λ event. event ≡ event_of graph.now state.old item) }
    ensures err { OnErr result (state.new ≡ state.old) }

    // What the event says, and that the new state is reached if the old one was.
    ensures nothing { IfOk result (λ event.
        (event ≡ Nothing) ↔ (act_of graph.now state.old item ≡ None)) }
    ensures trapped { IfOk result (λ event. (kind : TrapKind) (at : ℕ) →
        (event ≡ Trapped kind at)
        ↔ ((state.old.halted ≡ None) × (state.new.halted ≡ Some (kind, at)))) }
    ensures reached { Reached graph.now state.old → Reached graph.now state.new }
{
    let event = do_item(alloc, graph, state, item)?;
    Ok(event)
}

#[tactic(auto, using(crate::proofs::StepLemmas::steps))]
fn do_item(alloc: Global, graph: &Graph, state: &mut State, item: u32) -> Result<Event, AllocError>
    requires cells { length state.old.cells < 4294967295 }
    ensures steps { OnOk result (state.new ≡ step_of graph.now state.old item) }
    ensures event { IfOk result (λ event. event ≡ event_of graph.now state.old item) }
    ensures err { OnErr result (state.new ≡ state.old) }
{
    match act_of(alloc, graph, state, item)? {
        None => Ok(Event::Nothing),
        Some(act) => perform(alloc, state, item, act),
    }
}

/// What an item makes its job do, if anything. It changes nothing: `perform` lets the job do it.
#[tactic(auto, unfolding(sw_value::specs::Act::act_of))]
pub fn act_of(
    alloc: Global,
    graph: &Graph,
    state: &State,
    item: u32,
) -> Result<Option<Act>, AllocError>
    requires cells { length state.now.cells < 4294967295 }
    ensures { IfOk result (λ act. act ≡ act_of graph.now state.now item) }
{
    if state.halted.is_some() {
        return Ok(None);
    }
    match state.jobs.get(item as usize) {
        None => Ok(None),
        Some(job) => act_by(alloc, graph, state, job),
    }
}

fn act_by(alloc: Global, graph: &Graph, state: &State, job: &Job) -> Result<Option<Act>, AllocError>
    requires cells { length state.now.cells < 4294967295 }
    ensures { IfOk result (λ act. act ≡ act_by graph.now state.now job.now job.now.status) }
{
    match &job.status {
        Status::Ready => match job.top_frame() {
            None => Ok(None),
            Some(frame) => Ok(dispatch_of(state, frame)),
        },
        Status::Waiting { job: awaited, reg } => match state.result_of(*awaited) {
            None => Ok(None),
            Some(value) => Ok(Some(Act::Wake {
                ended: *awaited,
                reg: *reg,
                value: value.copied(alloc)?,
            })),
        },
        Status::Running => match job.top_frame() {
            None => Ok(None),
            Some(frame) => Ok(execution_of(effect_of(
                alloc,
                graph,
                state,
                job.frames.len(),
                frame,
            )?)),
        },
        Status::Ended { .. } => Ok(None),
    }
}

fn dispatch_of(state: &State, frame: &Frame) -> Option<Act>
    ensures { result ≡ dispatch_of state.now frame.now }
{
    if state.is_free(frame.executor) {
        Some(Act::Dispatch)
    } else {
        None
    }
}

fn execution_of(effect: Effect) -> Option<Act>
    ensures { result ≡ execution_of effect }
{
    if matches!(effect, Effect::Stuck) {
        return None;
    }
    Some(Act::Execute { effect })
}

/// Lets a job do an act. Where memory runs out it leaves the state as it was. With the act of an
/// item this is the item's step.
pub fn perform(alloc: Global, state: &mut State, item: u32, act: Act) -> Result<Event, AllocError>
    ensures ok { OnOk result (state.new ≡ after_act item act state.old) }
    ensures event { IfOk result (λ event. event ≡ act_event act) }
    ensures err { OnErr result (state.new ≡ state.old) }
{
    match act {
        Act::Dispatch => {
            state.dispatch(item)?;
            Ok(Event::Dispatched)
        }
        Act::Wake { ended, reg, value } => {
            state.wake(item, reg, value);
            Ok(Event::Woken { ended })
        }
        Act::Execute { effect } => apply(alloc, state, item, effect),
    }
}
