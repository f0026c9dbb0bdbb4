ghost use Rattle.std.specs.Prelude.{◌≡◌, ◌++◌, ◌-◌, IfOk, OnOk, [], length, replicate};
ghost use Rattle.std.specs.Option.{option_to_list};
ghost use Rattle.sw_value.specs.Value.{registers};
ghost use Rattle.sw_value.specs.Frame.{first_frame, first_frame_of};
ghost use Rattle.sw_value.specs.Start.{start_frames, start_of};

use crate::executor::Executor;
use crate::frame::{Frame, FrameList, NO_REGISTER};
use crate::job::{Job, Status};
use crate::state::State;
use crate::value::{ValueList, ValueSlots};
use std::alloc::{AllocError, Global};
use sw_graph::Graph;
use sw_list::ListOf;
use sw_types::Iso;

/// The state before any item: no cells, globals without value, and one job that has not run yet.
/// Its frames are from the bottom the entry and then the functions of the globals' first values,
/// the first global's on top.
#[tactic(auto, unfolding(crate::specs::Start::start_of, crate::specs::Job::new_job))]
pub fn start(alloc: Global, graph: &Graph) -> Result<State, AllocError>
    ensures { IfOk result (λ state. state ≡ start_of graph.now) }
{
    let mut globals = ListOf::new(alloc);
    add_empty(&mut globals, graph.globals.len())?;
    let mut jobs = ListOf::new(alloc);
    jobs.push(Job {
        frames: start_frames(alloc, graph)?,
        status: Status::Ready,
    })?;
    State::new(alloc, ListOf::new(alloc), globals, jobs)
}

#[tactic(auto, unfolding(crate::specs::Start::start_frames))]
fn start_frames(alloc: Global, graph: &Graph) -> Result<FrameList, AllocError>
    ensures { IfOk result (λ frames. frames ≡ start_frames graph.now) }
{
    let mut frames = ListOf::new(alloc);
    add_first_frame(alloc, graph, graph.entry, &mut frames)?;
    for i in (0..graph.starts.len()).rev() {
        add_first_frame(alloc, graph, *graph.starts.at(i), &mut frames)?;
    }
    Ok(frames)
}

fn add_first_frame(
    alloc: Global,
    graph: &Graph,
    number: u32,
    frames: &mut FrameList,
) -> Result<(), AllocError>
    ensures { OnOk result (frames.new ≡ frames.old
        ++ option_to_list (first_frame graph.now number [])) }
{
    if let Some(frame) = first_frame(alloc, graph, number, ListOf::new(alloc))? {
        frames.push(frame)?;
    }
    Ok(())
}

/// The frame that begins a function with values in its first registers, at the bottom of a job or
/// as the frame of a first value. There is none where there is no such function, or where it is
/// isolated to a `self` that the values lack.
#[tactic(auto, unfolding(crate::specs::Frame::first_frame))]
pub fn first_frame(
    alloc: Global,
    graph: &Graph,
    number: u32,
    values: ValueList,
) -> Result<Option<Frame>, AllocError>
    ensures { IfOk result (λ frame. frame ≡ first_frame graph.now number values) }
{
    match graph.functions.get(number as usize) {
        None => Ok(None),
        Some(function) => {
            let regs = registers(alloc, function.regs.len(), values)?;
            Ok(first_frame_of(number, function.iso, regs))
        }
    }
}

fn first_frame_of(number: u32, iso: Iso, regs: ValueSlots) -> Option<Frame>
    ensures { result ≡ first_frame_of number iso regs }
{
    match Executor::of_isolation(iso, &regs) {
        None => None,
        Some(executor) => Some(Frame {
            function: number,
            point: 0,
            regs,
            executor,
            crossing: true,
            result: NO_REGISTER,
        }),
    }
}

/// Registers of which the first have values.
#[tactic(auto, unfolding(crate::specs::Value::registers))]
pub fn registers(alloc: Global, count: usize, values: ValueList) -> Result<ValueSlots, AllocError>
    ensures { IfOk result (λ regs. regs ≡ registers count values) }
{
    let filled = values.len();
    let mut regs = ListOf::new(alloc);
    for value in values.into_vec() {
        regs.push(Some(value))?;
    }
    add_empty(&mut regs, count.saturating_sub(filled))?;
    Ok(regs)
}

/// Adds `count` slots without value.
fn add_empty(slots: &mut ValueSlots, count: usize) -> Result<(), AllocError>
    ensures { OnOk result (slots.new ≡ slots.old ++ replicate count None) }
{
    for _slot in 0..count {
        slots.push(None)?;
    }
    Ok(())
}
