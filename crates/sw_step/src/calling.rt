ghost use Rattle.std.specs.Prelude.{◌≡◌, ◌<◌, ◌++◌, IfOk, option_and_then, length};
ghost use Rattle.sw_value.specs.Call.{called_frame, closure_frame};
ghost use Rattle.sw_value.specs.Effect.{needs, cell_at, enter_of, spawn_of};
ghost use Rattle.sw_value.specs.Frame.{first_frame};
ghost use Rattle.sw_value.specs.Value.{values_at};

use crate::context::Context;
use crate::operands::values_at;
use crate::reading::cell_at;
use std::alloc::{AllocError, Global};
use sw_graph::{Operand, OperandList};
use sw_list::ListOf;
use sw_types::CallKind;
use sw_value::{Effect, Frame, HeapCell, MAX_FRAMES, MAX_JOBS, TrapKind, ValueList, first_frame};

/// A function is called with some operands.
pub fn call_effect(
    context: &Context<'_>,
    at: u32,
    reg: u32,
    kind: CallKind,
    function: u32,
    operands: &OperandList,
) -> Result<Effect, AllocError>
    ensures { IfOk result (λ effect. effect
        ≡ needs (values_at context.now.frame.now.regs operands.now)
        (λ values. needs
        (called_frame context.now.graph.now context.now.frame.now function kind reg values)
        (enter_of context.now.depth context.now.next at))) }
{
    let alloc = context.alloc;
    let Some(values) = values_at(alloc, context.frame, operands)? else {
        return Ok(Effect::Stuck);
    };
    match context
        .frame
        .called(alloc, context.graph, function, kind, reg, values)?
    {
        None => Ok(Effect::Stuck),
        Some(callee) => Ok(enter_of(context, at, callee)),
    }
}

/// A closure is called with some operands.
pub fn closure_call_effect(
    context: &Context<'_>,
    at: u32,
    reg: u32,
    closure: &Operand,
    operands: &OperandList,
) -> Result<Effect, AllocError>
    ensures { IfOk result (λ effect. effect
        ≡ needs (values_at context.now.frame.now.regs operands.now)
        (λ values. needs
        (option_and_then (closure_frame context.now.graph.now context.now.frame.now reg values)
        (cell_at context.now.state.now context.now.frame.now closure.now))
        (enter_of context.now.depth context.now.next at))) }
{
    let Some(values) = values_at(context.alloc, context.frame, operands)? else {
        return Ok(Effect::Stuck);
    };
    let Some(cell) = cell_at(context, closure) else {
        return Ok(Effect::Stuck);
    };
    match closure_frame(context, reg, values, cell)? {
        None => Ok(Effect::Stuck),
        Some(callee) => Ok(enter_of(context, at, callee)),
    }
}

/// A task is made, which captures some operands.
pub fn task_effect(
    context: &Context<'_>,
    at: u32,
    reg: u32,
    function: u32,
    operands: &OperandList,
) -> Result<Effect, AllocError>
    requires cells { length context.now.state.now.cells < 4294967295 }
    ensures { IfOk result (λ effect. effect
        ≡ needs (values_at context.now.frame.now.regs operands.now)
        (λ captures. needs (first_frame context.now.graph.now function captures)
        (spawn_of context.now.state.now context.now.next at reg))) }
{
    let Some(captures) = values_at(context.alloc, context.frame, operands)? else {
        return Ok(Effect::Stuck);
    };
    match first_frame(context.alloc, context.graph, function, captures)? {
        None => Ok(Effect::Stuck),
        Some(first) => Ok(spawn_of(context, at, reg, first)),
    }
}

/// A frame is pushed, unless the job has all the frames that it may have.
fn enter_of(context: &Context<'_>, at: u32, frame: Frame) -> Effect
    ensures { result ≡ enter_of context.now.depth context.now.next at frame }
{
    if context.depth >= MAX_FRAMES {
        return Effect::Halt {
            kind: TrapKind::Frames,
            at,
        };
    }
    Effect::Enter {
        frame,
        next: context.next,
    }
}

/// A task is made, unless there are all the jobs that there may be.
fn spawn_of(context: &Context<'_>, at: u32, reg: u32, frame: Frame) -> Effect
    requires cells { length context.now.state.now.cells < 4294967295 }
    ensures { result ≡ spawn_of context.now.state.now context.now.next at reg frame }
{
    let state = context.state;
    let jobs = state.jobs.len();
    if jobs >= MAX_JOBS {
        return Effect::Halt {
            kind: TrapKind::Jobs,
            at,
        };
    }
    Effect::Spawn {
        reg,
        frame,
        job: jobs as u32,
        cell: state.cells.len() as u32,
        next: context.next,
    }
}

/// The frame of a call of a closure, or `None` where the cell is no closure or names no function.
fn closure_frame(
    context: &Context<'_>,
    reg: u32,
    values: ValueList,
    cell: &HeapCell,
) -> Result<Option<Frame>, AllocError>
    ensures { IfOk result (λ callee. callee
        ≡ closure_frame context.now.graph.now context.now.frame.now reg values cell.now) }
{
    let alloc = context.alloc;
    match cell {
        HeapCell::Closure { function, captures } => {
            let all = joined(alloc, captures, values)?;
            context
                .frame
                .called(alloc, context.graph, *function, CallKind::Plain, reg, all)
        }
        HeapCell::Object { .. }
        | HeapCell::Actor { .. }
        | HeapCell::BoxOf { .. }
        | HeapCell::TaskOf { .. } => Ok(None),
    }
}

/// Copies of what a closure captures, and then the values.
fn joined(alloc: Global, captures: &ValueList, values: ValueList) -> Result<ValueList, AllocError>
    ensures { IfOk result (λ all. all ≡ captures.now ++ values) }
{
    let mut all = copies(alloc, captures)?;
    for value in values.into_vec() {
        all.push(value)?;
    }
    Ok(all)
}

fn copies(alloc: Global, values: &ValueList) -> Result<ValueList, AllocError>
    ensures { IfOk result (λ copies. copies ≡ values.now) }
{
    let mut copies = ListOf::new(alloc);
    for value in values.as_slice() {
        copies.push(value.copied(alloc)?)?;
    }
    Ok(copies)
}
