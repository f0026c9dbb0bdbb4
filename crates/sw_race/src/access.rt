ghost use Rattle.std.specs.Prelude.{◌≡◌, ℕ};
ghost use Rattle.sw_value.specs.Access.{box_at, is_var_part, var_part, part_at, global_at};
ghost use Rattle.sw_value.specs.Access.{read_by, write_by};
ghost use Rattle.sw_value.specs.Access.{frame_access, job_access, next_access};
ghost use Rattle.sw_race.specs.Live.{box_of, var_part_of, live_access};

use sw_graph::{Graph, Instr, Operand, Point};
use sw_value::{Access, Frame, HeapCell, Job, Place, State, ValueList, value_in};

/// The access that a job makes next: none where the machine is halted, there is no job with that
/// number, it does not run, or its next instruction is stuck or accesses no location.
#[tactic(auto, unfolding(sw_value::specs::Access::next_access))]
pub fn next_access(graph: &Graph, state: &State, job: u32) -> Option<Access>
    ensures { result ≡ next_access graph.now state.now job }
{
    if state.halted.is_some() {
        return None;
    }
    job_access(graph, state, job, state.jobs.get(job as usize)?)
}

fn job_access(graph: &Graph, state: &State, number: u32, job: &Job) -> Option<Access>
    ensures { result ≡ job_access graph.now state.now number job.now }
{
    if !job.is_running() {
        return None;
    }
    frame_access(graph, state, number, job.top_frame()?)
}

#[tactic(auto, using(crate::proofs::LiveLemmas::lives))]
fn frame_access(graph: &Graph, state: &State, job: u32, frame: &Frame) -> Option<Access>
    ensures { (depth : ℕ) → result ≡ frame_access graph.now state.now job depth frame.now }
{
    match frame.point_at(graph) {
        None => None,
        Some(Point::Middle(instr)) => live_access(graph, state, job, frame, instr),
        Some(Point::End(_)) => None,
    }
}

fn live_access(
    graph: &Graph,
    state: &State,
    job: u32,
    frame: &Frame,
    instr: &Instr,
) -> Option<Access>
    ensures { result ≡ live_access graph.now state.now job frame.now instr.now }
{
    match instr {
        Instr::LoadBox { at, cell, .. } => Some(read_by(job, *at, box_of(state, frame, cell)?)),
        Instr::StoreBox { at, cell, src } => {
            let _value = frame.value_at(src.reg)?;
            Some(write_by(job, *at, box_of(state, frame, cell)?))
        }
        Instr::LoadProp { at, cell, part, .. } => {
            Some(read_by(job, *at, var_part_of(graph, state, frame, cell, *part)?))
        }
        Instr::StoreProp {
            at,
            cell,
            part,
            src,
        } => {
            let _value = frame.value_at(src.reg)?;
            Some(write_by(job, *at, var_part_of(graph, state, frame, cell, *part)?))
        }
        Instr::LoadGlobal { at, global, .. } => {
            let _value = value_in(&state.globals, *global)?;
            Some(read_by(job, *at, global_at(graph, *global)?))
        }
        Instr::StoreGlobal { at, global, src } => {
            let _value = frame.value_at(src.reg)?;
            let _old = state.globals.get(*global as usize)?;
            Some(write_by(job, *at, global_at(graph, *global)?))
        }
        Instr::Const { .. }
        | Instr::Un { .. }
        | Instr::Bin { .. }
        | Instr::Print { .. }
        | Instr::Copy { .. }
        | Instr::Field { .. }
        | Instr::Payload { .. }
        | Instr::SetField { .. }
        | Instr::Make { .. }
        | Instr::NewObject { .. }
        | Instr::NewBox { .. }
        | Instr::NewActor { .. }
        | Instr::NewClosure { .. }
        | Instr::Call { .. }
        | Instr::CallClosure { .. }
        | Instr::NewTask { .. }
        | Instr::Await { .. }
        | Instr::Yield { .. } => None,
    }
}

fn read_by(job: u32, at: u32, place: Place) -> Access
    ensures { result ≡ read_by job at place }
{
    Access {
        job,
        at,
        place,
        writes: false,
    }
}

fn write_by(job: u32, at: u32, place: Place) -> Access
    ensures { result ≡ write_by job at place }
{
    Access {
        job,
        at,
        place,
        writes: true,
    }
}

/// The box of an operand.
fn box_of(state: &State, frame: &Frame, operand: &Operand) -> Option<Place>
    ensures { result ≡ box_of state.now frame.now operand.now }
{
    box_at(state, frame.reference_at(operand)?)
}

fn box_at(state: &State, cell: u32) -> Option<Place>
    ensures { result ≡ box_at state.now cell }
{
    match state.cells.get(cell as usize)? {
        HeapCell::BoxOf { .. } => Some(Place::BoxOf(cell)),
        HeapCell::Object { .. }
        | HeapCell::Actor { .. }
        | HeapCell::Closure { .. }
        | HeapCell::TaskOf { .. } => None,
    }
}

/// A part of the object or actor of an operand, if it is a `var`.
fn var_part_of(
    graph: &Graph,
    state: &State,
    frame: &Frame,
    operand: &Operand,
    part: usize,
) -> Option<Place>
    ensures { result ≡ var_part_of graph.now state.now frame.now operand.now part }
{
    part_at(graph, state, part, frame.reference_at(operand)?)
}

fn part_at(graph: &Graph, state: &State, part: usize, cell: u32) -> Option<Place>
    ensures { result ≡ part_at graph.now state.now part cell }
{
    match state.cells.get(cell as usize)? {
        HeapCell::Object { shape, parts } => var_part(graph, cell, part, *shape, parts),
        HeapCell::Actor { shape, parts } => var_part(graph, cell, part, *shape, parts),
        HeapCell::BoxOf { .. } | HeapCell::Closure { .. } | HeapCell::TaskOf { .. } => None,
    }
}

fn var_part(graph: &Graph, cell: u32, part: usize, shape: u32, parts: &ValueList) -> Option<Place>
    ensures { result ≡ var_part graph.now cell part shape parts.now }
{
    let _value = parts.get(part)?;
    if is_var_part(graph, shape, part) {
        Some(Place::Prop { cell, part })
    } else {
        None
    }
}

/// Whether a part of a shape is a `var`.
fn is_var_part(graph: &Graph, shape: u32, part: usize) -> bool
    ensures { result ≡ is_var_part graph.now.shapes shape part }
{
    match graph.shapes.list().get(shape as usize) {
        None => false,
        Some(shape) => match shape.parts.get(part) {
            None => false,
            Some(part) => part.mutable,
        },
    }
}

/// The global with a number, if it is a `var`.
pub fn global_at(graph: &Graph, global: u32) -> Option<Place>
    ensures { result ≡ global_at graph.now global }
{
    if graph.globals.get(global as usize)?.mutable {
        Some(Place::Global(global))
    } else {
        None
    }
}
