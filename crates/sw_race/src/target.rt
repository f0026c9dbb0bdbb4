ghost use Rattle.std.specs.Prelude.{◌≡◌};
ghost use Rattle.sw_race.specs.Target.{read_of, write_of, instr_target, frame_target, job_target};
ghost use Rattle.sw_race.specs.Target.{target_at};

use crate::access::global_at;
use sw_graph::{Graph, Instr, Point};
use sw_value::{Frame, Job, Place, State};

/// The location that the next instruction of a running job names, whether or not it is there, and
/// whether the instruction writes it.
#[derive(Clone, Copy, Debug)]
pub struct Target {
    pub place: Place,
    pub writes: bool,
}

/// The target of the job with a number, if there is that job and it has one.
pub fn target_at(graph: &Graph, state: &State, job: u32) -> Option<Target>
    ensures { result ≡ target_at graph.now state.now job }
{
    job_target(graph, state.jobs.get(job as usize)?)
}

/// The target of a job, if it runs and its next instruction has one.
pub fn job_target(graph: &Graph, job: &Job) -> Option<Target>
    ensures { result ≡ job_target graph.now job.now }
{
    if !job.is_running() {
        return None;
    }
    frame_target(graph, job.top_frame()?)
}

fn frame_target(graph: &Graph, frame: &Frame) -> Option<Target>
    ensures { result ≡ frame_target graph.now frame.now }
{
    match frame.point_at(graph) {
        None => None,
        Some(Point::Middle(instr)) => instr_target(graph, frame, instr),
        Some(Point::End(_)) => None,
    }
}

fn instr_target(graph: &Graph, frame: &Frame, instr: &Instr) -> Option<Target>
    ensures { result ≡ instr_target graph.now frame.now instr.now }
{
    match instr {
        Instr::LoadBox { cell, .. } => Some(read_of(Place::BoxOf(frame.reference_at(cell)?))),
        Instr::StoreBox { cell, .. } => Some(write_of(Place::BoxOf(frame.reference_at(cell)?))),
        Instr::LoadProp { cell, part, .. } => Some(read_of(Place::Prop {
            cell: frame.reference_at(cell)?,
            part: *part,
        })),
        Instr::StoreProp { cell, part, .. } => Some(write_of(Place::Prop {
            cell: frame.reference_at(cell)?,
            part: *part,
        })),
        Instr::LoadGlobal { global, .. } => Some(read_of(global_at(graph, *global)?)),
        Instr::StoreGlobal { global, .. } => Some(write_of(global_at(graph, *global)?)),
        Instr::Const { .. }
        | Instr::Un { .. }
        | Instr::Bin { .. }
        | Instr::Print { .. }
        | Instr::Copy { .. }
        | Instr::Field { .. }
        | Instr::Payload { .. }
        | Instr::SetField { .. }
        | Instr::Make { .. }
        | Instr::NewObject { .. }
        | Instr::NewBox { .. }
        | Instr::NewActor { .. }
        | Instr::NewClosure { .. }
        | Instr::Call { .. }
        | Instr::CallClosure { .. }
        | Instr::NewTask { .. }
        | Instr::Await { .. }
        | Instr::Yield { .. } => None,
    }
}

fn read_of(place: Place) -> Target
    ensures { result ≡ read_of place }
{
    Target {
        place,
        writes: false,
    }
}

fn write_of(place: Place) -> Target
    ensures { result ≡ write_of place }
{
    Target {
        place,
        writes: true,
    }
}
