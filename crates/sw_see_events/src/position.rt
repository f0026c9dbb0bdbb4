//! Where a job stands in the source.

ghost use Rattle.std.specs.Prelude.{◌≡◌};
ghost use Rattle.sw_see_events.specs.Position.{frame_position, instr_at, job_position, last_at};

use sw_graph::{Graph, Instr, Last, Point};
use sw_value::{Frame, Job};

/// The byte offset of an instruction.
fn instr_at(instr: &Instr) -> u32
    ensures { result ≡ instr_at instr.now }
{
    match instr {
        Instr::Const { at, .. }
        | Instr::Un { at, .. }
        | Instr::Bin { at, .. }
        | Instr::Print { at, .. }
        | Instr::Copy { at, .. }
        | Instr::Field { at, .. }
        | Instr::Payload { at, .. }
        | Instr::SetField { at, .. }
        | Instr::Make { at, .. }
        | Instr::NewObject { at, .. }
        | Instr::NewBox { at, .. }
        | Instr::NewActor { at, .. }
        | Instr::LoadBox { at, .. }
        | Instr::StoreBox { at, .. }
        | Instr::LoadProp { at, .. }
        | Instr::StoreProp { at, .. }
        | Instr::LoadGlobal { at, .. }
        | Instr::StoreGlobal { at, .. }
        | Instr::NewClosure { at, .. }
        | Instr::Call { at, .. }
        | Instr::CallClosure { at, .. }
        | Instr::NewTask { at, .. }
        | Instr::Await { at, .. }
        | Instr::Yield { at, .. } => *at,
    }
}

/// The byte offset of what the last instruction of a block reads, if it reads something.
fn last_at(last: &Last) -> Option<u32>
    ensures { result ≡ last_at last.now }
{
    match last {
        Last::Jump { .. } | Last::Return { value: None } => None,
        Last::Branch { condition, .. } => Some(condition.at),
        Last::Switch { subject, .. } => Some(subject.at),
        Last::Return { value: Some(value) } => Some(value.at),
    }
}

/// Where a frame stands.
fn frame_position(graph: &Graph, frame: &Frame) -> Option<u32>
    ensures { result ≡ frame_position graph.now frame.now }
{
    match frame.point_at(graph)? {
        Point::Middle(instr) => Some(instr_at(instr)),
        Point::End(last) => last_at(last),
    }
}

/// Where a job stands.
pub fn job_position(graph: &Graph, job: &Job) -> Option<u32>
    ensures { result ≡ job_position graph.now job.now }
{
    frame_position(graph, job.top_frame()?)
}
