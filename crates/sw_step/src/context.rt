use std::alloc::Global;
use sw_graph::Graph;
use sw_value::{Frame, State};

/// What the effect of an instruction depends on besides the instruction.
#[derive(Clone, Copy)]
pub struct Context<'a> {
    /// Where an effect takes its memory.
    pub alloc: Global,
    pub graph: &'a Graph,
    pub state: &'a State,
    /// The top frame of the job, which stands at the instruction.
    pub frame: &'a Frame,
    /// How many frames the job has.
    pub depth: usize,
    /// The point at which the frame goes on after the instruction.
    pub next: u32,
}
