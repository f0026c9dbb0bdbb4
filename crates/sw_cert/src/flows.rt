//! The flows of a graph's functions, and what a certificate depends on of each.
ghost use Rattle.std.specs.Prelude.{◌≡◌, ◌<◌, Some, map, length, slice_get, IfOk};
ghost use Rattle.std.specs.List.{AllByRecursion};
ghost use Rattle.sw_graph.specs.declared.function.Function.{Function};
ghost use Rattle.sw_cert.specs.Begun.{IsForm};
ghost use Rattle.sw_cert.specs.Flows.{IsSized, IsFlowOf, AreFlows, AreSized, extent_for, IsSmall};
ghost use Rattle.sw_cert.specs.Flows.{IsMostOf};

use crate::form::{Form, scale};
use crate::line::Extent;
use std::alloc::{AllocError, Global};
use sw_graph::Graph;
use sw_list::ListOf;
use sw_partition::Partition;
use sw_region_flow::BlockFlow;

/// The flow of a function's blocks, and the state at its entry.
#[derive(Drop)]
pub(crate) struct FunctionFlow<'a> {
    pub blocks: BlockFlow<'a>,
    pub entry: Partition,
}

/// The flow of a function.
fn flow_of<'a>(
    alloc: Global,
    graph: &'a Graph,
    function: usize,
) -> Result<FunctionFlow<'a>, AllocError>
    requires { function < length graph.now.functions }
    ensures flow { IfOk result (λ flow. (body : Function)
        → slice_get graph.now.functions function ≡ Some body → IsFlowOf graph.now body flow) }
    ensures sized { IfOk result IsSized }
{
    let blocks = BlockFlow::new(alloc, graph, function)?;
    let entry = blocks.enter(alloc)?;
    Ok(FunctionFlow { blocks, entry })
}

/// The flows of all functions, in order.
pub(crate) fn flows_of<'a>(
    alloc: Global,
    graph: &'a Graph,
) -> Result<ListOf<FunctionFlow<'a>>, AllocError>
    ensures flows { IfOk result (AreFlows graph.now) }
    ensures sized { IfOk result AreSized }
{
    let count = graph.functions.len();
    let mut flows = ListOf::from_vec(Vec::with_capacity(alloc, count)?);
    for function in 0..count {
        flows.push(flow_of(alloc, graph, function)?)?;
    }
    Ok(flows)
}

/// What a certificate depends on of a function.
fn extent_of(alloc: Global, flow: &FunctionFlow) -> Result<Extent, AllocError>
    ensures value { IfOk result (λ extent. extent ≡ extent_for flow.now) }
    ensures small { IfOk result IsSmall }
{
    let mut sites = ListOf::new(alloc);
    let given = flow.entry.sites();
    for site in given {
        sites.push(*site as u64)?;
    }
    Ok(Extent {
        blocks: flow.blocks.blocks() as u64,
        elements: flow.entry.elements() as u64,
        sites,
    })
}

/// What it depends on of all functions.
fn extents_of(alloc: Global, flows: &[FunctionFlow]) -> Result<ListOf<Extent>, AllocError>
    ensures value { IfOk result (λ extents. extents ≡ map extent_for flows.now) }
    ensures small { IfOk result (AllByRecursion IsSmall) }
{
    let mut extents = ListOf::from_vec(Vec::with_capacity(alloc, flows.len())?);
    for flow in flows {
        extents.push(extent_of(alloc, flow)?)?;
    }
    Ok(extents)
}

/// A number past all that a line may name, but the number of its pairs.
fn most_of(extents: &[Extent]) -> usize
    requires { AllByRecursion IsSmall extents.now }
    ensures { IsMostOf extents.now (length extents.now) result }
{
    let mut most: usize = extents.len();
    for extent in extents {
        most = most
            .max(extent.blocks as usize)
            .max(extent.elements as usize + 1);
    }
    most
}

/// The form of the certificates of a graph with these flows.
pub(crate) fn form_of(alloc: Global, flows: &[FunctionFlow]) -> Result<Form, AllocError>
    requires { AreSized flows.now }
    ensures form { IfOk result IsForm }
    ensures extents { IfOk result (λ form. form.extents ≡ map extent_for flows.now) }
{
    let extents = extents_of(alloc, flows)?;
    let count = most_of(extents.as_slice());
    let scale = scale(alloc, count)?;
    Ok(Form { extents, scale })
}
