//! The certificate of a graph.
ghost use Rattle.std.specs.Prelude.{◌≡◌, ◌<◌, ◌≤◌, Some, length, slice_get, option_map, IfOk, OnOk};
ghost use Rattle.sw_cert.specs.declared.verdict.TheConstants.{CERTIFICATE_LIMIT};
ghost use Rattle.sw_graph.specs.declared.function.Function.{Function};
ghost use Rattle.sw_solve.specs.Annotation.{value_at};
ghost use Rattle.sw_cert_making.specs.Made.{IsLineAdded, AreLinesWithin, IsFunctionWithin};
ghost use Rattle.sw_cert_making.specs.Printed.{IsPrinted};

use std::alloc::{AllocError, Global};
use std::marker::Brand;
use std::sync::ledger::{Blank, Ledger};
use sw_cert::{CERTIFICATE_LIMIT, line_of};
use sw_graph::Graph;
use sw_partition::Partition;
use sw_region_flow::states;
use sw_solve::{Solution, Steps};

/// Adds the line of a block, if control comes to it.
fn add_line(
    alloc: Global,
    text: &mut Vec<u8>,
    function: u32,
    block: u32,
    states: &Solution<Partition>,
) -> Result<(), AllocError>
    ensures { OnOk result (IsLineAdded function block (value_at states.now block)
        text.old.items text.new.items) }
{
    let Some(state) = states.at(block) else {
        return Ok(());
    };
    let line = line_of(alloc, function, block, state)?;
    text.extend_from_slice(&line)?;
    Ok(())
}

/// Adds the lines of the first blocks of a function, and answers whether the text is within the
/// limit with them. It stops behind the first line that passes the limit.
fn add_lines(
    alloc: Global,
    text: &mut Vec<u8>,
    function: u32,
    blocks: u32,
    states: &Solution<Partition>,
) -> Result<bool, AllocError>
    requires { length text.old.items ≤ CERTIFICATE_LIMIT }
    ensures { IfOk result (AreLinesWithin function states.now blocks
        text.old.items text.new.items) }
{
    for block in 0..blocks {
        add_line(alloc, text, function, block, states)?;
        if text.len() > CERTIFICATE_LIMIT {
            return Ok(false);
        }
    }
    Ok(true)
}

/// Adds the lines of a function, and answers whether the text is within the limit with them.
fn add_function<L: Ledger>(
    alloc: Global,
    text: &mut Vec<u8>,
    graph: &Graph,
    function: u32,
    steps: &mut Steps<L>,
) -> Result<bool, AllocError>
    requires function { function < length graph.now.functions }
    requires within { length text.old.items ≤ CERTIFICATE_LIMIT }
    ensures { IfOk result (λ within. (body : Function)
        → slice_get graph.now.functions function ≡ Some body
        → IsFunctionWithin graph.now function body text.old.items text.new.items within) }
{
    let states = states(alloc, graph, function, steps)?;
    let blocks = graph.functions.as_slice()[function as usize].blocks.len();
    add_lines(alloc, text, function, blocks as u32, &states)
}

/// The lines of all functions, if they aren't too many. The blank is that of a counter of steps.
fn lines_of<L: Ledger>(
    alloc: Global,
    graph: &Graph,
    blank: Blank,
) -> Result<Option<Vec<u8>>, AllocError>
    requires name { blank.name ≡ L.name }
    requires parts { blank.parts ≡ L.parts }
    requires part { 0 < blank.parts }
    ensures { IfOk result (λ printed.
        IsPrinted graph.now (option_map (λ text. text.items) printed)) }
{
    let mut steps = Steps::<L>::new(blank);
    let mut text = Vec::new(alloc);
    for function in 0..graph.functions.len() {
        let within = add_function(alloc, &mut text, graph, function as u32, &mut steps)?;
        if !within {
            return Ok(None);
        }
    }
    Ok(Some(text))
}

/// The certificate of a graph: the lines of the least annotations, at all blocks to which a path
/// leads. None where it has more bytes than a certificate may have.
pub fn certificate(alloc: Global, graph: &Graph) -> Result<Option<Vec<u8>>, AllocError>
    ensures { IfOk result (λ printed.
        IsPrinted graph.now (option_map (λ text. text.items) printed)) }
{
    lines_of::<Brand>(alloc, graph, Blank::new(1))
}
