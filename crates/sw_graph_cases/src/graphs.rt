use crate::instructions::{instr_text, last_text};
use crate::types::{kind_text, type_text, types_text};
use std::io;
use sw_graph::{Block, Function, GlobalKind, Graph};
use sw_types::Shape;

/// Prints a shape: its head, then its parts, then what each of its cases has, one a line.
fn print_shape<R: Print + AllocGlobal>(rt: &R, number: usize, shape: &Shape) -> io::Result<()> {
    let Shape {
        kind,
        at,
        conforms,
        actor,
        parts,
        cases,
    } = shape;
    println!(rt; "shape {number} at {at} {kind:?} conforms={conforms} actor={actor:?}")?;
    for part in parts.as_slice() {
        let ty = type_text(rt.alloc(), &part.ty)?;
        let mutable = part.mutable;
        println!(rt; "  part {ty} mutable={mutable}")?;
    }
    for case in cases.as_slice() {
        let payload = types_text(rt.alloc(), case.payload.as_slice())?;
        println!(rt; "  case {payload}")?;
    }
    Ok(())
}

/// Prints a global variable.
fn print_global<R: Print + AllocGlobal>(
    rt: &R,
    number: usize,
    global: &GlobalKind,
) -> io::Result<()> {
    let ty = type_text(rt.alloc(), &global.ty)?;
    let mutable = global.mutable;
    let actor = global.actor;
    println!(rt; "global {number} {ty} mutable={mutable} actor={actor:?}")
}

/// Prints a block: its instructions and its last instruction, one a line.
fn print_block<R: Print + AllocGlobal>(rt: &R, number: usize, block: &Block) -> io::Result<()> {
    println!(rt; "  block {number}")?;
    for instr in block.instrs.as_slice() {
        let text = instr_text(rt.alloc(), instr)?;
        println!(rt; "    {text}")?;
    }
    let text = last_text(rt.alloc(), &block.last)?;
    println!(rt; "    {text}")
}

/// Prints the line that begins a function.
fn print_head<R: Print + AllocGlobal>(
    rt: &R,
    number: usize,
    function: &Function,
) -> io::Result<()> {
    let Function {
        key,
        iso,
        is_async,
        takes,
        sending,
        sends,
        result,
        ..
    } = function;
    let sending = sending.as_slice();
    let result = type_text(rt.alloc(), result)?;
    print!(rt; "function {number} key {key} {iso:?} async={is_async} takes {takes} ")?;
    println!(rt; "sending {sending:?} sends={sends} result {result}")
}

/// Prints a function: its head, then the kinds of its registers, then its blocks.
fn print_function<R: Print + AllocGlobal>(
    rt: &R,
    number: usize,
    function: &Function,
) -> io::Result<()> {
    print_head(rt, number, function)?;
    for (register, kind) in function.regs.as_slice().iter().enumerate() {
        let text = kind_text(rt.alloc(), kind)?;
        println!(rt; "  r{register}: {text}")?;
    }
    for (number, block) in function.blocks.as_slice().iter().enumerate() {
        print_block(rt, number, block)?;
    }
    Ok(())
}

/// Prints a graph.
pub fn print_graph<R: Print + AllocGlobal>(rt: &R, graph: &Graph) -> io::Result<()> {
    let entry = graph.entry;
    let starts = graph.starts.as_slice();
    println!(rt; "entry {entry} starts {starts:?}")?;
    for (number, shape) in graph.shapes.list().as_slice().iter().enumerate() {
        print_shape(rt, number, shape)?;
    }
    for (number, global) in graph.globals.as_slice().iter().enumerate() {
        print_global(rt, number, global)?;
    }
    for (number, function) in graph.functions.as_slice().iter().enumerate() {
        print_function(rt, number, function)?;
    }
    Ok(())
}
