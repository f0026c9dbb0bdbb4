//! The coloured state before any item.
ghost use Rattle.std.specs.Prelude.{◌≡◌, ◌≤◌, IfOk, OnOk};
ghost use Rattle.sw_value.specs.Start.{start_of};
ghost use Rattle.sw_color_rules.specs.Machine.{actors_to, global_count, global_colors, started};
ghost use Rattle.sw_color_rules.specs.Machine.{start_colors, colored_start};

use crate::colors::{next_color, number_on, push_here};
use crate::palette;
use std::alloc::{AllocError, Global};
use sw_color_rules::{Colored, Colors, Owner, Palette};
use sw_graph::{Function, Graph};
use sw_list::ListOf;
use sw_types::Iso;
use sw_value::{Frame, State, start};

/// The state before any item, with its colours.
pub fn color_start(alloc: Global, graph: &Graph) -> Result<Colored, AllocError>
    ensures { IfOk result (λ colored. colored ≡ colored_start graph.now) }
{
    let state = start(alloc, graph)?;
    let colors = start_colors(alloc, graph, &state)?;
    Ok(Colored { state, colors })
}

/// The colours of the state before any item.
#[tactic(auto, unfolding(sw_value::specs::Start::start_of, sw_value::specs::Job::new_job, sw_color_rules::specs::Machine::start_colors))]
fn start_colors(alloc: Global, graph: &Graph, state: &State) -> Result<Colors, AllocError>
    requires { state.now ≡ start_of graph.now }
    ensures { IfOk result (λ colors. colors ≡ start_colors graph.now) }
{
    let mut colors = Colors {
        cells: ListOf::new(alloc),
        palette: global_colors(alloc, global_count(graph.functions.as_slice()))?,
        heres: ListOf::one(alloc, ListOf::new(alloc))?,
    };
    for frame in state.jobs.at(0).frames.as_slice() {
        start_frame(&mut colors, frame)?;
    }
    Ok(colors)
}

/// Gives a frame of the first job its `Here`.
#[tactic(auto, unfolding(sw_color_rules::specs::Machine::started))]
fn start_frame(colors: &mut Colors, frame: &Frame) -> Result<(), AllocError>
    ensures { OnOk result (colors.new ≡ started colors.old frame.now) }
{
    match number_on(colors, frame.executor) {
        Some(number) => push_here(colors, 0, number),
        None => {
            let number = next_color(colors);
            palette::make(&mut colors.palette, Owner::Job(0))?;
            push_here(colors, 0, number)
        }
    }
}

fn actors_to(iso: Iso) -> usize
    ensures value { result ≡ actors_to iso }
    ensures few { result ≤ 4294967296 }
{
    match iso {
        Iso::Global(actor) => actor as usize + 1,
        Iso::Free | Iso::Own | Iso::Caller => 0,
    }
}

/// How many global actors there are.
#[tactic(auto, using(crate::proofs::FoldLemmas::count_next))]
fn global_count(functions: &[Function]) -> usize
    ensures value { result ≡ global_count functions.now }
    ensures few { result ≤ 4294967296 }
{
    let mut count = 0;
    for function in functions {
        let named = actors_to(function.iso);
        if count < named {
            count = named;
        }
    }
    count
}

/// Each global actor has one colour.
#[tactic(auto, using(crate::proofs::FoldLemmas::colors_next))]
fn global_colors(alloc: Global, count: usize) -> Result<Palette, AllocError>
    requires { count ≤ 4294967296 }
    ensures { IfOk result (λ palette. palette ≡ global_colors count) }
{
    let mut colors = palette::no_colors(alloc);
    for actor in 0..count {
        palette::make(&mut colors, Owner::Global(actor as u32))?;
    }
    Ok(colors)
}
