//! The graphs that are solved and the states that are joined, one by one.
ghost use Rattle.std.specs.Prelude.{◌≡◌, ◌<◌, length};
ghost use Rattle.std.specs.List.Sorted.{IsStrictlyIncreasing};

use crate::graph::{Graph, solved};
use crate::wide::{alone, paired, take_in};
use std::alloc::{AllocError, Global};
use std::cell::Cell;
use std::io;
use std::marker::Brand;
use std::rt::Clock;
use std::sync::ledger::Blank;
use std::time::Instant;
use sw_solve::Steps;

/// A counter of joins takes no bytes.
const _: () = prove!(size_of::<Steps<Brand>>() == 0);

/// How the points of a graph follow one another.
#[derive(Clone, Copy, Debug)]
pub enum Form {
    Chain,
    Ring,
    Ladder,
}

/// How many points of a graph have a state, and how many joins that took.
fn solve_form(
    alloc: Global,
    form: Form,
    points: u32,
    sites: &[u32],
) -> Result<(usize, u64), AllocError>
    requires some { 0 < points }
    requires fifty { length sites.now ≡ 50 }
    requires rising { IsStrictlyIncreasing sites.now }
{
    let joins = Cell::new(0);
    let graph = Graph {
        points,
        is_ring: matches!(form, Form::Ring),
        is_ladder: matches!(form, Form::Ladder),
        sites,
        joins: &joins,
    };
    let reached = solved::<Brand>(alloc, &graph, Blank::new(1))?;
    Ok((reached, joins.get()))
}

/// Solves a graph of this form, and prints how.
pub fn measure_form<R: Print + Clock + AllocGlobal>(
    rt: &R,
    form: Form,
    points: u32,
    sites: &[u32],
    is_timed: bool,
) -> io::Result<()>
    requires some { 0 < points }
    requires fifty { length sites.now ≡ 50 }
    requires rising { IsStrictlyIncreasing sites.now }
{
    let start = Instant::now(rt)?;
    let (reached, joins) = solve_form(rt.alloc(), form, points, sites)?;
    println!(rt; "{form:?} of {points}: {reached} states, {joins} joins")?;
    print_time(rt, is_timed, start)
}

/// Joins two states of n elements, and prints whether that changed the first.
pub fn measure_join<R: Print + Clock + AllocGlobal>(
    rt: &R,
    elements: u32,
    is_timed: bool,
) -> io::Result<()>
    requires { 0 < elements }
{
    let mut state = alone(rt.alloc(), elements)?;
    let other = paired(rt.alloc(), elements)?;
    let start = Instant::now(rt)?;
    let changed = take_in::<Brand>(&mut state, &other, Blank::new(1));
    println!(rt; "join of {elements} elements: changed {changed}")?;
    print_time(rt, is_timed, start)
}

/// Prints the time since the start, where times are asked for.
fn print_time<R: Print + Clock>(rt: &R, is_timed: bool, start: Instant) -> io::Result<()> {
    if !is_timed {
        return Ok(());
    }
    let time = start.elapsed(rt)?.as_micros();
    println!(rt; "  {time} us")
}
