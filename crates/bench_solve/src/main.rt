//! How long `solve` takes on a chain, a ring and a ladder of points over partitions of 100 elements
//! and 50 sites, and one join of two wide states. It prints how many joins each takes, which is the
//! same on each machine; with an argument it prints times too.
#![tactic(auto)]

mod graph;
mod measure;
mod wide;

use graph::rising;
use measure::{Form, measure_form, measure_join};
use std::{env, io};

fn main(rt: HostRuntime) -> io::Result<()> {
    let is_timed = env::args(&rt)?.count() > 1;
    let sites = rising(rt.alloc(), 50)?;
    for form in [Form::Chain, Form::Ring, Form::Ladder] {
        for points in [1000, 2000] {
            measure_form(&rt, form, points, &sites, is_timed)?;
        }
    }
    for elements in [10_000, 20_000] {
        measure_join(&rt, elements, is_timed)?;
    }
    Ok(())
}
