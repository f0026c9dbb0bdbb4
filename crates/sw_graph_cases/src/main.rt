//! Whole control-flow graphs of texts as data. The program reads each file of `data/graphs` in the
//! order of their names, lowers its text, whatever races the program has, and prints the graph: its
//! shapes, its global variables and its functions with their registers, blocks and instructions,
//! one a line. Of a text that has no graph it says so. The texts in `data/on-caller` it lowers
//! under the default by which asynchronous functions run where their callers run, and says for each
//! default whether the text is accepted. What it should print stands in `stdout`, which was not
//! made by this program. It knows nothing of how a graph is made.
#![tactic(auto)]

ghost use Rattle.std.specs.Prelude.{◌≤◌, IfOk, IfSome, IfNone, Ok, length};
ghost use Rattle.sw_verdict.specs.Phases.{phases_to_size};
ghost use Rattle.sw_verdict.specs.Verdict.{IsVerdict, Refuses};

mod folder;
mod graphs;
mod instructions;
mod types;

use folder::names_in;
use graphs::print_graph;
use std::alloc::{AllocError, Global};
use std::rt::Files;
use std::{fs, io};
use sw_check_text::{Verdict, check_text};
use sw_decls::AsyncDefault;
use sw_graph::Graph;
use sw_text::MAX_LENGTH;
use sw_verdict::{Refusal, lower_text};

/// The graph of a text under a default, where no phase up to the size of functions refuses it.
fn graph_of(alloc: Global, text: &[u8], default: AsyncDefault) -> Result<Option<Graph>, AllocError>
    requires { length text.now ≤ MAX_LENGTH }
    ensures graph { IfOk result (λ found. IfSome found (λ graph.
        IsVerdict default phases_to_size text.now (Ok graph))) }
    ensures none { IfOk result (λ found. IfNone found (Refuses default phases_to_size text.now)) }
{
    match lower_text(alloc, text, default) {
        Ok(made) => Ok(Some(made.graph)),
        Err(Refusal::Breached { .. }) => Ok(None),
        Err(Refusal::Memory) => Err(AllocError),
    }
}

/// Prints the graph of a text under a default.
fn show_text<R: Print + AllocGlobal>(rt: &R, text: &[u8], default: AsyncDefault) -> io::Result<()> {
    if text.len() > MAX_LENGTH {
        return println!(rt; "too long");
    }
    match graph_of(rt.alloc(), text, default)? {
        Some(graph) => print_graph(rt, &graph),
        None => println!(rt; "no graph"),
    }
}

/// Prints whether a text is accepted under a default.
fn show_verdict<R: Print + AllocGlobal>(
    rt: &R,
    text: &[u8],
    default: AsyncDefault,
) -> io::Result<()> {
    if text.len() > MAX_LENGTH {
        return println!(rt; "too long");
    }
    match check_text(rt.alloc(), text, default)? {
        Verdict::Accepted { .. } => println!(rt; "{default:?}: accepted"),
        Verdict::Races { .. } | Verdict::Refused { .. } => println!(rt; "{default:?}: refused"),
    }
}

/// Prints the name of a file of `graphs`, the graph of its text and a blank line.
fn show_file<R: Files + Print + AllocGlobal>(rt: &R, name: &str) -> io::Result<()> {
    let path = format!(in rt.alloc(); "graphs/{name}")?;
    let text = fs::read(rt, path.as_str())?;
    println!(rt; "{name}")?;
    show_text(rt, text.as_slice(), AsyncDefault::Concurrent)?;
    println!(rt)
}

/// Prints the name of a file of `on-caller`, the graph of its text where asynchronous functions run
/// on their callers, whether each default accepts it, and a blank line.
fn show_on_caller<R: Files + Print + AllocGlobal>(rt: &R, name: &str) -> io::Result<()> {
    let path = format!(in rt.alloc(); "on-caller/{name}")?;
    let text = fs::read(rt, path.as_str())?;
    println!(rt; "{name}")?;
    show_text(rt, text.as_slice(), AsyncDefault::Caller)?;
    show_verdict(rt, text.as_slice(), AsyncDefault::Caller)?;
    show_verdict(rt, text.as_slice(), AsyncDefault::Concurrent)?;
    println!(rt)
}

fn main(rt: HostRuntime) -> io::Result<()> {
    for name in &names_in(&rt, "graphs")? {
        show_file(&rt, name.as_str())?;
    }
    for name in &names_in(&rt, "on-caller")? {
        show_on_caller(&rt, name.as_str())?;
    }
    Ok(())
}
