//! The parts of commands that read no file.

ghost use Rattle.std.specs.Prelude.{◌≡◌, ◌≤◌, IfOk, Ok, length};
ghost use Rattle.sw_see.specs.Reply.{Finds, Shows, found_outcome, shown_outcome};

use std::alloc::{AllocError, Global};
use sw_breach::Breach;
use sw_check_parts::{Exit, Outcome, PROGRAM_LIMIT, lines};
use sw_check_text::{Verdict, check_text};
use sw_decls::AsyncDefault;
use sw_graph::Graph;
use sw_list::ListOf;
use sw_see_breaches::{Paint, show_breaches};
use sw_see_find::Found;

/// The reply with the breaches of the text of a file.
fn refusal(
    alloc: Global,
    paint: Paint,
    file: &str,
    text: &[u8],
    breaches: &[Breach],
) -> Result<Outcome, AllocError>
    requires { length text.now ≤ PROGRAM_LIMIT }
    ensures { IfOk result (λ outcome.
        outcome ≡ shown_outcome paint file.now text.now breaches.now) }
{
    let bytes = show_breaches(alloc, paint, file, text, breaches)?;
    Ok(Outcome {
        exit: Exit::Breached,
        bytes: ListOf::from_vec(bytes),
    })
}

/// The reply about the breaches of the text of a file, under a default.
pub fn show(
    alloc: Global,
    default: AsyncDefault,
    paint: Paint,
    file: &str,
    text: &[u8],
) -> Result<Outcome, AllocError>
    requires { length text.now ≤ PROGRAM_LIMIT }
    ensures { IfOk result (λ outcome. Shows paint default file.now text.now (Ok outcome)) }
{
    match check_text(alloc, text, default)? {
        Verdict::Accepted { .. } => lines(alloc, Exit::Done, "accepted\n"),
        Verdict::Races { breaches, .. } => refusal(alloc, paint, file, text, breaches.as_slice()),
        Verdict::Refused { breach } => refusal(alloc, paint, file, text, &[breach]),
    }
}

/// The reply with what was found.
fn tell_found(alloc: Global, found: Found) -> Result<Outcome, AllocError>
    ensures { IfOk result (λ outcome. outcome ≡ found_outcome found) }
{
    match found {
        Found::Race { schedule } => Ok(Outcome {
            exit: Exit::Raced,
            bytes: schedule,
        }),
        Found::Nothing { tries } => {
            let line = format!(in alloc; "no race in {tries} schedules\n")?;
            lines(alloc, Exit::Done, line.as_str())
        }
    }
}

/// The reply to a search for a race of a graph.
pub fn find(alloc: Global, graph: &Graph, seed: &str) -> Result<Outcome, AllocError>
    ensures { IfOk result (λ outcome. Finds graph.now (Ok outcome)) }
{
    let found = sw_see_find::find(alloc, graph, seed)?;
    tell_found(alloc, found)
}
