//! What is shown of a replay.

ghost use Rattle.std.specs.Prelude.{◌≡◌, ◌<◌, ◌≤◌, ◌^◌, IfOk, Ok, length};
ghost use Rattle.sw_verdict.specs.Phases.{all_phases};
ghost use Rattle.sw_verdict.specs.Verdict.{Breaches};
ghost use Rattle.sw_check.specs.Programs.{seen_graph};
ghost use Rattle.sw_see.specs.View.{InPage, IsViewOf, Views, drawn_outcome, lent_view};
ghost use Rattle.sw_see.specs.View.{picture_of, steps_outcome};
ghost use Rattle.sw_see_page.specs.Page.{page};

use std::alloc::{AllocError, Global};
use sw_breach::Breach;
use sw_check::trace_ending;
use sw_check_parts::{Exit, Outcome, PROGRAM_LIMIT};
use sw_check_text::{Verdict, check_text};
use sw_decls::AsyncDefault;
use sw_list::ListOf;
use sw_replay::{Output, Replay, Schedule};
use sw_see_draw::draw;
use sw_see_events::{Watched, watch};
use sw_see_lines::LineTable;
use sw_see_page::page;
use sw_see_steps::step_lines;
use sw_verdict::NamedGraph;

/// What is shown of a replay. The name of a file is lent from the words.
#[derive(Clone, Copy)]
pub enum View<'a> {
    /// A line for each event.
    Steps,
    /// A picture.
    Picture,
    /// A page with the program in a file, its breaches under a default, and a picture.
    Page {
        default: AsyncDefault,
        file: &'a str,
    },
}

/// The reply with the events of a replay.
fn tell_watched(
    alloc: Global,
    text: &[u8],
    made: &NamedGraph,
    watched: Watched,
) -> Result<Outcome, AllocError>
    requires short { length text.now ≤ PROGRAM_LIMIT }
    requires few { length watched.happenings < 2 ^ 32 }
    ensures { IfOk result (λ outcome.
        outcome ≡ steps_outcome text.now (seen_graph made.now) watched) }
{
    let Watched { happenings, replay } = watched;
    let Replay { output, race } = replay;
    let table = LineTable::new(alloc, text)?;
    let lines = step_lines(alloc, &table, made.actors.as_slice(), happenings.as_slice())?;
    trace_ending(
        alloc,
        text,
        Replay {
            output: Output {
                lines: ListOf::from_vec(lines),
                end: output.end,
                ended: output.ended,
                jobs: output.jobs,
            },
            race,
        },
    )
}

/// The picture of a replay.
fn picture_of(
    alloc: Global,
    text: &LineTable,
    made: &NamedGraph,
    watched: &Watched,
) -> Result<Vec<u8>, AllocError>
    requires { length watched.now.happenings < 2 ^ 31 }
    ensures { IfOk result (λ picture.
        picture.items ≡ picture_of text.now (seen_graph made.now) watched.now) }
{
    let race = watched.replay.race;
    draw(
        alloc,
        text,
        made.actors.as_slice(),
        watched.happenings.as_slice(),
        race,
    )
}

/// All breaches of a text, under a default. There are none where it is accepted.
fn breaches_of(
    alloc: Global,
    default: AsyncDefault,
    text: &[u8],
) -> Result<ListOf<Breach>, AllocError>
    requires { length text.now ≤ PROGRAM_LIMIT }
    ensures { IfOk result (Breaches default all_phases text.now) }
{
    match check_text(alloc, text, default)? {
        Verdict::Accepted { .. } => Ok(ListOf::new(alloc)),
        Verdict::Races { breaches, .. } => Ok(breaches),
        Verdict::Refused { breach } => ListOf::one(alloc, breach),
    }
}

/// The reply with what was drawn.
fn drawn(bytes: Vec<u8>) -> Outcome
    ensures { result ≡ drawn_outcome bytes.items }
{
    Outcome {
        exit: Exit::Done,
        bytes: ListOf::from_vec(bytes),
    }
}

/// The reply with the picture of a replay.
fn draw_watched(
    alloc: Global,
    text: &[u8],
    made: &NamedGraph,
    watched: &Watched,
) -> Result<Outcome, AllocError>
    requires short { length text.now ≤ PROGRAM_LIMIT }
    requires few { length watched.now.happenings < 2 ^ 31 }
    ensures { IfOk result (λ outcome.
        outcome ≡ drawn_outcome (picture_of text.now (seen_graph made.now) watched.now)) }
{
    let table = LineTable::new(alloc, text)?;
    let picture = picture_of(alloc, &table, made, watched)?;
    Ok(drawn(picture))
}

/// The reply with a page of the program in a file, these breaches and the picture of a replay.
fn draw_page(
    alloc: Global,
    file: &str,
    text: &[u8],
    breaches: &[Breach],
    made: &NamedGraph,
    watched: &Watched,
) -> Result<Outcome, AllocError>
    requires short { length text.now ≤ PROGRAM_LIMIT }
    requires few { length watched.now.happenings < 2 ^ 31 }
    ensures { IfOk result (λ outcome. outcome ≡ drawn_outcome (page file.now text.now
        breaches.now (picture_of text.now (seen_graph made.now) watched.now))) }
{
    let table = LineTable::new(alloc, text)?;
    let picture = picture_of(alloc, &table, made, watched)?;
    let bytes = page(alloc, file, &table, breaches, picture.as_slice())?;
    Ok(drawn(bytes))
}

/// The reply with a page of the program in a file, all its breaches and the picture of a replay.
fn draw_whole_page(
    alloc: Global,
    default: AsyncDefault,
    file: &str,
    text: &[u8],
    made: &NamedGraph,
    watched: &Watched,
) -> Result<Outcome, AllocError>
    requires short { length text.now ≤ PROGRAM_LIMIT }
    requires few { length watched.now.happenings < 2 ^ 31 }
    ensures { IfOk result
        (IsViewOf text.now (seen_graph made.now) watched.now (InPage default file.now)) }
{
    let breaches = breaches_of(alloc, default, text)?;
    draw_page(alloc, file, text, breaches.as_slice(), made, watched)
}

/// The reply that shows a replay.
fn view_watched(
    alloc: Global,
    text: &[u8],
    made: &NamedGraph,
    watched: Watched,
    view: View<'_>,
) -> Result<Outcome, AllocError>
    requires short { length text.now ≤ PROGRAM_LIMIT }
    requires few { length watched.happenings < 2 ^ 31 }
    ensures { IfOk result
        (IsViewOf text.now (seen_graph made.now) watched (lent_view view.entry)) }
{
    match view {
        View::Steps => tell_watched(alloc, text, made, watched),
        View::Picture => draw_watched(alloc, text, made, &watched),
        View::Page { default, file } => {
            draw_whole_page(alloc, default, file, text, made, &watched)
        }
    }
}

/// The reply that shows the replay of a program's graph by items, up to a race.
pub fn view_replay(
    alloc: Global,
    text: &[u8],
    made: &NamedGraph,
    items: &Schedule,
    view: View<'_>,
) -> Result<Outcome, AllocError>
    requires { length text.now ≤ PROGRAM_LIMIT }
    ensures { IfOk result (λ outcome.
        Views (lent_view view.entry) text.now (seen_graph made.now) items.now (Ok outcome)) }
{
    let watched = watch(alloc, &made.graph, items)?;
    view_watched(alloc, text, made, watched, view)
}
