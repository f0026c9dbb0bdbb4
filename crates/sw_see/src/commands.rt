//! The commands. Each does its parts in order.

ghost use Rattle.std.specs.Prelude.{◌≡◌, map, string_bytes};
ghost use Rattle.sw_check_parts.specs.Leaves.{Does, seen};
ghost use Rattle.sw_see.specs.Reply.{breaches_course, course_of, file_course, find_course};
ghost use Rattle.sw_see.specs.Reply.{paint_of, replay_course};
ghost use Rattle.sw_see.specs.View.{drawn_view, lent_view};
ghost use Rattle.sw_see_words.specs.Given.{lent_action};
ghost use Rattle.sw_see_words.specs.Words.{command_of};

use crate::parts::{find, show};
use crate::view::{View, view_replay};
use std::alloc::Global;
use sw_check::{Phases, items_in, judged};
use sw_check_parts::{Exit, Outcome, PROGRAM_LIMIT, Stop, fetch, lines};
use sw_decls::AsyncDefault;
use sw_outside::Shelf;
use sw_see_breaches::Paint;
use sw_see_words::{Action, Command, read};

/// The colours of breaches.
fn paint_of(color: bool) -> Paint
    ensures { result ≡ paint_of color }
{
    if color { Paint::Colored } else { Paint::Plain }
}

/// `breaches FILE`.
fn show_file<S: Shelf>(
    alloc: Global,
    default: AsyncDefault,
    file: &str,
    color: bool,
    shelf: &mut S,
) -> Result<Outcome, Stop>
    ensures { Does (breaches_course default file.now color)
        (seen S.known S.received S.faults shelf.old) result
        (seen S.known S.received S.faults shelf.new) }
{
    let text = fetch(alloc, file, PROGRAM_LIMIT, shelf)?;
    Ok(show(alloc, default, paint_of(color), file, text.as_slice())?)
}

/// How a replay is drawn: in a page with the program in a file, or alone.
fn drawn_view<'a>(in_page: bool, default: AsyncDefault, file: &'a str) -> View<'a>
    ensures { lent_view result ≡ drawn_view in_page default file.entry.now }
{
    if in_page {
        View::Page { default, file }
    } else {
        View::Picture
    }
}

/// `steps FILE SCHEDULE` and `draw FILE SCHEDULE`.
fn show_replay<S: Shelf>(
    alloc: Global,
    default: AsyncDefault,
    file: &str,
    schedule_file: &str,
    view: View<'_>,
    shelf: &mut S,
) -> Result<Outcome, Stop>
    ensures { Does (replay_course default file.now schedule_file.now (lent_view view.entry))
        (seen S.known S.received S.faults shelf.old) result
        (seen S.known S.received S.faults shelf.new) }
{
    let text = fetch(alloc, file, PROGRAM_LIMIT, shelf)?;
    let made = judged(alloc, default, text.as_slice(), Phases::ToSize)?;
    let items = items_in(alloc, schedule_file, shelf)?;
    Ok(view_replay(alloc, text.as_slice(), &made, &items, view)?)
}

/// `find FILE`, with a seed.
fn find_in_file<S: Shelf>(
    alloc: Global,
    default: AsyncDefault,
    file: &str,
    seed: &str,
    shelf: &mut S,
) -> Result<Outcome, Stop>
    ensures { Does (find_course default file.now)
        (seen S.known S.received S.faults shelf.old) result
        (seen S.known S.received S.faults shelf.new) }
{
    let text = fetch(alloc, file, PROGRAM_LIMIT, shelf)?;
    let made = judged(alloc, default, text.as_slice(), Phases::ToSize)?;
    Ok(find(alloc, &made.graph, seed)?)
}

/// A command on a file, under a default.
fn on_file<S: Shelf>(
    alloc: Global,
    default: AsyncDefault,
    file: &str,
    action: Action<'_>,
    shelf: &mut S,
) -> Result<Outcome, Stop>
    ensures { Does (file_course default file.now (lent_action action.entry))
        (seen S.known S.received S.faults shelf.old) result
        (seen S.known S.received S.faults shelf.new) }
{
    match action {
        Action::Breaches { color } => show_file(alloc, default, file, color, shelf),
        Action::Steps { schedule_file } => {
            show_replay(alloc, default, file, schedule_file, View::Steps, shelf)
        }
        Action::Find { seed } => find_in_file(alloc, default, file, seed, shelf),
        Action::Draw {
            schedule_file,
            page,
        } => {
            let view = drawn_view(page, default, file);
            show_replay(alloc, default, file, schedule_file, view, shelf)
        }
    }
}

/// The command of the words after the program's name.
pub fn answer<S: Shelf>(alloc: Global, words: &[String], shelf: &mut S) -> Result<Outcome, Stop>
    ensures { Does (course_of (command_of (map string_bytes words.now)))
        (seen S.known S.received S.faults shelf.old) result
        (seen S.known S.received S.faults shelf.new) }
{
    match read(alloc, words)? {
        None => Ok(lines(
            alloc,
            Exit::Usage,
            "usage: swiftcheck_see COMMAND FILE [SCHEDULE]\n",
        )?),
        Some(
            Command::OnFile {
                default,
                file,
                action,
            },
        ) => on_file(alloc, default, file, action, shelf),
    }
}
