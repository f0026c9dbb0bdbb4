//! The commands. Each does its parts in order.

ghost use Rattle.std.specs.Prelude.{◌≡◌, ◌≤◌, length, map, string_bytes};
ghost use Rattle.sw_check_parts.specs.Leaves.{Does, SeenShelf, seen};
ghost use Rattle.sw_check_words.specs.Given.{lent_action};
ghost use Rattle.sw_check_words.specs.Words.{command_of};
ghost use Rattle.sw_check.specs.Phases.{list_of};
ghost use Rattle.sw_check.specs.Reply.{after_verdict, course_of, demo_course, file_course, items_in};
ghost use Rattle.sw_check.specs.Reply.{phases_for};
ghost use Rattle.sw_check.specs.Programs.{seen_graph};

use crate::parts::{
    Phases, certify, demonstrate, judged, order, owners, run, scheduled, trace, verified,
};
use std::alloc::Global;
use sw_cert::CERTIFICATE_LIMIT;
use sw_check_parts::{Exit, Outcome, PROGRAM_LIMIT, Stop, fetch, lines};
use sw_check_words::{Action, Command, read};
use sw_decls::AsyncDefault;
use sw_gen::{MAX_ACTORS, make_program, make_schedule};
use sw_list::ListOf;
use sw_outside::Shelf;
use sw_replay::{SCHEDULE_LIMIT, Schedule};
use sw_verdict::NamedGraph;

/// The phases by which an action judges its program.
fn phases_for(action: Action<'_>) -> Phases
    ensures { list_of result ≡ phases_for (lent_action action.entry) }
{
    match action {
        Action::Check | Action::Certify | Action::Run { .. } | Action::Owners { .. } => Phases::All,
        Action::Verify { .. } => Phases::ToSharing,
        Action::Trace { .. } | Action::Order { .. } => Phases::ToSize,
    }
}

/// The items of a schedule in a file.
pub fn items_in<S: Shelf>(
    alloc: Global,
    schedule_file: &str,
    shelf: &mut S,
) -> Result<Schedule, Stop>
    ensures { Does (items_in schedule_file.now) (seen S.known S.received S.faults shelf.old) result
        (seen S.known S.received S.faults shelf.new) }
{
    let text = fetch(alloc, schedule_file, SCHEDULE_LIMIT, shelf)?;
    scheduled(alloc, text.as_slice())
}

/// What follows the verdict on a text that passes.
fn after_verdict<S: Shelf>(
    alloc: Global,
    action: Action<'_>,
    text: &[u8],
    made: &NamedGraph,
    shelf: &mut S,
) -> Result<Outcome, Stop>
    requires { length text.now ≤ PROGRAM_LIMIT }
    ensures { Does (after_verdict (lent_action action.entry) text.now (seen_graph made.now))
        (seen S.known S.received S.faults shelf.old) result
        (seen S.known S.received S.faults shelf.new) }
{
    match action {
        Action::Check => Ok(lines(alloc, Exit::Done, "accepted\n")?),
        Action::Certify => Ok(certify(alloc, &made.graph)?),
        Action::Verify { certificate_file } => {
            let bytes = fetch(alloc, certificate_file, CERTIFICATE_LIMIT, shelf)?;
            Ok(verified(alloc, &made.graph, bytes.as_slice())?)
        }
        Action::Run { schedule_file } => {
            let items = items_in(alloc, schedule_file, shelf)?;
            Ok(run(alloc, text, &made.graph, &items)?)
        }
        Action::Trace { schedule_file } => {
            let items = items_in(alloc, schedule_file, shelf)?;
            Ok(trace(alloc, text, &made.graph, &items)?)
        }
        Action::Owners { schedule_file } => {
            let items = items_in(alloc, schedule_file, shelf)?;
            Ok(owners(alloc, text, made, &items)?)
        }
        Action::Order { schedule_file } => {
            let items = items_in(alloc, schedule_file, shelf)?;
            Ok(order(alloc, text, &made.graph, &items)?)
        }
    }
}

/// A command on a file, under a default.
fn on_file<S: Shelf>(
    alloc: Global,
    default: AsyncDefault,
    file: &str,
    action: Action<'_>,
    shelf: &mut S,
) -> Result<Outcome, Stop>
    ensures { Does (file_course default file.now (lent_action action.entry))
        (seen S.known S.received S.faults shelf.old) result
        (seen S.known S.received S.faults shelf.new) }
{
    let text = fetch(alloc, file, PROGRAM_LIMIT, shelf)?;
    let made = judged(alloc, default, text.as_slice(), phases_for(action))?;
    after_verdict(alloc, action, text.as_slice(), &made, shelf)
}

/// `demo N`: the program that is generated for a number of actors is judged and run. It fetches
/// nothing.
fn demo(alloc: Global, actors: u32) -> Result<Outcome, Stop>
    requires { actors ≤ MAX_ACTORS }
    ensures { (shelf : SeenShelf) → Does (demo_course actors) shelf result shelf }
{
    let text = make_program(alloc, actors)?;
    let made = judged(
        alloc,
        AsyncDefault::Concurrent,
        text.as_slice(),
        Phases::All,
    )?;
    let runs = make_schedule(alloc, actors)?;
    let items = Schedule::new(ListOf::from_vec(runs));
    Ok(demonstrate(alloc, actors, text.as_slice(), &made.graph, &items)?)
}

/// The command of the words after the program's name.
pub fn answer<S: Shelf>(alloc: Global, words: &[String], shelf: &mut S) -> Result<Outcome, Stop>
    ensures { Does (course_of (command_of (map string_bytes words.now)))
        (seen S.known S.received S.faults shelf.old) result
        (seen S.known S.received S.faults shelf.new) }
{
    match read(alloc, words)? {
        None => Ok(lines(
            alloc,
            Exit::Usage,
            "usage: swiftcheck COMMAND FILE [SCHEDULE]\n",
        )?),
        Some(
            Command::OnFile {
                default,
                file,
                action,
            },
        ) => on_file(alloc, default, file, action, shelf),
        Some(Command::Demo { actors }) => demo(alloc, actors),
    }
}
