ghost use Rattle.std.specs.Prelude.{◌≡◌, IfOk, map, option_map, string_bytes};
ghost use Rattle.clap.specs.Words.{first_of, found_of, rows_of};
ghost use Rattle.sw_check_words.specs.Read.{default_in, is_set};
ghost use Rattle.sw_see_words.specs.Given.{lent_action, lent_command};
ghost use Rattle.sw_see_words.specs.Words.{Find, Parses, breaches_by, command_by, command_of};
ghost use Rattle.sw_see_words.specs.Words.{draw_by, on_file, steps_by};

use crate::command::{Action, Command};
use crate::tool::tool;
use clap::ArgMatches;
use clap::error::ErrorKind;
use std::alloc::{AllocError, Global};
use sw_decls::AsyncDefault;

/// The text of an argument.
fn text_of<'a>(found: &ArgMatches<'a>, id: &str) -> Option<&'a str>
    ensures { option_map (λ text. text.now) result
        ≡ first_of id.now (rows_of (found_of found.now)) }
{
    found.get_str(id)
}

/// Whether a flag was set.
fn is_set(found: &ArgMatches<'_>, id: &str) -> bool
    ensures { result ≡ is_set id.now (rows_of (found_of found.now)) }
{
    match text_of(found, id) {
        Some(text) => text == "true",
        None => false,
    }
}

/// The default that a command's words name.
fn default_in(found: &ArgMatches<'_>) -> AsyncDefault
    ensures { result ≡ default_in (rows_of (found_of found.now)) }
{
    if is_set(found, "default") {
        AsyncDefault::Caller
    } else {
        AsyncDefault::Concurrent
    }
}

/// A command on the program in a file.
fn on_file<'a>(found: &ArgMatches<'a>, action: Action<'a>) -> Option<Command<'a>>
    ensures { option_map lent_command result
        ≡ on_file (rows_of (found_of found.now)) (lent_action action.entry) }
{
    Some(Command::OnFile {
        default: default_in(found),
        file: text_of(found, "file")?,
        action,
    })
}

/// `breaches FILE`, and `breaches FILE --color`.
fn breaches<'a>(found: &ArgMatches<'a>) -> Option<Command<'a>>
    ensures { option_map lent_command result ≡ breaches_by (rows_of (found_of found.now)) }
{
    let color = is_set(found, "color");
    on_file(found, Action::Breaches { color })
}

/// `find FILE`, and `find FILE SEED`.
fn find<'a>(found: &ArgMatches<'a>) -> Option<Command<'a>>
    ensures { option_map lent_command result ≡ on_file (rows_of (found_of found.now)) Find }
{
    let seed = match text_of(found, "seed") {
        Some(seed) => seed,
        None => "",
    };
    on_file(found, Action::Find { seed })
}

/// `steps FILE SCHEDULE`.
fn steps<'a>(found: &ArgMatches<'a>) -> Option<Command<'a>>
    ensures { option_map lent_command result ≡ steps_by (rows_of (found_of found.now)) }
{
    let schedule_file = text_of(found, "schedule")?;
    on_file(found, Action::Steps { schedule_file })
}

/// `draw FILE SCHEDULE`, and `draw FILE SCHEDULE --page`.
fn draw<'a>(found: &ArgMatches<'a>) -> Option<Command<'a>>
    ensures { option_map lent_command result ≡ draw_by (rows_of (found_of found.now)) }
{
    let schedule_file = text_of(found, "schedule")?;
    let page = is_set(found, "page");
    on_file(
        found,
        Action::Draw {
            schedule_file,
            page,
        },
    )
}

/// The command of this name, with the arguments that were found.
fn command<'a>(name: &str, found: &ArgMatches<'a>) -> Option<Command<'a>>
    ensures { option_map lent_command result
        ≡ command_by name.now (rows_of (found_of found.now)) }
{
    match name {
        "breaches" => breaches(found),
        "steps" => steps(found),
        "find" => find(found),
        "draw" => draw(found),
        _ => None,
    }
}

/// What `clap` found in the words, or `None` where it refuses them.
fn parsed<'a>(alloc: Global, words: &'a [String]) -> Result<Option<ArgMatches<'a>>, AllocError>
    ensures { IfOk result (Parses (map string_bytes words.now)) }
{
    match tool(alloc)?.try_get_matches_from(words) {
        Ok(matches) => Ok(Some(matches)),
        Err(error) => match error.kind() {
            ErrorKind::OutOfMemory => Err(AllocError),
            _ => Ok(None),
        },
    }
}

/// Reads the words after the program's name; `None` where they have no form.
pub fn read<'a>(alloc: Global, words: &'a [String]) -> Result<Option<Command<'a>>, AllocError>
    ensures { IfOk result (λ given.
        option_map lent_command given ≡ command_of (map string_bytes words.now)) }
{
    let Some(matches) = parsed(alloc, words)? else {
        return Ok(None);
    };
    let Some((name, found)) = matches.subcommand() else {
        return Ok(None);
    };
    Ok(command(name, found))
}
