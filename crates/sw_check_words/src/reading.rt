ghost use Rattle.std.specs.Prelude.{◌≡◌, IfOk, IfSome, map, string_bytes, option_map};
ghost use Rattle.clap.specs.Words.{first_of, found_of, rows_of};
ghost use Rattle.sw_check_words.specs.Given.{AsksFew, lent_action, lent_command};
ghost use Rattle.sw_check_words.specs.Read.{check_by, command_by, default_in, is_set, on_file};
ghost use Rattle.sw_check_words.specs.Read.{Parses};
ghost use Rattle.sw_check_words.specs.Words.{command_of};

use crate::actors::actors_of;
use crate::command::{Action, Command};
use crate::tool::tool;
use crate::words::all_may_stand;
use clap::ArgMatches;
use clap::error::ErrorKind;
use std::alloc::{AllocError, Global};
use sw_decls::AsyncDefault;

/// The text of an argument.
fn text_of<'a>(found: &ArgMatches<'a>, id: &str) -> Option<&'a str>
    ensures { option_map (λ text. text.now) result
        ≡ first_of id.now (rows_of (found_of found.now)) }
{
    found.get_str(id)
}

/// Whether a flag was set.
fn is_set(found: &ArgMatches<'_>, id: &str) -> bool
    ensures { result ≡ is_set id.now (rows_of (found_of found.now)) }
{
    match text_of(found, id) {
        Some(text) => text == "true",
        None => false,
    }
}

/// The default that a command's words name.
fn default_in(found: &ArgMatches<'_>) -> AsyncDefault
    ensures { result ≡ default_in (rows_of (found_of found.now)) }
{
    if is_set(found, "default") {
        AsyncDefault::Caller
    } else {
        AsyncDefault::Concurrent
    }
}

/// A command on the program in a file.
fn on_file<'a>(found: &ArgMatches<'a>, action: Action<'a>) -> Option<Command<'a>>
    ensures value { option_map lent_command result
        ≡ on_file (rows_of (found_of found.now)) (lent_action action.entry) }
    ensures few { IfSome result AsksFew }
{
    Some(Command::OnFile {
        default: default_in(found),
        file: text_of(found, "file")?,
        action,
    })
}

/// `check FILE`, and `check FILE --certificate`.
fn check<'a>(found: &ArgMatches<'a>) -> Option<Command<'a>>
    ensures value { option_map lent_command result ≡ check_by (rows_of (found_of found.now)) }
    ensures few { IfSome result AsksFew }
{
    if is_set(found, "certificate") {
        on_file(found, Action::Certify)
    } else {
        on_file(found, Action::Check)
    }
}

/// The command of this name, with the arguments that were found.
fn command<'a>(name: &str, found: &ArgMatches<'a>) -> Option<Command<'a>>
    ensures value { option_map lent_command result
        ≡ command_by name.now (rows_of (found_of found.now)) }
    ensures few { IfSome result AsksFew }
{
    match name {
        "check" => check(found),
        "verify" => {
            let certificate_file = text_of(found, "second")?;
            on_file(found, Action::Verify { certificate_file })
        }
        "run" => {
            let schedule_file = text_of(found, "second")?;
            on_file(found, Action::Run { schedule_file })
        }
        "trace" => {
            let schedule_file = text_of(found, "second")?;
            on_file(found, Action::Trace { schedule_file })
        }
        "owners" => {
            let schedule_file = text_of(found, "second")?;
            on_file(found, Action::Owners { schedule_file })
        }
        "order" => {
            let schedule_file = text_of(found, "second")?;
            on_file(found, Action::Order { schedule_file })
        }
        "demo" => {
            let actors = actors_of(text_of(found, "actors")?)?;
            Some(Command::Demo { actors })
        }
        _ => None,
    }
}

/// What `clap` found in the words, or `None` where it refuses them.
fn parsed<'a>(alloc: Global, words: &'a [String]) -> Result<Option<ArgMatches<'a>>, AllocError>
    ensures { IfOk result (Parses (map string_bytes words.now)) }
{
    match tool(alloc)?.try_get_matches_from(words) {
        Ok(matches) => Ok(Some(matches)),
        Err(error) => match error.kind() {
            ErrorKind::OutOfMemory => Err(AllocError),
            _ => Ok(None),
        },
    }
}

/// Reads the words after the program's name; `None` where they have no form.
pub fn read<'a>(alloc: Global, words: &'a [String]) -> Result<Option<Command<'a>>, AllocError>
    ensures value { IfOk result (λ given.
        option_map lent_command given ≡ command_of (map string_bytes words.now)) }
    ensures few { IfOk result (λ given. IfSome given AsksFew) }
{
    if !all_may_stand(words) {
        return Ok(None);
    }
    let Some(matches) = parsed(alloc, words)? else {
        return Ok(None);
    };
    let Some((name, found)) = matches.subcommand() else {
        return Ok(None);
    };
    Ok(command(name, found))
}
