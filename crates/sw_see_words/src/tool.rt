//! The command line as `clap` takes it.

ghost use Rattle.std.specs.Prelude.{◌≡◌, IfOk, false};
ghost use Rattle.clap.specs.Words.{app_of, new_rule, rule_of};
ghost use Rattle.clap.specs.declared.builder.command.Command.TheViews.{out-Command};
ghost use Rattle.sw_check_words.specs.Tool.{default_rule, flag, required};
ghost use Rattle.sw_see_words.specs.Tool.{bare_app, breaches_app, draw_app, find_app};
ghost use Rattle.sw_see_words.specs.Tool.{steps_app, tool};

use clap::{Arg, ArgAction, Command};
use std::alloc::{AllocError, Global};

/// An option without a value.
fn flag<'a>(alloc: Global, id: &'a str, name: &'a str) -> Arg<'a>
    ensures rule { rule_of result ≡ flag id.entry.now name.entry.now }
    ensures local { result.global ≡ false }
{
    Arg::new(alloc, id).long(name).action(ArgAction::SetTrue)
}

/// The option for the default.
fn default<'a>(alloc: Global) -> Arg<'a>
    ensures rule { rule_of result ≡ default_rule }
    ensures local { result.global ≡ false }
{
    flag(alloc, "default", "nonsending-default")
}

/// An argument that must be there.
fn required<'a>(alloc: Global, id: &'a str) -> Arg<'a>
    ensures rule { rule_of result ≡ required id.entry.now }
    ensures local { result.global ≡ false }
{
    Arg::new(alloc, id).required(true)
}

/// An argument that may be there.
fn optional<'a>(alloc: Global, id: &'a str) -> Arg<'a>
    ensures rule { rule_of result ≡ new_rule id.entry.now }
    ensures local { result.global ≡ false }
{
    Arg::new(alloc, id)
}

/// `breaches FILE`, and `breaches FILE --color`.
fn breaches<'a>(alloc: Global) -> Result<Command<'a>, AllocError>
    ensures { IfOk result (λ command. (app_of command ≡ breaches_app)
        × ((out-Command command).has_globals ≡ false)) }
{
    Command::new(alloc, "breaches")
        .arg(default(alloc))?
        .arg(flag(alloc, "color", "color"))?
        .arg(required(alloc, "file"))
}

/// `steps FILE SCHEDULE`.
fn steps<'a>(alloc: Global) -> Result<Command<'a>, AllocError>
    ensures { IfOk result (λ command. (app_of command ≡ steps_app)
        × ((out-Command command).has_globals ≡ false)) }
{
    Command::new(alloc, "steps")
        .arg(default(alloc))?
        .arg(required(alloc, "file"))?
        .arg(required(alloc, "schedule"))
}

/// `find FILE`, and `find FILE SEED`.
fn find<'a>(alloc: Global) -> Result<Command<'a>, AllocError>
    ensures { IfOk result (λ command. (app_of command ≡ find_app)
        × ((out-Command command).has_globals ≡ false)) }
{
    Command::new(alloc, "find")
        .arg(default(alloc))?
        .arg(required(alloc, "file"))?
        .arg(optional(alloc, "seed"))
}

/// `draw FILE SCHEDULE`, and `draw FILE SCHEDULE --page`.
fn draw<'a>(alloc: Global) -> Result<Command<'a>, AllocError>
    ensures { IfOk result (λ command. (app_of command ≡ draw_app)
        × ((out-Command command).has_globals ≡ false)) }
{
    Command::new(alloc, "draw")
        .arg(default(alloc))?
        .arg(flag(alloc, "page", "page"))?
        .arg(required(alloc, "file"))?
        .arg(required(alloc, "schedule"))
}

/// The tool without its commands. No word asks for help.
fn bare<'a>(alloc: Global) -> Command<'a>
    ensures app { app_of result ≡ bare_app }
    ensures local { (out-Command result).has_globals ≡ false }
{
    Command::new(alloc, "swiftcheck_see")
        .no_binary_name(true)
        .disable_help_flag(true)
        .disable_help_subcommand(true)
}

/// The tool with all its commands.
pub fn tool<'a>(alloc: Global) -> Result<Command<'a>, AllocError>
    ensures { IfOk result (λ command. app_of command ≡ tool) }
{
    bare(alloc)
        .subcommand(breaches(alloc)?)?
        .subcommand(steps(alloc)?)?
        .subcommand(find(alloc)?)?
        .subcommand(draw(alloc)?)
}
