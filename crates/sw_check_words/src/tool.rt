//! The command line as `clap` takes it.

ghost use Rattle.std.specs.Prelude.{◌≡◌, IfOk, false};
ghost use Rattle.clap.specs.Words.{app_of, rule_of};
ghost use Rattle.clap.specs.declared.builder.command.Command.TheViews.{out-Command};
ghost use Rattle.sw_check_words.specs.Tool.{check_app, default_rule, demo_app, flag, pair_app};
ghost use Rattle.sw_check_words.specs.Tool.{bare_app, required, tool, with_pair};

use clap::{Arg, ArgAction, Command};
use std::alloc::{AllocError, Global};

/// An option without a value.
fn flag<'a>(alloc: Global, id: &'a str, name: &'a str) -> Arg<'a>
    ensures rule { rule_of result ≡ flag id.entry.now name.entry.now }
    ensures local { result.global ≡ false }
{
    Arg::new(alloc, id).long(name).action(ArgAction::SetTrue)
}

/// The option for the default.
fn default<'a>(alloc: Global) -> Arg<'a>
    ensures rule { rule_of result ≡ default_rule }
    ensures local { result.global ≡ false }
{
    flag(alloc, "default", "nonsending-default")
}

/// An argument that must be there.
fn required<'a>(alloc: Global, id: &'a str) -> Arg<'a>
    ensures rule { rule_of result ≡ required id.entry.now }
    ensures local { result.global ≡ false }
{
    Arg::new(alloc, id).required(true)
}

/// `check FILE`, and `check FILE --certificate`.
fn check<'a>(alloc: Global) -> Result<Command<'a>, AllocError>
    ensures { IfOk result (λ command. (app_of command ≡ check_app)
        × ((out-Command command).has_globals ≡ false)) }
{
    Command::new(alloc, "check")
        .arg(default(alloc))?
        .arg(flag(alloc, "certificate", "certificate"))?
        .arg(required(alloc, "file"))
}

/// A command on a file that reads a second one: a schedule, or a certificate.
fn pair<'a>(alloc: Global, name: &'a str) -> Result<Command<'a>, AllocError>
    ensures { IfOk result (λ command. (app_of command ≡ pair_app name.entry.now)
        × ((out-Command command).has_globals ≡ false)) }
{
    Command::new(alloc, name)
        .arg(default(alloc))?
        .arg(required(alloc, "file"))?
        .arg(required(alloc, "second"))
}

/// `demo N`.
fn demo<'a>(alloc: Global) -> Result<Command<'a>, AllocError>
    ensures { IfOk result (λ command. (app_of command ≡ demo_app)
        × ((out-Command command).has_globals ≡ false)) }
{
    Command::new(alloc, "demo").arg(required(alloc, "actors"))
}

/// The tool without its commands. No word asks for help.
fn bare<'a>(alloc: Global) -> Command<'a>
    ensures app { app_of result ≡ bare_app }
    ensures local { (out-Command result).has_globals ≡ false }
{
    Command::new(alloc, "swiftcheck")
        .no_binary_name(true)
        .disable_help_flag(true)
        .disable_help_subcommand(true)
}

/// The tool with all its commands.
pub fn tool<'a>(alloc: Global) -> Result<Command<'a>, AllocError>
    ensures { IfOk result (λ command. app_of command ≡ tool) }
{
    bare(alloc)
        .subcommand(check(alloc)?)?
        .subcommand(pair(alloc, "verify")?)?
        .subcommand(pair(alloc, "run")?)?
        .subcommand(pair(alloc, "trace")?)?
        .subcommand(pair(alloc, "owners")?)?
        .subcommand(pair(alloc, "order")?)?
        .subcommand(demo(alloc)?)
}
