//! The language server `swiftcheck_lsp`: it serves one client over standard input and output, to the
//! end of the session. The word after its name, if there is one, is the address of the page of codes.
//! It knows the runtime and nothing of messages.
#![tactic(auto)]

ghost use Rattle.std.specs.Prelude.{◌≡◌};
ghost use Rattle.std.specs.IoError.{error_kind};
ghost use Rattle.swiftcheck_lsp.specs.Statuses.{arguments_status, status_of};

#[cfg(test)]
mod fault_tests;

use std::env;
use std::io::{self, Error, ErrorKind, Input};
use std::process::ExitCode;
use std::rt::Env;
use sw_lsp::{Ending, Stop, serve};
use sw_lsp_findings::Setting;

/// The address of the page of codes, if there is one.
fn pages<R: Env + AllocGlobal>(rt: &R) -> io::Result<Option<String>> {
    let words: Vec<String> = env::args(rt)?.skip(1).collect(rt.alloc())?;
    Ok(words.into_iter().next())
}

/// The status of a session.
fn status_of(served: Result<Ending, Stop>) -> u8
    ensures { result ≡ status_of served }
{
    match served {
        Ok(Ending::Done) => 0,
        Ok(Ending::Dropped | Ending::Closed) => 1,
        Ok(Ending::CutOff) => 2,
        Err(Stop::NotRead) => 3,
        Ok(Ending::TooLong) => 4,
        Err(Stop::NotWritten) => 5,
        Err(Stop::Memory) => 6,
        Err(Stop::TooManyTurns) => 7,
    }
}

/// The status where the arguments can't be read.
fn arguments_status(error: &Error) -> u8
    ensures { result ≡ arguments_status (error_kind error.now) }
{
    match error.kind() {
        ErrorKind::OutOfMemory => 6,
        _ => 14,
    }
}

fn main(rt: HostRuntime) -> ExitCode {
    let status = match pages(&rt) {
        Ok(pages) => {
            let mut input = rt.reader();
            let mut output = io::writer(&rt);
            status_of(serve(rt.alloc(), Setting::new(pages), &mut input, &mut output))
        }
        Err(error) => arguments_status(&error),
    };
    ExitCode::from(status)
}
