//! The command `swiftcheck_see`: it runs the words after its name over the system's files and standard
//! output. It knows the runtime and nothing of the words.
#![tactic(auto)]

ghost use Rattle.std.specs.Prelude.{◌≡◌};
ghost use Rattle.std.specs.IoError.{error_kind};
ghost use Rattle.swiftcheck_see.specs.Arguments.{arguments_status};

use std::env;
use std::io::{self, Error, ErrorKind};
use std::process::ExitCode;
use std::rt::Env;
use sw_outside::{FileShelf, StdSink};
use sw_see::{Exit, run_words};

/// The status where the arguments can't be read, for another cause than memory.
const NO_ARGUMENTS: u8 = 14;

/// The arguments after the program's name.
fn words<R: Env + AllocGlobal>(rt: &R) -> io::Result<Vec<String>> {
    let words = env::args(rt)?.skip(1).collect(rt.alloc())?;
    Ok(words)
}

/// The status of a call whose arguments can't be read.
fn status_of(error: &Error) -> u8
    ensures { result ≡ arguments_status (error_kind error.now) }
{
    match error.kind() {
        ErrorKind::OutOfMemory => Exit::Memory.status(),
        _ => NO_ARGUMENTS,
    }
}

fn main(rt: HostRuntime) -> ExitCode {
    let status = match words(&rt) {
        Ok(words) => {
            let mut shelf = FileShelf::new(&rt);
            let mut out = StdSink::new(&rt);
            run_words(rt.alloc(), &words, &mut shelf, &mut out).status()
        }
        Err(error) => status_of(&error),
    };
    ExitCode::from(status)
}
