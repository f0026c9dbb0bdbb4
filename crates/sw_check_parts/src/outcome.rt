ghost use Rattle.std.specs.Prelude.{◌≡◌, ◌++◌, IfOk};
ghost use Rattle.sw_check_parts.specs.Course.{too_long_file};

use crate::exit::Exit;
use std::alloc::{AllocError, Global};
use sw_list::ListOf;

/// A reply to the words: the exit, where no write fails, and the bytes to write.
#[derive(Drop)]
pub struct Outcome {
    pub exit: Exit,
    pub bytes: ListOf<u8>,
}

/// A reply of some lines.
pub fn lines(alloc: Global, exit: Exit, text: &str) -> Result<Outcome, AllocError>
    ensures { IfOk result (λ outcome. outcome ≡ record { exit = exit; bytes = text.now }) }
{
    Ok(Outcome {
        exit,
        bytes: ListOf::from_slice(alloc, text.as_bytes())?,
    })
}

/// The reply where a file is longer than it may be: it has no bytes.
pub fn too_long(alloc: Global) -> Outcome
    ensures { result ≡ too_long_file }
{
    Outcome {
        exit: Exit::TooLong,
        bytes: ListOf::new(alloc),
    }
}

/// A reply of the lines that a program printed and one more.
pub fn with_last_line(exit: Exit, printed: ListOf<u8>, last: &str) -> Result<Outcome, AllocError>
    ensures { IfOk result (λ outcome.
        outcome ≡ record { exit = exit; bytes = printed ++ last.now }) }
{
    let mut bytes = printed.into_vec();
    bytes.extend_from_slice(last.as_bytes())?;
    Ok(Outcome {
        exit,
        bytes: ListOf::from_vec(bytes),
    })
}
