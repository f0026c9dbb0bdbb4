ghost use Rattle.std.specs.Prelude.{◌≢◌, IsFalse};
ghost use Rattle.sw_check_parts.specs.declared.exit.Exit.{Exit};
ghost use Rattle.sw_check_parts.specs.Exit.{is_failure};

use crate::run_words;
use std::alloc::Global;
use sw_check_parts::Exit;
use sw_outside::{SteadyShelf, SteadySink};

/// Answers the words as `run_words` does, over files and output that never fail.
pub fn run_steady(
    alloc: Global,
    words: &Vec<String>,
    shelf: &mut SteadyShelf,
    out: &mut SteadySink,
) -> Exit
    // Nothing but want of memory can keep the reply away.
    ensures answered { result ≢ Exit.Memory → IsFalse (is_failure result) }
    ensures read { result ≢ Exit.NotRead }
    ensures written { result ≢ Exit.NotWritten }
{
    run_words(alloc, words, shelf, out)
}
