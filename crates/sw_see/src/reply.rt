ghost use Rattle.std.specs.Prelude.{◌≡◌, IfOk, IfNone, OnOk, IsErrOf, IsFalse, ◌<◌, map};
ghost use Rattle.std.specs.Prelude.{string_bytes};
ghost use Rattle.sw_outside.specs.Rise.{Rose};
ghost use Rattle.sw_check_parts.specs.Exit.{IsOneOf, is_failure};
ghost use Rattle.sw_see.specs.Call.{Answered, Unanswered};
ghost use Rattle.sw_see.specs.Reply.{exits_of};
ghost use Rattle.sw_see_words.specs.Words.{command_of};

use crate::commands::answer;
use std::alloc::Global;
use sw_check_parts::{Exit, Outcome, PROGRAM_LIMIT, Stop};
use sw_outside::Shelf;

/// Why there is no reply.
#[derive(Clone, Copy, Debug, PartialEq, Eq)]
pub enum NoReply {
    /// A fetch failed.
    NotRead,
    /// Memory ran out.
    Memory,
}

/// A reply to the words after the program's name, whichever part of the command decides it.
pub fn reply<S: Shelf>(alloc: Global, words: &[String], shelf: &mut S) -> Result<Outcome, NoReply>
    ensures answered { IfOk result
        (λ outcome. Answered (command_of (map string_bytes words.now)) (S.known shelf.old) outcome
        (S.known shelf.new)) }
    ensures exits { IfOk result
        (λ outcome. IsOneOf (exits_of (command_of (map string_bytes words.now))) outcome.exit) }
    ensures no_failure { IfOk result (λ outcome. IsFalse (is_failure outcome.exit)) }
    ensures not_read { IsErrOf result NoReply.NotRead
        → Unanswered (command_of (map string_bytes words.now)) 1 (S.known shelf.old)
        (S.known shelf.new) }
    ensures no_memory { IsErrOf result NoReply.Memory
        → Unanswered (command_of (map string_bytes words.now)) 0 (S.known shelf.old)
        (S.known shelf.new) }
    ensures long { IfOk result (λ outcome. outcome.exit ≡ Exit.TooLong
        → IfNone (S.known shelf.old) (PROGRAM_LIMIT < S.received shelf.new)) }
    ensures steady { OnOk result (S.faults shelf.new ≡ S.faults shelf.old) }
    ensures failed { IsErrOf result NoReply.NotRead
        → Rose (S.faults shelf.old) (S.faults shelf.new) }
    ensures memory { IsErrOf result NoReply.Memory → S.faults shelf.new ≡ S.faults shelf.old }
{
    match answer(alloc, words, shelf) {
        Ok(outcome) => Ok(outcome),
        Err(Stop::Refused(outcome)) => Ok(outcome),
        Err(Stop::NotRead) => Err(NoReply::NotRead),
        Err(Stop::Memory) => Err(NoReply::Memory),
    }
}
