//! The commands of the program that shows races, and the call that its `main` makes. The crate knows
//! the parts of each command and the replies. It knows nothing of how words are read, how a phase
//! finds a breach or how a race is found.
#![tactic(auto)]

ghost use Rattle.std.specs.Prelude.{◌≡◌, ◌≢◌, ◌<◌, ℕ, Bool, List, [], ◌∷◌, Some, IfNone, IsFalse};
ghost use Rattle.std.specs.Prelude.{IsTrue};
ghost use Rattle.sw_outside.specs.Rise.{Rose};
ghost use Rattle.sw_outside.specs.Shelf.{KnownShelf, file_of};
ghost use Rattle.sw_check_parts.specs.declared.exit.Exit.{Exit};
ghost use Rattle.sw_check_parts.specs.Exit.{IsOneOf, is_failure, is_silent};
ghost use Rattle.sw_see.specs.Call.{Interrupted, Replied, Unanswered};
ghost use Rattle.sw_decls.specs.declared.signature.AsyncDefault.{AsyncDefault};
ghost use Rattle.sw_see.specs.Claims.{BreachesAreShown, EventsAreDrawn, EventsAreTold};
ghost use Rattle.sw_see.specs.Claims.{RaceIsShown};
ghost use Rattle.sw_see.specs.Reply.{exits_of};
ghost use Rattle.sw_see_words.specs.Words.{Breaches, Draw, Find, OnFile, Steps, command_in};

mod commands;
mod parts;
mod reply;
mod view;

use reply::{NoReply, reply};
use std::alloc::Global;
use sw_check_parts::write_all;
pub use sw_check_parts::{Exit, PROGRAM_LIMIT};
use sw_outside::{Shelf, Sink, SinkFault};

/// Answers the words after the program's name over the shelf's files, and writes the reply into the
/// sink.
pub fn run_words<S: Shelf, K: Sink>(
    alloc: Global,
    words: &Vec<String>,
    shelf: &mut S,
    out: &mut K,
) -> Exit
    // An exit that reports no failure is that of a reply to the words, over files that were read in
    // its order. No others were read, and the whole reply was written and nothing else. `Reply`
    // says what the replies are: all breaches, a line for each event of a replay, a picture of one,
    // or the text of a schedule whose replay meets a race.
    ensures replied { IsFalse (is_failure result) → Replied (command_in words.now.items) result
        (S.known shelf.old) (S.known shelf.new) (K.written out.old) (K.written out.new) }
    // Where neither the outside nor memory failed, the exit reports no failure.
    ensures complete { ¬ (Rose (S.faults shelf.old) (S.faults shelf.new))
        → ¬ (Rose (K.faults out.old) (K.faults out.new)) → result ≢ Exit.Memory
        → IsFalse (is_failure result) }
    // Each command has its exits, whatever the files hold.
    ensures exits { IsFalse (is_failure result)
        → IsOneOf (exits_of (command_in words.now.items)) result }

    // Where the files are known: what `breaches` shows of a program that it doesn't accept is all of
    // its breaches.
    ensures shown { (known : KnownShelf) (rule : AsyncDefault) (file : List ℕ) (color : Bool)
        → S.known shelf.old ≡ Some known
        → command_in words.now.items ≡ Some (OnFile rule file (Breaches color))
        → result ≡ Exit.Breached
        → BreachesAreShown rule color file (file_of known.files file) (K.written out.old)
        (K.written out.new) }
    // What `steps` writes of a program and a schedule in which it finds no fault has a line for each
    // event of the replay, in order.
    ensures told { (known : KnownShelf) (rule : AsyncDefault) (file schedule_file : List ℕ)
        → S.known shelf.old ≡ Some known
        → command_in words.now.items ≡ Some (OnFile rule file (Steps schedule_file))
        → IsOneOf (Exit.Done ∷ Exit.Trapped ∷ Exit.Raced ∷ []) result
        → EventsAreTold rule (file_of known.files file) (file_of known.files schedule_file)
        (K.written out.old) (K.written out.new) }
    // What `find` writes with the exit of a race is a schedule by which the program races. It claims
    // nothing where it finds none.
    ensures found { (known : KnownShelf) (rule : AsyncDefault) (file : List ℕ)
        → S.known shelf.old ≡ Some known
        → command_in words.now.items ≡ Some (OnFile rule file Find) → result ≡ Exit.Raced
        → RaceIsShown rule (file_of known.files file) (K.written out.old) (K.written out.new) }

    // What `draw` writes of a program and a schedule in which it finds no fault is a picture of the
    // replay, with a mark for each event in order, in the lane of its job; or a page with the lines
    // of the program, its breaches and the picture.
    ensures drawn { (known : KnownShelf) (rule : AsyncDefault) (file schedule_file : List ℕ)
        (in_page : Bool) → S.known shelf.old ≡ Some known
        → command_in words.now.items ≡ Some (OnFile rule file (Draw schedule_file in_page))
        → result ≡ Exit.Done
        → EventsAreDrawn rule in_page file (file_of known.files file)
        (file_of known.files schedule_file) (K.written out.old) (K.written out.new) }

    // After a failed fetch the command is under way, and the file whose fetch failed was requested.
    ensures not_read { result ≡ Exit.NotRead
        → Unanswered (command_in words.now.items) 1 (S.known shelf.old) (S.known shelf.new) }
    // Where memory ran out, the command is under way.
    ensures no_memory { result ≡ Exit.Memory
        → Unanswered (command_in words.now.items) 0 (S.known shelf.old) (S.known shelf.new) }
    // After a failed write there is a reply, and a prefix of it was written.
    ensures not_written { result ≡ Exit.NotWritten → Interrupted (command_in words.now.items)
        (S.known shelf.old) (S.known shelf.new) (K.written out.old) (K.written out.new) }
    // Nothing is written where a fetch fails, a file is too long or memory runs out.
    ensures silent { IsTrue (is_silent result) → K.written out.new ≡ K.written out.old }

    // The exit of a failed fetch has no other cause, and a failed fetch no other exit.
    ensures not_read_only { result ≡ Exit.NotRead → Rose (S.faults shelf.old) (S.faults shelf.new) }
    ensures read_failed { S.faults shelf.old < S.faults shelf.new → result ≡ Exit.NotRead }
    // The exit of a failed write has no other cause, and a failed write no other exit.
    ensures not_written_only { result ≡ Exit.NotWritten
        → Rose (K.faults out.old) (K.faults out.new) }
    ensures write_failed { K.faults out.old < K.faults out.new → result ≡ Exit.NotWritten }
    // Over unknown files a file was too long only where more bytes were received than a program may
    // have.
    ensures long_unknown { result ≡ Exit.TooLong
        → IfNone (S.known shelf.old) (PROGRAM_LIMIT < S.received shelf.new) }
{
    match reply(alloc, words, shelf) {
        Ok(outcome) => match write_all(out, outcome.bytes.as_slice()) {
            Ok(()) => outcome.exit,
            Err(SinkFault::Failed) => Exit::NotWritten,
        },
        Err(NoReply::NotRead) => Exit::NotRead,
        Err(NoReply::Memory) => Exit::Memory,
    }
}
