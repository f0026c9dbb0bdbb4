//! The commands of the tool, and the call that the program's `main` makes. The crate knows the
//! parts of each command and the replies. It knows nothing of how words are read or how a phase
//! finds a breach.
#![tactic(auto)]

ghost use Rattle.std.specs.Prelude.{◌≡◌, ◌≢◌, ◌<◌, ◌≤◌, ℕ, List, Some, None, IfSome, IfNone};
ghost use Rattle.std.specs.Prelude.{IsTrue, IsFalse, length};
ghost use Rattle.sw_outside.specs.Rise.{Rose};
ghost use Rattle.sw_outside.specs.Shelf.{KnownShelf, file_of};
ghost use Rattle.sw_check_parts.specs.declared.exit.Exit.{Exit};
ghost use Rattle.sw_check_parts.specs.declared.outcome.Outcome.{Outcome};
ghost use Rattle.sw_check_parts.specs.Course.{AreOf, Read};
ghost use Rattle.sw_check_parts.specs.Exit.{IsOneOf, is_failure, is_silent};
ghost use Rattle.sw_decls.specs.declared.signature.AsyncDefault.{AsyncDefault};
ghost use Rattle.sw_graph.specs.declared.graph.Graph.{Graph};
ghost use Rattle.sw_verdict.specs.Phases.{IsGraphOf, all_phases};
ghost use Rattle.sw_verdict.specs.Verdict.{Accepts, Refuses};
ghost use Rattle.sw_check.specs.Call.{Interrupted, Replied, Unanswered};
ghost use Rattle.sw_check.specs.Claims.{NeverRaces, ExitSays, ProgramFits, default_of, phases_of};
ghost use Rattle.sw_check.specs.Claims.{program_of};
ghost use Rattle.sw_check.specs.Reply.{Reply, exits_of};
ghost use Rattle.sw_check_words.specs.Words.{Check, Command, OnFile, Order, Verify, command_in};

mod commands;
mod laws;
mod lines;
mod parts;
mod reply;
mod steady;

pub use commands::items_in;
pub use laws::{certificate_limit, order_limit, program_limit, words_have_one_reply};
pub use parts::{Phases, judged, trace_ending};
use reply::{NoReply, reply};
use std::alloc::Global;
pub use steady::run_steady;
use sw_check_parts::write_all;
pub use sw_check_parts::{Exit, PROGRAM_LIMIT};
pub use sw_check_text::{Verdict, check_text, verdicts_are_exact};
use sw_outside::{Shelf, Sink, SinkFault};
pub use sw_verdict::{accepted_graphs_pass, texts_have_one_graph, texts_have_one_verdict};

/// Answers the words after the program's name over the shelf's files, and writes the reply into the
/// sink.
pub fn run_words<S: Shelf, K: Sink>(
    alloc: Global,
    words: &Vec<String>,
    shelf: &mut S,
    out: &mut K,
) -> Exit
    // An exit that reports no failure is that of a reply to the words, over files that were read in
    // its order. No others were read, and the whole reply was written and nothing else.
    ensures replied { IsFalse (is_failure result) → Replied (command_in words.now.items) result
        (S.known shelf.old) (S.known shelf.new) (K.written out.old) (K.written out.new) }
    // Where neither the outside nor memory failed, the exit reports no failure.
    ensures complete { ¬ (Rose (S.faults shelf.old) (S.faults shelf.new))
        → ¬ (Rose (K.faults out.old) (K.faults out.new)) → result ≢ Exit.Memory
        → IsFalse (is_failure result) }
    // Each command has its exits, whatever the files hold.
    ensures exits { IsFalse (is_failure result)
        → IsOneOf (exits_of (command_in words.now.items)) result }

    // Where the files are known, what the exit says of them holds: from the exit to the files.
    ensures says { IsFalse (is_failure result) → IfSome (S.known shelf.old) (λ known.
        ExitSays (file_of known.files) (command_in words.now.items) result) }
    // And from the files to the exit: where what some exit says of them holds, the call has that
    // exit. So a replay that runs to its end, traps or races has exit 0, 7 or 9, and no other call
    // has.
    ensures only { (known : KnownShelf) (exit : Exit) → S.known shelf.old ≡ Some known
        → ExitSays (file_of known.files) (command_in words.now.items) exit
        → IsFalse (is_failure result) → result ≡ exit }
    // The exit is that of every reply over the known files. There is one such reply, by the law
    // `words_have_one_reply`, and it was written, by `replied`.
    ensures exact { (known : KnownShelf) (reads : List Read) (outcome : Outcome)
        → S.known shelf.old ≡ Some known
        → AreOf (file_of known.files) reads → Reply (command_in words.now.items) reads outcome
        → IsFalse (is_failure result) → result ≡ outcome.exit }

    // Three cases of `only`. Words of no form have the exit of the usage line.
    ensures usage { command_in words.now.items ≡ None → IsFalse (is_failure result)
        → result ≡ Exit.Usage }
    // A program within the limit in which a phase that counts finds a breach is refused.
    ensures breached { (known : KnownShelf) (command : Command) → S.known shelf.old ≡ Some known
        → command_in words.now.items ≡ Some command
        → ProgramFits (file_of known.files) command
        → Refuses (default_of command) (phases_of command)
        (program_of (file_of known.files) command)
        → IsFalse (is_failure result) → result ≡ Exit.Breached }
    // `check` accepts a program within the limit in which no phase finds a breach.
    ensures accepted { (known : KnownShelf) (rule : AsyncDefault) (file : List ℕ)
        → S.known shelf.old ≡ Some known
        → command_in words.now.items ≡ Some (OnFile rule file Check)
        → length (file_of known.files file) ≤ PROGRAM_LIMIT
        → Accepts rule (file_of known.files file) → IsFalse (is_failure result)
        → result ≡ Exit.Done }

    // `verify` has that exit only for an accepted program, though nothing is solved.
    ensures certified { (known : KnownShelf) (rule : AsyncDefault) (file certificate_file : List ℕ)
        → S.known shelf.old ≡ Some known
        → command_in words.now.items ≡ Some (OnFile rule file (Verify certificate_file))
        → result ≡ Exit.Done → Accepts rule (file_of known.files file) }

    // Where all phases count for a command and don't refuse its program, which is within the limit,
    // the program has a graph, and no schedule, of any length, leads that to a race. A program that
    // is longer isn't judged, and nothing is said of it.
    ensures no_race { (known : KnownShelf) (command : Command) → S.known shelf.old ≡ Some known
        → command_in words.now.items ≡ Some command → phases_of command ≡ all_phases
        → ProgramFits (file_of known.files) command
        → IsFalse (is_failure result) → result ≢ Exit.Breached → (graph : Graph)
        × IsGraphOf (default_of command) (program_of (file_of known.files) command) graph
        × NeverRaces graph }
    // No command for which all phases count stops at a race, whatever the files hold.
    ensures not_raced { (command : Command) → command_in words.now.items ≡ Some command
        → phases_of command ≡ all_phases → result ≢ Exit.Raced }

    // `order` names no two accesses of a program that is accepted.
    ensures ordered { (known : KnownShelf) (rule : AsyncDefault) (file schedule_file : List ℕ)
        → S.known shelf.old ≡ Some known
        → command_in words.now.items ≡ Some (OnFile rule file (Order schedule_file))
        → Accepts rule (file_of known.files file) → result ≢ Exit.Unordered }

    // After a failed fetch the command is under way, and the file whose fetch failed was requested.
    ensures not_read { result ≡ Exit.NotRead
        → Unanswered (command_in words.now.items) 1 (S.known shelf.old) (S.known shelf.new) }
    // Where memory ran out, the command is under way.
    ensures no_memory { result ≡ Exit.Memory
        → Unanswered (command_in words.now.items) 0 (S.known shelf.old) (S.known shelf.new) }
    // After a failed write there is a reply, and a prefix of it was written.
    ensures not_written { result ≡ Exit.NotWritten → Interrupted (command_in words.now.items)
        (S.known shelf.old) (S.known shelf.new) (K.written out.old) (K.written out.new) }
    // Nothing is written where a fetch fails, a file is too long or memory runs out.
    ensures silent { IsTrue (is_silent result) → K.written out.new ≡ K.written out.old }

    // The exit of a failed fetch has no other cause. A count of failures that stands at its last
    // value can't rise any more, and counts as risen (`Rose`).
    ensures not_read_only { result ≡ Exit.NotRead → Rose (S.faults shelf.old) (S.faults shelf.new) }
    // A failed fetch has no other exit.
    ensures read_failed { S.faults shelf.old < S.faults shelf.new → result ≡ Exit.NotRead }
    // The exit of a failed write has no other cause.
    ensures not_written_only { result ≡ Exit.NotWritten
        → Rose (K.faults out.old) (K.faults out.new) }
    // A failed write has no other exit.
    ensures write_failed { K.faults out.old < K.faults out.new → result ≡ Exit.NotWritten }
    // Over unknown files a file was too long only where more bytes were received than a program may
    // have.
    ensures long_unknown { result ≡ Exit.TooLong
        → IfNone (S.known shelf.old) (PROGRAM_LIMIT < S.received shelf.new) }
{
    match reply(alloc, words, shelf) {
        Ok(outcome) => match write_all(out, outcome.bytes.as_slice()) {
            Ok(()) => outcome.exit,
            Err(SinkFault::Failed) => Exit::NotWritten,
        },
        Err(NoReply::NotRead) => Exit::NotRead,
        Err(NoReply::Memory) => Exit::Memory,
    }
}
