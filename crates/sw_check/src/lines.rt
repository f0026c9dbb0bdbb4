//! The lines about a replay, and about a certificate.

ghost use Rattle.std.specs.Prelude.{◌≡◌, ◌≢◌, ◌<◌, IfOk, length, string_bytes};
ghost use Rattle.sw_replay.specs.Items.{position_of};
ghost use Rattle.sw_check.specs.Lines.{access_line, access_lines, certificate_at, certificate_line};
ghost use Rattle.sw_check.specs.Lines.{deed, demo_line, line_count, ordered_line, race_lines};
ghost use Rattle.sw_check.specs.Lines.{schedule_line, schedule_text, summary, trap_line, trap_text};
ghost use Rattle.sw_check.specs.Lines.{unordered_lines};

use std::alloc::{AllocError, Global};
use sw_cert::CertFault;
use sw_replay::{Output, SchedFault};
use sw_text::shown_position;
use sw_value::{Access, Race, TrapKind};

/// `done D of J jobs`.
#[tactic(auto, unfolding(crate::specs::Lines::summary))]
pub fn summary(alloc: Global, ended: u32, jobs: u32) -> Result<String, AllocError>
    ensures { IfOk result (λ text. string_bytes text ≡ summary ended jobs) }
{
    format!(in alloc; "done {ended} of {jobs} jobs\n")
}

/// How many lines the bytes are.
fn line_count(bytes: &[u8]) -> usize
    ensures { result ≡ line_count bytes.now }
{
    bytes.iter().filter(|byte| **byte == b'\n').count()
}

/// The line about a generated program with the text `bytes` of which all items were taken.
#[tactic(auto, unfolding(crate::specs::Lines::demo_line))]
pub fn demo_line(
    alloc: Global,
    actors: u32,
    bytes: &[u8],
    output: &Output,
) -> Result<String, AllocError>
    ensures { IfOk result (λ text.
        string_bytes text
        ≡ demo_line actors bytes.now output.now.lines output.now.ended output.now.jobs) }
{
    let length = bytes.len();
    let count = line_count(output.lines.as_slice());
    let end = summary(alloc, output.ended, output.jobs)?;
    format!(in alloc; "demo {actors}: {length} bytes, {count} lines, {end}")
}

/// What halted the machine, in words.
fn trap_text(kind: TrapKind) -> &'static str
    ensures { result.now ≡ trap_text kind }
{
    match kind {
        TrapKind::Overflow => "overflow",
        TrapKind::ZeroDivisor => "division by zero",
        TrapKind::Frames => "too many frames",
        TrapKind::Jobs => "too many jobs",
    }
}

/// The line about a trap at the byte offset `at` of the text `bytes`.
#[tactic(auto, unfolding(crate::specs::Lines::trap_line))]
pub fn trap_line(alloc: Global, bytes: &[u8], kind: TrapKind, at: u32) -> Result<String, AllocError>
    requires { length bytes.now < 4294967295 }
    ensures { IfOk result (λ text. string_bytes text ≡ trap_line bytes.now kind at) }
{
    let position = shown_position(alloc, bytes, at)?;
    let text = trap_text(kind);
    format!(in alloc; "{position}: trap: {text}\n")
}

/// What a job is about to do.
#[tactic(auto, unfolding(crate::specs::Lines::deed))]
fn deed(alloc: Global, job: u32, writes: bool) -> Result<String, AllocError>
    ensures { IfOk result (λ text. string_bytes text ≡ deed job writes) }
{
    if writes {
        format!(in alloc; "job {job} writes")
    } else {
        format!(in alloc; "job {job} reads")
    }
}

/// The line about an access of the program with the text `bytes`; the word says what is wrong.
#[tactic(auto, unfolding(crate::specs::Lines::access_line))]
fn access_line(
    alloc: Global,
    bytes: &[u8],
    word: &str,
    access: Access,
) -> Result<String, AllocError>
    requires { length bytes.now < 4294967295 }
    ensures { IfOk result (λ text. string_bytes text ≡ access_line bytes.now word.now access) }
{
    let position = shown_position(alloc, bytes, access.at)?;
    let deed = deed(alloc, access.job, access.writes)?;
    format!(in alloc; "{position}: {word}: {deed}\n")
}

/// The lines about two accesses.
#[tactic(auto, unfolding(crate::specs::Lines::access_lines))]
fn access_lines(
    alloc: Global,
    bytes: &[u8],
    word: &str,
    first: Access,
    second: Access,
) -> Result<String, AllocError>
    requires { length bytes.now < 4294967295 }
    ensures { IfOk result (λ text.
        string_bytes text ≡ access_lines bytes.now word.now first second) }
{
    let first = access_line(alloc, bytes, word, first)?;
    let second = access_line(alloc, bytes, word, second)?;
    format!(in alloc; "{first}{second}")
}

/// The lines about the two accesses of a race.
pub fn race_lines(alloc: Global, bytes: &[u8], race: Race) -> Result<String, AllocError>
    requires { length bytes.now < 4294967295 }
    ensures { IfOk result (λ text. string_bytes text ≡ race_lines bytes.now race) }
{
    access_lines(alloc, bytes, "race", race.first, race.second)
}

/// The lines about two accesses that nothing orders.
pub fn unordered_lines(
    alloc: Global,
    bytes: &[u8],
    first: Access,
    second: Access,
) -> Result<String, AllocError>
    requires { length bytes.now < 4294967295 }
    ensures { IfOk result (λ text. string_bytes text ≡ unordered_lines bytes.now first second) }
{
    access_lines(alloc, bytes, "unordered", first, second)
}

/// `ordered: A accesses`.
#[tactic(auto, unfolding(crate::specs::Lines::ordered_line))]
pub fn ordered_line(alloc: Global, accesses: u64) -> Result<String, AllocError>
    ensures { IfOk result (λ text. string_bytes text ≡ ordered_line accesses) }
{
    format!(in alloc; "ordered: {accesses} accesses\n")
}

/// The byte offset that a fault of a schedule names.
fn position_of(fault: SchedFault) -> u32
    ensures { result ≡ position_of fault }
{
    match fault {
        SchedFault::BadItem { at } | SchedFault::TooBig { at } | SchedFault::TooMany { at } => at,
        SchedFault::Memory => 0,
    }
}

/// What is wrong with a schedule, in words.
fn schedule_text(fault: SchedFault) -> &'static str
    ensures { result.now ≡ schedule_text fault }
{
    match fault {
        SchedFault::BadItem { .. } => "not a number",
        SchedFault::TooBig { .. } => "number too big",
        SchedFault::TooMany { .. } => "too many items",
        SchedFault::Memory => "out of memory",
    }
}

/// The line about a fault of the schedule's text `bytes`.
#[tactic(auto, unfolding(crate::specs::Lines::schedule_line))]
pub fn schedule_line(alloc: Global, bytes: &[u8], fault: SchedFault) -> Result<String, AllocError>
    requires { length bytes.now < 4294967295 }
    ensures { IfOk result (λ text. string_bytes text ≡ schedule_line bytes.now fault) }
{
    let position = shown_position(alloc, bytes, position_of(fault))?;
    let text = schedule_text(fault);
    format!(in alloc; "{position}: schedule: {text}\n")
}

/// The line about a fault at the byte offset `at` of the certificate `bytes`.
#[tactic(auto, unfolding(crate::specs::Lines::certificate_at))]
fn certificate_at(alloc: Global, bytes: &[u8], at: u32, text: &str) -> Result<String, AllocError>
    requires { length bytes.now < 4294967295 }
    ensures { IfOk result (λ line. string_bytes line ≡ certificate_at bytes.now at text.now) }
{
    let position = shown_position(alloc, bytes, at)?;
    format!(in alloc; "{position}: {text}\n")
}

/// The line about a fault of the certificate `bytes`.
#[tactic(auto, unfolding(crate::specs::Lines::certificate_line))]
pub fn certificate_line(alloc: Global, bytes: &[u8], fault: CertFault) -> Result<String, AllocError>
    requires short { length bytes.now < 4294967295 }
    requires answers { fault ≢ CertFault.Memory }
    ensures { IfOk result (λ text. string_bytes text ≡ certificate_line bytes.now fault) }
{
    match fault {
        CertFault::BadForm { at } => certificate_at(alloc, bytes, at, "certificate: not in form"),
        CertFault::Entry { function } => {
            format!(in alloc; "certificate: entry of function {function}\n")
        }
        CertFault::Fails { at } => certificate_at(alloc, bytes, at, "certificate: test fails"),
        CertFault::Open { at } => certificate_at(alloc, bytes, at, "certificate: not closed"),
        CertFault::Memory => unreachable!(),
    }
}
