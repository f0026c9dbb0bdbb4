//! Calls of the tool as data. Each file `data/cases/TOPIC/NAME.case` has the words of a call, its
//! files and its reply; each file `data/differing/NAME.case` has a reply that its call doesn't
//! have, and so tests the comparison. Those in `data/see` are calls of `swiftcheck_see`. The calls
//! that `data/shown.md` shows are made too. The program prints each call that is wrong, with what
//! the tool replied, and at the end the numbers of calls.
//!
//! Each call of a case in `data/cases` whose first word is `run` is made once more with `trace` in
//! the place of that word, unless its reply is a refusal, and should have the very same reply. That
//! includes words that have no form and files that can't be read, which end both commands alike. A
//! refusal is left out, since `trace` judges programs by fewer phases and may go on.
//!
//! A case file begins with the words, one on each line. A line `---- NAME` begins the text of a
//! file, and `---- exit STATUS` the reply. `---- NAME times N` repeats the text that follows; after
//! `open` its last line feed isn't part of the text; after `hex` it is bytes in hexadecimal. Texts
//! of one file that follow one another are one text. A line `---- fetches` begins the numbers of
//! the fetches that fail, and `---- puts STEP ROOM` those of the puts that fail, into a sink of
//! that room that writes at most `STEP` bytes in a put.
#![tactic(auto)]

mod case;
mod folder;
mod head;
mod outcome;
mod tally;
mod transcript;

use case::Case;
use folder::{files_in, names_in, topic_files};
use outcome::{Outcome, Program};
use std::alloc::{AllocError, Global};
use std::process::ExitCode;
use std::rt::Files;
use std::{fs, io};
use tally::Tally;
use transcript::shown_calls;

/// Makes the call of a case, and counts whether its reply is as it should be.
fn run_case<R: Print + AllocGlobal>(
    rt: &R,
    tally: &mut Tally,
    name: &str,
    case: &Case,
) -> io::Result<()> {
    let outcome = Outcome::of(rt.alloc(), tally.program, case)?;
    let is_reply = outcome.is_reply(case.exit, case.reply.as_slice());
    if tally.count(is_reply) {
        return Ok(());
    }
    let exit = outcome.exit;
    let reply = outcome.text();
    println!(rt; "wrong: {name}\nexit {exit}\n{reply}")
}

/// Makes the call of a case file. A file that is no case is counted as one with another reply.
fn run_file<R: Files + Print + AllocGlobal>(
    rt: &R,
    tally: &mut Tally,
    path: &str,
) -> io::Result<()> {
    let text = fs::read_to_string(rt, path)?;
    match Case::parse(rt.alloc(), text.as_str())? {
        Some(case) => run_case(rt, tally, path, &case),
        None => {
            if tally.count(false) {
                return Ok(());
            }
            println!(rt; "wrong: {path}\nno case")
        }
    }
}

/// Makes the calls of case files.
fn run_files<R: Files + Print + AllocGlobal>(
    rt: &R,
    tally: &mut Tally,
    paths: &[String],
) -> io::Result<()> {
    for path in paths {
        run_file(rt, tally, path.as_str())?;
    }
    Ok(())
}

/// The call of a case file with `trace` in the place of `run`, if it is to be made.
fn traced_case(alloc: Global, text: &str) -> Result<Option<Case>, AllocError> {
    match Case::parse(alloc, text)? {
        Some(case) => case.traced(alloc),
        None => Ok(None),
    }
}

/// Makes the call of a case file with `trace` in the place of `run`, if it is to be made.
fn trace_file<R: Files + Print + AllocGlobal>(
    rt: &R,
    tally: &mut Tally,
    path: &str,
) -> io::Result<()> {
    let text = fs::read_to_string(rt, path)?;
    let Some(case) = traced_case(rt.alloc(), text.as_str())? else {
        return Ok(());
    };
    let name = format!(in rt.alloc(); "{path} by trace")?;
    run_case(rt, tally, name.as_str(), &case)
}

/// Makes the calls of case files with `trace` in the place of `run`.
fn trace_files<R: Files + Print + AllocGlobal>(
    rt: &R,
    tally: &mut Tally,
    paths: &[String],
) -> io::Result<()> {
    for path in paths {
        trace_file(rt, tally, path.as_str())?;
    }
    Ok(())
}

/// Makes the calls that a document shows by lines that begin so, over the files of the examples.
fn run_document<R: Files + Print + AllocGlobal + Clone + Drop>(
    rt: &R,
    tally: &mut Tally,
    path: &str,
    begin: &str,
) -> io::Result<()> {
    let text = fs::read_to_string(rt, path)?;
    for case in shown_calls(rt.alloc(), begin, text.as_str())? {
        run_shown(rt, tally, path, case)?;
    }
    Ok(())
}

/// Makes a call that a document shows.
fn run_shown<R: Files + Print + AllocGlobal + Clone + Drop>(
    rt: &R,
    tally: &mut Tally,
    path: &str,
    case: Case,
) -> io::Result<()> {
    let mut case = case;
    case.files = files_in(rt, "examples")?;
    run_case(rt, tally, path, &case)
}

/// Prints a number of calls, and returns how many of them are wrong.
fn report<R: Print>(rt: &R, tally: &Tally, what: &str) -> io::Result<u64> {
    let calls = tally.calls;
    println!(rt; "{calls} {what}")?;
    Ok(tally.wrong)
}

/// Makes the calls of the cases of all topics, and returns how many are wrong.
fn all_cases<R: Files + Print + AllocGlobal + Clone + Drop>(rt: &R) -> io::Result<u64> {
    let mut cases = Tally::new(Program::Check, true);
    run_files(rt, &mut cases, topic_files(rt, "cases")?.as_slice())?;
    report(rt, &cases, "cases")
}

/// Makes the calls of the cases of `swiftcheck_see`, and returns how many are wrong.
fn all_seen<R: Files + Print + AllocGlobal + Clone + Drop>(rt: &R) -> io::Result<u64> {
    let mut seen = Tally::new(Program::See, true);
    run_files(rt, &mut seen, topic_files(rt, "see")?.as_slice())?;
    report(rt, &seen, "cases of swiftcheck_see")
}

/// Makes the calls of the cases with another reply, and returns how many are wrong.
fn all_differing<R: Files + Print + AllocGlobal + Clone + Drop>(rt: &R) -> io::Result<u64> {
    let mut differing = Tally::new(Program::Check, false);
    run_files(rt, &mut differing, names_in(rt, "differing")?.as_slice())?;
    report(rt, &differing, "cases with another reply")
}

/// Makes the calls that the documents show, and returns how many are wrong.
fn all_shown<R: Files + Print + AllocGlobal + Clone + Drop>(rt: &R) -> io::Result<u64> {
    let mut shown = Tally::new(Program::Check, true);
    run_document(rt, &mut shown, "shown.md", "$ ./swiftcheck ")?;
    report(rt, &shown, "calls that the documents show")
}

/// Makes the calls of `swiftcheck_see` that the documents show, and returns how many are wrong.
fn all_shown_seen<R: Files + Print + AllocGlobal + Clone + Drop>(rt: &R) -> io::Result<u64> {
    let mut shown = Tally::new(Program::See, true);
    run_document(rt, &mut shown, "shown.md", "$ swiftcheck_see ")?;
    report(
        rt,
        &shown,
        "calls of swiftcheck_see that the documents show",
    )
}

/// Makes the calls of the cases of all topics with `trace` in the place of `run`, and returns how
/// many are wrong.
fn all_traced<R: Files + Print + AllocGlobal + Clone + Drop>(rt: &R) -> io::Result<u64> {
    let mut traced = Tally::new(Program::Check, true);
    trace_files(rt, &mut traced, topic_files(rt, "cases")?.as_slice())?;
    report(rt, &traced, "cases of run with the same reply by trace")
}

/// Makes all calls, prints their numbers and returns how many are wrong.
fn run_all<R: Files + Print + AllocGlobal + Clone + Drop>(rt: &R) -> io::Result<u64> {
    let wrong = all_cases(rt)?;
    let wrong = wrong.saturating_add(all_differing(rt)?);
    let wrong = wrong.saturating_add(all_shown(rt)?);
    let wrong = wrong.saturating_add(all_traced(rt)?);
    let wrong = wrong.saturating_add(all_seen(rt)?);
    Ok(wrong.saturating_add(all_shown_seen(rt)?))
}

fn main(rt: HostRuntime) -> io::Result<ExitCode> {
    let wrong = run_all(&rt)?;
    if wrong == 0 {
        return Ok(ExitCode::SUCCESS);
    }
    println!(rt; "{wrong} are wrong")?;
    Ok(ExitCode::FAILURE)
}
