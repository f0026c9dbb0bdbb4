//! Items as the text of a schedule.

ghost use Rattle.std.specs.Prelude.{◌≤◌, length};

use std::alloc::{AllocError, Global};
use sw_list::ListOf;

/// How many of the items are the job's before one isn't.
fn run_len(job: u32, items: &[u32]) -> usize
    ensures { result ≤ length items.now }
{
    items.iter().take_while(|item| **item == job).count()
}

/// A job that takes so many steps.
fn run_text(alloc: Global, job: u32, count: usize) -> Result<String, AllocError> {
    if count == 1 {
        format!(in alloc; "{job}")
    } else {
        format!(in alloc; "{job}*{count}")
    }
}

/// The text of a schedule of these items: runs of one job with a blank between them, on one line.
pub fn schedule_text(alloc: Global, items: &[u32]) -> Result<ListOf<u8>, AllocError> {
    let mut text = Vec::new(alloc);
    let mut rest = items;
    while let Some((job, others)) = rest.split_first() {
        let more = run_len(*job, others);
        let run = run_text(alloc, *job, more + 1)?;
        text.extend_from_slice(run.as_bytes())?;
        text.push(if more < others.len() { b' ' } else { b'\n' })?;
        rest = &others[more..];
    }
    Ok(ListOf::from_vec(text))
}
