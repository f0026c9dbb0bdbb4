ghost use Rattle.std.specs.Prelude.{◌≡◌, ◌≢◌, ◌+◌, ◌<◌, ◌≤◌, ◌^◌, length, IfOk, IfErr};
ghost use Rattle.sw_replay.specs.Items.{IsItems, IsFirstFault};
ghost use Rattle.sw_replay.specs.Reading.{found_at, items_or_fault, Schedules};

use crate::items::{MAX_ITEMS, Schedule};
use crate::runs::{Run, run_at};
use std::alloc::{AllocError, Global};
use sw_list::ListOf;
use sw_scan::is_blank;
use thiserror::Error;

/// The most bytes of a schedule text.
pub const SCHEDULE_LIMIT: usize = 4_194_304;

/// Why a text has no items, or why none were read. `at` is a byte offset into the text; before it
/// stand separators and runs alone, or the first bytes of the run that has the fault.
#[derive(Clone, Copy, Debug, PartialEq, Eq, Error)]
pub enum SchedFault {
    /// What stands here can't: a byte that is neither a separator nor a digit where a run may
    /// begin, neither a separator nor a star after the digits of a job, no digit directly after a
    /// star, or no separator after the digits of a count. After a star it may also be the end of
    /// the text.
    #[error("byte {at} can't stand there")]
    BadItem { at: u32 },
    /// The number whose first digit stands here, a job or a count, is above 4,294,967,295.
    #[error("the number at byte {at} is too big")]
    TooBig { at: u32 },
    /// The run whose first digit stands here has no other fault, and with it the list would have
    /// more than [`MAX_ITEMS`] items.
    #[error("the run at byte {at} has too many items")]
    TooMany { at: u32 },
    /// Memory for the runs ran out. Nothing is said of the text.
    #[error("out of memory")]
    Memory,
}

impl From<AllocError> for SchedFault {
    ghost use Rattle.std.specs.Prelude.{◌≡◌};
    ghost use Rattle.sw_replay.specs.declared.text.SchedFault.TheVariants.{Memory};

    ghost from_gives = { λ _ fault. fault ≡ Memory };

    fn from(_error: AllocError) -> SchedFault {
        SchedFault::Memory
    }
}

/// The items of a schedule text: jobs `J`, and runs `J*C` of a job that stands in the list `C`
/// times, with spaces, tabs, carriage returns and line feeds between them, which may also stand at
/// both ends. Where the text has no items it answers the first fault. `Memory` alone is free: it
/// may come of any text.
pub fn schedule(alloc: Global, bytes: &[u8]) -> Result<Schedule, SchedFault>
    requires { length bytes.now ≤ SCHEDULE_LIMIT }
    ensures items { IfOk result (IsItems bytes.now) }
    ensures fault { IfErr result
        (λ fault. fault ≢ SchedFault.Memory → IsFirstFault bytes.now fault) }
{
    items_of(alloc, bytes)
}

fn items_of(alloc: Global, bytes: &[u8]) -> Result<Schedule, SchedFault>
    requires { length bytes.now < 2 ^ 32 }
    ensures { Schedules (items_or_fault bytes.now) result }
{
    let mut runs = ListOf::new(alloc);
    let mut count = 0;
    let mut at = 0;
    loop {
        match found_at(&bytes[at..], at as u32, count)? {
            Found::End => return Ok(Schedule::new(runs)),
            Found::Separator => at += 1,
            Found::Run(run) => {
                runs.push((run.job, run.count))?;
                count += run.count as usize;
                at += run.len;
            }
        }
    }
}

/// What bytes begin with.
#[derive(Clone, Copy)]
enum Found {
    End,
    Separator,
    Run(Run),
}

/// What the bytes begin with, which stand at the offset `at` of a text after `count` items.
#[tactic(auto, unfolding(crate::specs::Reading::found_at))]
fn found_at(bytes: &[u8], at: u32, count: usize) -> Result<Found, SchedFault>
    requires offset { at + length bytes.now < 2 ^ 32 }
    requires count { count ≤ MAX_ITEMS }
    ensures { result ≡ found_at at count bytes.now }
{
    let Some(byte) = bytes.first().copied() else {
        return Ok(Found::End);
    };
    if is_blank(byte) {
        return Ok(Found::Separator);
    }
    let run = run_at(bytes, at)?;
    if count + run.count as usize > MAX_ITEMS {
        return Err(SchedFault::TooMany { at });
    }
    Ok(Found::Run(run))
}
