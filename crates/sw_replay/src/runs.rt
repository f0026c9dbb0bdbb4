ghost use Rattle.std.specs.Prelude.{◌≡◌, ◌+◌, ◌<◌, ◌≤◌, ◌^◌, length, IfOk, IsTrue};
ghost use Rattle.std.specs.List.{list_all};
ghost use Rattle.sw_scan.specs.Classes.{is_digit};
ghost use Rattle.sw_scan.specs.Decimal.{number_of};
ghost use Rattle.sw_replay.specs.Reading.{fitting, number_at, run_past, run_at, counted, ending};

use crate::text::SchedFault;
use sw_scan::{digits_len, is_blank};

/// A number, and how many digits it has.
#[derive(Clone, Copy)]
pub struct Number {
    pub value: u32,
    pub len: usize,
}

/// A job, how often it stands in the list, and how many bytes say so.
#[derive(Clone, Copy)]
pub struct Run {
    pub job: u32,
    pub count: u32,
    pub len: usize,
}

/// The run that the bytes begin with, which stand at the offset `at`: `J`, or `J*C`.
#[tactic(auto, unfolding(crate::specs::Reading::run_at))]
pub fn run_at(bytes: &[u8], at: u32) -> Result<Run, SchedFault>
    requires { at + length bytes.now < 2 ^ 32 }
    ensures { result ≡ run_at at bytes.now }
{
    let job = number_at(bytes, at)?;
    run_past(&bytes[job.len..], at + job.len as u32, job)
}

/// The run of a job, where the bytes follow it at the offset `at`.
#[tactic(auto, unfolding(crate::specs::Reading::run_past))]
fn run_past(bytes: &[u8], at: u32, job: Number) -> Result<Run, SchedFault>
    requires offset { at + length bytes.now < 2 ^ 32 }
    requires len { job.len + length bytes.now < 2 ^ 32 }
    ensures { result ≡ run_past at bytes.now job }
{
    let once = Run {
        job: job.value,
        count: 1,
        len: job.len,
    };
    let Some(byte) = bytes.first().copied() else {
        return Ok(once);
    };
    if byte == b'*' {
        return counted(&bytes[1..], at + 1, job);
    }
    ending(bytes, at, once)
}

/// The run of a job and of the count after its star, where the bytes follow the star at the offset
/// `at`.
fn counted(bytes: &[u8], at: u32, job: Number) -> Result<Run, SchedFault>
    requires offset { at + length bytes.now < 2 ^ 32 }
    requires len { job.len + length bytes.now + 1 < 2 ^ 32 }
    ensures { result ≡ counted at bytes.now job (number_at at bytes.now) }
{
    let count = number_at(bytes, at)?;
    let run = Run {
        job: job.value,
        count: count.value,
        len: job.len + 1 + count.len,
    };
    ending(&bytes[count.len..], at + count.len as u32, run)
}

/// The run, where a separator or nothing follows it at the offset `at`.
fn ending(bytes: &[u8], at: u32, run: Run) -> Result<Run, SchedFault>
    ensures { result ≡ ending at bytes.now run }
{
    match bytes.first().copied() {
        Some(byte) if !is_blank(byte) => Err(SchedFault::BadItem { at }),
        _ => Ok(run),
    }
}

/// The number that the bytes begin with, which stand at the offset `at`.
#[tactic(auto, unfolding(crate::specs::Reading::number_at))]
fn number_at(bytes: &[u8], at: u32) -> Result<Number, SchedFault>
    ensures value { result ≡ number_at at bytes.now }
    ensures within { IfOk result (λ number. number.len ≤ length bytes.now) }
{
    let len = digits_len(bytes);
    if len == 0 {
        return Err(SchedFault::BadItem { at });
    }
    match number_of(&bytes[..len]) {
        None => Err(SchedFault::TooBig { at }),
        Some(value) => Ok(Number { value, len }),
    }
}

/// The number that digits spell, if it is one of 32 bits.
fn number_of(digits: &[u8]) -> Option<u32>
    requires { IsTrue (list_all is_digit digits.now) }
    ensures { result ≡ fitting (number_of digits.now) }
{
    let mut number: u32 = 0;
    for digit in digits {
        let tens = number.checked_mul(10)?;
        number = tens.checked_add(u32::from(*digit - b'0'))?;
    }
    Some(number)
}
