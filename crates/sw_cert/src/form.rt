//! The form of certificates, and numbers that may stand somewhere. A number in form is read
//! directly. Only where that gives none is it looked for among all that may stand there, which also
//! tells how far the text goes with one of them.
ghost use Rattle.std.specs.Prelude.{◌≡◌, ℕ, ◌+◌, ◌<◌, ◌≤◌, ◌↔◌, length, Contains, IfOk, IfErr};
ghost use Rattle.std.specs.Prelude.{slice_index, IfSome};
ghost use Rattle.sw_dictation.specs.Numbers.{IsOffered};
ghost use Rattle.sw_cert.specs.Begun.{IsScale, IsNext, IsStuck, IsJust, IsBetween};
ghost use Rattle.sw_cert.specs.Slips.{IfBad};

use crate::line::Extent;
use crate::slip::Slip;
use std::alloc::{AllocError, Global};
use sw_dictation::{number, spoken};
use sw_list::ListOf;

/// What a certificate depends on of each function, and the numbers from 0 on, past all that a line
/// may name but the number of its pairs.
#[derive(Debug, Drop)]
pub(crate) struct Form {
    pub extents: ListOf<Extent>,
    pub scale: ListOf<u64>,
}

/// The numbers below a count.
pub(crate) fn scale(alloc: Global, count: usize) -> Result<ListOf<u64>, AllocError>
    ensures length { IfOk result (λ scale. length scale ≡ count) }
    ensures scale { IfOk result IsScale }
{
    let mut scale = ListOf::new(alloc);
    for n in 0..count {
        scale.push(n as u64)?;
    }
    Ok(scale)
}

/// The numbers from one on and below another.
pub(crate) fn range(scale: &[u64], from: usize, to: usize) -> &[u64]
    requires scale { IsScale scale.now }
    requires within { to ≤ length scale.now }
    ensures { (n : ℕ) → Contains result.now n ↔ ((from ≤ n) × (n < to)) }
{
    let first = from.min(to);
    &scale[first..to]
}

/// The number at a byte of a text, of those that a list offers: one of the first list, which a line
/// feed closes, or one of the second, which a blank closes. With it goes the place behind its
/// closer.
pub(crate) fn next(
    text: &[u8],
    at: usize,
    ending: &[u64],
    going: &[u64],
) -> Result<(u64, usize), Slip>
    requires { at ≤ length text.now }
    ensures said { IfOk result (λ said.
        IsNext (IsOffered ending.now going.now) text.now at said.0 said.1) }
    ensures bad { IfErr result (IfBad (IsStuck (IsOffered ending.now going.now) text.now at)) }
{
    match number(&text[at..], ending, going) {
        Ok((number, len)) => Ok((number, at + len)),
        Err(over) => Err(Slip::Bad { at: at + over }),
    }
}

/// The number at a byte of a text, the byte that closes it, and the place behind that. It looks
/// once at each byte, and overlooks some numbers of more than 19 digits.
pub(crate) fn number_at(text: &[u8], at: usize) -> Option<(u64, u8, usize)>
    requires { at ≤ length text.now }
    ensures { IfSome result (λ said. IsNext (IsJust said.0 said.1) text.now at said.0 said.2) }
{
    let (number, closer, len) = spoken(&text[at..])?;
    Some((number, closer, at + len))
}

/// The number at a byte of a text, if it is from one on and below another and a blank closes it,
/// and the place behind the blank. It may overlook one.
fn quick_between(text: &[u8], at: usize, from: usize, to: usize) -> Option<(u64, usize)>
    requires { at ≤ length text.now }
    ensures { IfSome result (λ said. IsNext (IsBetween from to) text.now at said.0 said.1) }
{
    let (number, closer, end) = number_at(text, at)?;
    if closer == b' ' && from as u64 <= number && number < to as u64 {
        return Some((number, end));
    }
    None
}

/// The number at a byte of a text, of those from one on and below another, which a blank closes,
/// and the place behind the blank.
pub(crate) fn next_between(
    scale: &[u64],
    text: &[u8],
    at: usize,
    from: usize,
    to: usize,
) -> Result<(u64, usize), Slip>
    requires scale { IsScale scale.now }
    requires at { at ≤ length text.now }
    requires within { to ≤ length scale.now }
    ensures said { IfOk result (λ said. IsNext (IsBetween from to) text.now at said.0 said.1) }
    ensures bad { IfErr result (IfBad (IsStuck (IsBetween from to) text.now at)) }
{
    if let Some(said) = quick_between(text, at, from, to) {
        return Ok(said);
    }
    next(text, at, &[], range(scale, from, to))
}
