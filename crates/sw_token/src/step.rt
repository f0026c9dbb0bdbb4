//! What stands at one offset of a text.
ghost use Rattle.std.specs.Prelude.{◌≡◌, ◌+◌, ◌<◌, ◌≤◌, ◌^◌, length};
ghost use Rattle.std.specs.List.{prefix_len};
ghost use Rattle.sw_token.specs.Comments.{comment_len};
ghost use Rattle.sw_token.specs.Literals.{is_digit_or_line};
ghost use Rattle.sw_token.specs.Operators.{run_len};
ghost use Rattle.sw_token.specs.Reading.{step, digits_step, literal_step, operator_step};
ghost use Rattle.sw_token.specs.Reading.{comment_step, word_step, plain_step, found, fault_of};
ghost use Rattle.sw_token.specs.Reading.{taken_before};

use super::bytes::{is_mark, is_operator_byte, mark_len};
use super::comments::{begins_block_comment, begins_line_comment, comment_len, line_len};
use super::literals::{Literal, literal_of};
use super::operators::{is_operator, run_len};
use super::words::{begins_word, goes_on, word_len};
use super::{LexFault, MOST_TOKENS};
use crate::before::Before;
use sw_scan::{Step, is_blank};

/// Why a text begins with neither a gap nor a token.
#[derive(Clone, Copy)]
pub enum Refusal {
    /// Its comment isn't closed.
    Unclosed,
    /// Its literal's value is too large.
    TooBig,
    /// What stands after this many bytes can't be taken.
    Bad(usize),
}

/// What the text, which stands at the offset `at`, begins with, and whether a token may stand
/// there.
#[tactic(auto, unfolding(crate::specs::Reading::step))]
pub fn step(text: &str, at: u32, before: Before) -> Result<Step, LexFault>
    requires { at + length text.now < 2 ^ 32 }
    ensures { result ≡ step at before text.now }
{
    match found(text, before.is_white) {
        Err(refusal) => Err(fault_of(refusal, at, before.count)),
        Ok(Step::Take(len)) => {
            if before.count < MOST_TOKENS {
                Ok(Step::Take(len))
            } else {
                Err(LexFault::TooMany { at })
            }
        }
        Ok(step) => Ok(step),
    }
}

/// The fault of a text that is refused, which stands at the offset `at` after `count` tokens.
fn fault_of(refusal: Refusal, at: u32, count: usize) -> LexFault
    requires { at + taken_before refusal < 2 ^ 32 }
    ensures { result ≡ fault_of at count refusal }
{
    match refusal {
        Refusal::Unclosed => LexFault::Unclosed { at },
        Refusal::TooBig => LexFault::TooBig { at },
        Refusal::Bad(0) => LexFault::BadChar { at },
        Refusal::Bad(taken) => {
            if count < MOST_TOKENS {
                LexFault::BadChar {
                    at: at + taken as u32,
                }
            } else {
                LexFault::TooMany { at }
            }
        }
    }
}

/// What the text begins with.
#[tactic(auto, unfolding(crate::specs::Reading::found))]
fn found(text: &str, is_white: bool) -> Result<Step, Refusal>
    ensures { result ≡ found is_white text.now }
{
    let bytes = text.as_bytes();
    let Some(byte) = bytes.first().copied() else {
        return Ok(Step::End);
    };
    if is_blank(byte) {
        return Ok(Step::Skip(1));
    }
    if begins_line_comment(bytes) {
        return Ok(Step::Skip(2 + line_len(&bytes[2..])));
    }
    if begins_block_comment(bytes) {
        return comment_step(&bytes[2..]);
    }
    match literal_of(is_white, bytes) {
        Some(form) => literal_step(form, &text[form.head_len()..]),
        None => plain_step(text),
    }
}

/// The step for a comment, by the bytes after its `/*`.
fn comment_step(after: &[u8]) -> Result<Step, Refusal>
    ensures { result ≡ comment_step (comment_len 0 after.now) }
{
    match comment_len(after) {
        Some(len) => Ok(Step::Skip(2 + len)),
        None => Err(Refusal::Unclosed),
    }
}

/// The step for a literal, by the text after its head.
fn literal_step(form: Literal, after: &str) -> Result<Step, Refusal>
    ensures { result ≡ literal_step form after.now }
{
    let Some(byte) = after.as_bytes().first().copied() else {
        return Err(Refusal::Bad(form.head_len()));
    };
    if form.is_digit(byte) {
        digits_step(form, after)
    } else {
        Err(Refusal::Bad(form.head_len()))
    }
}

fn digits_step(form: Literal, after: &str) -> Result<Step, Refusal>
    ensures { result ≡ digits_step form after.now (prefix_len (is_digit_or_line form) after.now) }
{
    let len = form.digits_len(after.as_bytes());
    if form.number_in(&after.as_bytes()[..len]) > form.most() {
        Err(Refusal::TooBig)
    } else if goes_on(&after[len..]) {
        Err(Refusal::Bad(form.head_len() + len))
    } else {
        Ok(Step::Take(form.head_len() + len))
    }
}

/// The step for a token that is no literal.
fn plain_step(text: &str) -> Result<Step, Refusal>
    ensures { result ≡ plain_step text.now }
{
    let bytes = text.as_bytes();
    let Some(byte) = bytes.first().copied() else {
        return Ok(Step::End);
    };
    if is_operator_byte(byte) {
        operator_step(bytes)
    } else if is_mark(byte) {
        Ok(Step::Take(mark_len(bytes)))
    } else if byte == b'@' {
        word_step(1, &text[1..])
    } else {
        word_step(0, text)
    }
}

fn operator_step(bytes: &[u8]) -> Result<Step, Refusal>
    ensures { result ≡ operator_step bytes.now (run_len bytes.now) }
{
    let len = run_len(bytes);
    if is_operator(&bytes[..len]) {
        Ok(Step::Take(len))
    } else {
        Err(Refusal::Bad(0))
    }
}

/// The step for a word, which stands after `skipped` bytes of its token.
fn word_step(skipped: usize, text: &str) -> Result<Step, Refusal>
    requires { skipped ≤ 1 }
    ensures { result ≡ word_step skipped text.now }
{
    if begins_word(text) {
        Ok(Step::Take(skipped + word_len(text)))
    } else {
        Err(Refusal::Bad(0))
    }
}
