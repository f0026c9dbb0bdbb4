//! Operators, and how they stand.
ghost use Rattle.std.specs.Prelude.{◌≡◌, ◌≤◌, length};
ghost use Rattle.sw_token.specs.Operators.{operator_number, is_operator, begins_comment, runs_on};
ghost use Rattle.sw_token.specs.Operators.{run_len, is_opening_text, is_white_after};
ghost use Rattle.sw_token.specs.Operators.{fixity_between};

use super::Fixity;
use super::bytes::{is_closing, is_opening, is_operator_byte};
use super::comments::{begins_block_comment, begins_line_comment};
use super::numbers::number_of;
use sw_scan::is_blank;

/// All operators, in the order of their numbers.
const OPERATORS: [&str; 21] = [
    "+", "-", "*", "/", "%", "!", "=", "==", "!=", "<", "<=", ">", ">=", "&&", "||", "+=", "-=",
    "*=", "/=", "%=", "->",
];

/// The number of the operator with this text, if there is one.
pub fn operator_number(text: &[u8]) -> Option<u8>
    ensures { result ≡ operator_number text.now }
{
    let operators: [&str; 21] = OPERATORS;
    number_of(operators.as_slice(), text)
}

pub fn is_operator(text: &[u8]) -> bool
    ensures { result ≡ is_operator text.now }
{
    operator_number(text).is_some()
}

fn begins_comment(bytes: &[u8]) -> bool
    ensures { result ≡ begins_comment bytes.now }
{
    begins_line_comment(bytes) || begins_block_comment(bytes)
}

/// Whether the bytes begin with an operator byte that begins no comment.
fn runs_on(bytes: &[u8]) -> bool
    ensures { result ≡ runs_on bytes.now }
{
    let Some(byte) = bytes.first().copied() else {
        return false;
    };
    is_operator_byte(byte) && !begins_comment(bytes)
}

/// The length of the run of operator bytes that the bytes begin with. A comment ends it.
pub fn run_len(bytes: &[u8]) -> usize
    ensures value { result ≡ run_len bytes.now }
    ensures within { result ≤ length bytes.now }
{
    let mut len = 0;
    while runs_on(&bytes[len..]) {
        len += 1;
    }
    len
}

/// Whether an operator after this token stands as after white space.
pub fn is_opening_text(text: &[u8]) -> bool
    ensures { result ≡ is_opening_text text.now }
{
    text.len() == 1 && is_opening(text[0])
}

/// Whether an operator before these bytes stands as before white space.
pub fn is_white_after(bytes: &[u8]) -> bool
    ensures { result ≡ is_white_after bytes.now }
{
    let Some(byte) = bytes.first().copied() else {
        return true;
    };
    is_blank(byte) || is_closing(byte) || begins_comment(bytes)
}

/// How an operator stands, by whether white space is before it and after it.
pub fn fixity_between(before: bool, after: bool) -> Fixity
    ensures { result ≡ fixity_between before after }
{
    match (before, after) {
        (true, false) => Fixity::Prefix,
        (false, true) => Fixity::Postfix,
        (true, true) | (false, false) => Fixity::Infix,
    }
}
