//! The header of a frame: lines, each with a name, a colon and a value.
ghost use Rattle.std.specs.Prelude.{◌≡◌, ◌+◌, ◌<◌, ◌≤◌, length, drop, min, option_map};
ghost use Rattle.std.specs.List.{prefix_len};
ghost use Rattle.std.specs.Char.{is_ascii_digit};
ghost use Rattle.sw_lsp_text.specs.Header.{is_blank, number_of, number_at, number_in};
ghost use Rattle.sw_lsp_text.specs.Header.{value_of, value_in};

use memchr::memchr;

/// The name of a body's length and the colon behind it, in lower case.
const LENGTH_NAME: &[u8] = b"content-length:";

/// A number above all lengths that a body may have.
const CAP: u32 = 16_777_217;

/// The length of the longest prefix of spaces, tabs and carriage returns.
#[tactic(auto, unfolding(crate::specs::Header::is_blank))]
fn blanks_len(bytes: &[u8]) -> usize
    ensures value { result ≡ prefix_len is_blank bytes.now }
    ensures within { result ≤ length bytes.now }
{
    bytes
        .iter()
        .take_while(|byte| matches!(**byte, b' ' | b'\t' | b'\r'))
        .count()
}

/// The length of the longest prefix of digits.
fn digits_len(bytes: &[u8]) -> usize
    ensures value { result ≡ prefix_len is_ascii_digit bytes.now }
    ensures within { result ≤ length bytes.now }
{
    bytes
        .iter()
        .take_while(|byte| byte.is_ascii_digit())
        .count()
}

/// The number that digits spell, or [`CAP`] if it is larger.
fn capped_number(digits: &[u8]) -> u32
    ensures { result ≡ min (number_of digits.now) CAP }
{
    let mut number = 0;
    for digit in digits {
        number = (number * 10 + u32::from(digit.saturating_sub(b'0'))).min(CAP);
    }
    number
}

/// The number that a text is, which doesn't begin with a blank, or [`CAP`] if it is larger.
fn number_at(text: &[u8]) -> Option<u32>
    ensures { result ≡ option_map (λ n. min n CAP) (number_at text.now) }
{
    let len = digits_len(text);
    if len == 0 {
        return None;
    }
    if blanks_len(&text[len..]) < text.len() - len {
        return None;
    }
    Some(capped_number(&text[..len]))
}

/// The number that a value is, or [`CAP`] if it is larger.
pub fn number_in(value: &[u8]) -> Option<u32>
    ensures { result ≡ option_map (λ n. min n CAP) (number_in value.now) }
{
    number_at(&value[blanks_len(value)..])
}

/// What a line says of the body's length.
fn value_of(line: &[u8]) -> Option<&[u8]>
    ensures { option_map (λ v. v.now) result ≡ value_of line.now }
{
    let (name, value) = line.split_at_checked(LENGTH_NAME.len())?;
    name.eq_ignore_ascii_case(LENGTH_NAME).then_some(value)
}

/// What stands behind the byte at `end`.
fn behind(bytes: &[u8], end: usize) -> &[u8]
    requires { end < length bytes.now }
    ensures { result.now ≡ drop (end + 1) bytes.now }
{
    &bytes[end + 1..]
}

/// What the first line that speaks of the body's length says of it.
pub fn value_in(lines: &[u8]) -> Option<&[u8]>
    ensures { option_map (λ v. v.now) result ≡ value_in lines.now }
{
    let mut rest = lines;
    while let Some(end) = memchr(b'\n', rest) {
        if let Some(value) = value_of(&rest[..end]) {
            return Some(value);
        }
        rest = behind(rest, end);
    }
    value_of(rest)
}
