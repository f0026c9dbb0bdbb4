//! Texts as a terminal shows them, and blanks that are as wide.

ghost use Rattle.std.specs.Prelude.{◌≡◌, IfOk, chars, encode_utf8_all, map, string_bytes};
ghost use Rattle.sw_see_lines.specs.Shown.{blank_of, blanks_of, shown_char, shown_text};

use std::alloc::{AllocError, Global};
use unicode_width::UnicodeWidthChar;

/// A character as it is shown.
fn shown_char(c: char) -> char
    ensures { result ≡ shown_char c }
{
    if c == '\t' || c.width().is_some() {
        c
    } else {
        '?'
    }
}

/// The characters of a text as they are shown.
fn shown_chars(alloc: Global, text: &str) -> Result<String, AllocError>
    ensures { IfOk result (λ shown.
        string_bytes shown ≡ encode_utf8_all (map shown_char (chars text.now))) }
{
    text.chars().map(|c| shown_char(c)).collect(alloc)
}

/// The bytes of a file as they are shown.
pub fn shown_text(alloc: Global, bytes: &[u8]) -> Result<String, AllocError>
    ensures { IfOk result (λ text. string_bytes text ≡ shown_text bytes.now) }
{
    let text = String::from_utf8_lossy(alloc, bytes)?;
    shown_chars(alloc, text.as_str())
}

/// What is as wide as a character, and shows nothing.
fn blank_of(c: char) -> &'static str
    ensures { result.now ≡ blank_of c }
{
    if c == '\t' {
        return "\t";
    }
    match c.width() {
        Some(0) => "",
        Some(1) | None => " ",
        Some(2) => "  ",
        Some(_) => "   ",
    }
}

/// The characters of a text, in order.
fn characters(alloc: Global, text: &str) -> Result<Vec<char>, AllocError>
    ensures { IfOk result (λ list. list.items ≡ chars text.now) }
{
    text.chars().collect(alloc)
}

/// What is as wide as a text, and shows nothing.
pub fn blanks(alloc: Global, text: &str) -> Result<String, AllocError>
    ensures { IfOk result (λ made. string_bytes made ≡ blanks_of (chars text.now)) }
{
    let list = characters(alloc, text)?;
    let mut made = String::new(alloc);
    for c in &list {
        made.push_str(blank_of(*c))?;
    }
    Ok(made)
}
