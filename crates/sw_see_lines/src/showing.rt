//! The line of a position, and a line with a mark under the position.

ghost use Rattle.std.specs.Prelude.{◌≡◌, IfOk, string_bytes};
ghost use Rattle.sw_see_lines.specs.Excerpt.{dots, excerpt, lead, source_line, tail};

use crate::around::{SIDE, first_part, last_part, line_before, line_from};
use crate::shown::{blanks, shown_text};
use crate::table::LineTable;
use std::alloc::{AllocError, Global};

/// What stands for the bytes of a part of a line that aren't shown.
fn dots(part: &[u8]) -> &'static str
    ensures { result.now ≡ dots part.now }
{
    if part.len() > SIDE { "..." } else { "" }
}

/// What is shown before a position of its line, after the line's number.
#[tactic(auto, unfolding(crate::specs::Excerpt::lead))]
fn lead(alloc: Global, text: &LineTable, at: u32) -> Result<String, AllocError>
    ensures { IfOk result (λ shown. string_bytes shown ≡ lead text.now at) }
{
    let line = text.line_of(at);
    let part = line_before(text.bytes(), at as usize);
    let dots = dots(part);
    let shown = shown_text(alloc, last_part(part))?;
    format!(in alloc; "{line} | {dots}{shown}")
}

/// What is shown of the line of a position from the position on.
#[tactic(auto, unfolding(crate::specs::Excerpt::tail))]
fn tail(alloc: Global, text: &LineTable, at: u32) -> Result<String, AllocError>
    ensures { IfOk result (λ shown. string_bytes shown ≡ tail text.now at) }
{
    let part = line_from(text.bytes(), at as usize);
    let dots = dots(part);
    let shown = shown_text(alloc, first_part(part))?;
    format!(in alloc; "{shown}{dots}")
}

/// The line of the position `at`, a byte offset, with its number. A position after the end of the text
/// is shown as the end.
#[tactic(auto, unfolding(crate::specs::Excerpt::source_line))]
pub fn source_line(alloc: Global, text: &LineTable, at: u32) -> Result<String, AllocError>
    ensures { IfOk result (λ shown. string_bytes shown ≡ source_line text.now at) }
{
    let lead = lead(alloc, text, at)?;
    let tail = tail(alloc, text, at)?;
    format!(in alloc; "{lead}{tail}")
}

/// The line of the position `at`, a byte offset, with its number, and a line with the mark under the
/// position. A position after the end of the text is shown as the end.
#[tactic(auto, unfolding(crate::specs::Excerpt::excerpt))]
pub fn excerpt(alloc: Global, text: &LineTable, at: u32, mark: &str) -> Result<String, AllocError>
    ensures { IfOk result (λ shown. string_bytes shown ≡ excerpt text.now at mark.now) }
{
    let lead = lead(alloc, text, at)?;
    let tail = tail(alloc, text, at)?;
    let blank = blanks(alloc, lead.as_str())?;
    format!(in alloc; "{lead}{tail}\n{blank}{mark}\n")
}
