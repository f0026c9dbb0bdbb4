//! What is shown of breaches.

ghost use Rattle.std.specs.Prelude.{◌≡◌, ◌<◌, length, IfOk, string_bytes};
ghost use Rattle.sw_breach.specs.Lines.{count_line, shown_note};
ghost use Rattle.sw_see_breaches.specs.Shown.{breach_heading, note_heading, note_shown, remedy_line};
ghost use Rattle.sw_see_breaches.specs.Shown.{shown_breach, shown_verdict, spot};

use crate::painting::{Paint, painted};
use crate::remedies::{meaning_of, remedy_of};
use std::alloc::{AllocError, Global};
use sw_breach::{Breach, GIVEN_AWAY};
use sw_see_lines::{LineTable, excerpt};

/// The heading of a breach.
#[tactic(auto, unfolding(crate::specs::Shown::breach_heading))]
fn breach_heading(
    alloc: Global,
    paint: Paint,
    file: &str,
    text: &LineTable,
    breach: &Breach,
) -> Result<String, AllocError>
    ensures { IfOk result (λ line.
        string_bytes line ≡ breach_heading paint file.now text.now breach.now) }
{
    let position = text.shown_position(alloc, breach.at)?;
    let code = breach.code;
    let word = format!(in alloc; "error E{code}")?;
    let word = painted(alloc, paint, "1;31", word.as_str())?;
    let meaning = meaning_of(code);
    format!(in alloc; "{file}:{position}: {word}: {meaning}\n")
}

/// The heading of a note.
#[tactic(auto, unfolding(crate::specs::Shown::note_heading))]
fn note_heading(
    alloc: Global,
    paint: Paint,
    file: &str,
    text: &LineTable,
    at: u32,
) -> Result<String, AllocError>
    ensures { IfOk result (λ line.
        string_bytes line ≡ note_heading paint file.now text.now at) }
{
    let position = text.shown_position(alloc, at)?;
    let word = painted(alloc, paint, "1;34", "note")?;
    format!(in alloc; "{file}:{position}: {word}: given away here\n")
}

/// The line of a position, with a mark in a colour under the position.
fn spot(
    alloc: Global,
    paint: Paint,
    color: &str,
    text: &LineTable,
    at: u32,
) -> Result<String, AllocError>
    ensures { IfOk result (λ lines. string_bytes lines ≡ spot paint color.now text.now at) }
{
    let mark = painted(alloc, paint, color, "^")?;
    excerpt(alloc, text, at, mark.as_str())
}

/// The position of the note that is shown.
fn shown_note(breach: &Breach) -> Option<u32>
    ensures { result ≡ shown_note breach.now }
{
    if breach.code == GIVEN_AWAY {
        breach.note
    } else {
        None
    }
}

/// What is shown of a note, where there is one.
#[tactic(auto, unfolding(crate::specs::Shown::note_shown))]
fn note_shown(
    alloc: Global,
    paint: Paint,
    file: &str,
    text: &LineTable,
    note: Option<u32>,
) -> Result<String, AllocError>
    ensures { IfOk result (λ lines.
        string_bytes lines ≡ note_shown paint file.now text.now note) }
{
    match note {
        None => Ok(String::new(alloc)),
        Some(at) => {
            let heading = note_heading(alloc, paint, file, text, at)?;
            let lines = spot(alloc, paint, "1;34", text, at)?;
            format!(in alloc; "{heading}{lines}")
        }
    }
}

/// The line about what mends a breach.
#[tactic(auto, unfolding(crate::specs::Shown::remedy_line))]
fn remedy_line(alloc: Global, code: u16) -> Result<String, AllocError>
    ensures { IfOk result (λ line. string_bytes line ≡ remedy_line code) }
{
    let remedy = remedy_of(code);
    format!(in alloc; "  mend: {remedy}\n")
}

/// All that is shown of a breach.
#[tactic(auto, unfolding(crate::specs::Shown::shown_breach))]
fn shown_breach(
    alloc: Global,
    paint: Paint,
    file: &str,
    text: &LineTable,
    breach: &Breach,
) -> Result<String, AllocError>
    ensures { IfOk result (λ lines.
        string_bytes lines ≡ shown_breach paint file.now text.now breach.now) }
{
    let heading = breach_heading(alloc, paint, file, text, breach)?;
    let lines = spot(alloc, paint, "1;31", text, breach.at)?;
    let note = note_shown(alloc, paint, file, text, shown_note(breach))?;
    let remedy = remedy_line(alloc, breach.code)?;
    format!(in alloc; "{heading}{lines}{note}{remedy}")
}

/// The last line, which counts the breaches.
#[tactic(auto, unfolding(sw_breach::specs::Lines::count_line))]
fn count_line(alloc: Global, count: usize) -> Result<String, AllocError>
    ensures { IfOk result (λ line. string_bytes line ≡ count_line count) }
{
    format!(in alloc; "refused: {count}\n")
}

/// What is shown of the breaches of the text of a file, in the order of the list.
#[tactic(auto, unfolding(crate::specs::Shown::shown_verdict))]
pub fn show_breaches(
    alloc: Global,
    paint: Paint,
    file: &str,
    bytes: &[u8],
    list: &[Breach],
) -> Result<Vec<u8>, AllocError>
    requires { length bytes.now < 4294967295 }
    ensures { IfOk result (λ shown.
        shown.items ≡ shown_verdict paint file.now bytes.now list.now) }
{
    let text = LineTable::new(alloc, bytes)?;
    let mut shown = Vec::new(alloc);
    for breach in list {
        let lines = shown_breach(alloc, paint, file, &text, breach)?;
        shown.extend_from_slice(lines.as_bytes())?;
    }
    let last = count_line(alloc, list.len())?;
    shown.extend_from_slice(last.as_bytes())?;
    Ok(shown)
}
