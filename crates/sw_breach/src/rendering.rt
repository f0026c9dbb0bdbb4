ghost use Rattle.std.specs.Prelude.{◌≡◌, ◌++◌, ◌<◌, length, IfOk, OnOk, string_bytes};
ghost use Rattle.std.specs.List.{AllByRecursion};
ghost use Rattle.sw_breach.specs.Codes.{IsCode};
ghost use Rattle.sw_breach.specs.Lines.{breach_line, count_line, note_line, note_lines, shown_note};
ghost use Rattle.sw_breach.specs.Lines.{verdict_text};

use crate::Breach;
use crate::codes::{GIVEN_AWAY, text_of};
use crate::line_table::LineTable;
use std::alloc::{AllocError, Global};

/// The line of a breach of the text.
#[tactic(auto, unfolding(crate::specs::Lines::breach_line))]
fn breach_line(alloc: Global, text: &LineTable, breach: &Breach) -> Result<String, AllocError>
    requires { IsCode breach.now.code }
    ensures { IfOk result (λ line. string_bytes line ≡ breach_line text.now breach.now) }
{
    let position = text.shown_position(alloc, breach.at)?;
    let code = breach.code;
    let meaning = text_of(code);
    format!(in alloc; "{position}: error E{code}: {meaning}\n")
}

/// The position of the note that is shown.
fn shown_note(breach: &Breach) -> Option<u32>
    ensures { result ≡ shown_note breach.now }
{
    if breach.code == GIVEN_AWAY {
        breach.note
    } else {
        None
    }
}

/// The line of a note.
#[tactic(auto, unfolding(crate::specs::Lines::note_line))]
fn note_line(alloc: Global, text: &LineTable, at: u32) -> Result<String, AllocError>
    ensures { IfOk result (λ line. string_bytes line ≡ note_line text.now at) }
{
    let position = text.shown_position(alloc, at)?;
    format!(in alloc; "{position}: note: given away here\n")
}

/// The line of the note, where there is one.
fn note_lines(alloc: Global, text: &LineTable, note: Option<u32>) -> Result<String, AllocError>
    ensures { IfOk result (λ lines. string_bytes lines ≡ note_lines text.now note) }
{
    match note {
        Some(at) => note_line(alloc, text, at),
        None => Ok(String::new(alloc)),
    }
}

/// Adds the lines of a breach.
fn add_lines(
    alloc: Global,
    lines: &mut Vec<u8>,
    text: &LineTable,
    breach: &Breach,
) -> Result<(), AllocError>
    requires { IsCode breach.now.code }
    ensures { OnOk result (lines.new.items ≡ lines.old.items
        ++ (breach_line text.now breach.now ++ note_lines text.now (shown_note breach.now))) }
{
    let line = breach_line(alloc, text, breach)?;
    lines.extend_from_slice(line.as_bytes())?;
    let note = note_lines(alloc, text, shown_note(breach))?;
    lines.extend_from_slice(note.as_bytes())?;
    Ok(())
}

/// The last line, which counts the breaches.
#[tactic(auto, unfolding(crate::specs::Lines::count_line))]
fn count_line(alloc: Global, count: usize) -> Result<String, AllocError>
    ensures { IfOk result (λ line. string_bytes line ≡ count_line count) }
{
    format!(in alloc; "refused: {count}\n")
}

/// What the tool prints of the breaches of the text `bytes`, in the order of the list. A position
/// after the end of the text is shown as the end.
#[tactic(auto, unfolding(crate::specs::Lines::verdict_text))]
pub fn render(alloc: Global, bytes: &[u8], list: &[Breach]) -> Result<Vec<u8>, AllocError>
    requires some { 0 < length list.now }
    requires short { length bytes.now < 4294967295 }
    requires codes { AllByRecursion (λ breach. IsCode breach.code) list.now }
    ensures { IfOk result (λ text. text.items ≡ verdict_text bytes.now list.now) }
{
    let table = LineTable::new(alloc, bytes)?;
    let mut text = Vec::new(alloc);
    for breach in list {
        add_lines(alloc, &mut text, &table, breach)?;
    }
    let last = count_line(alloc, list.len())?;
    text.extend_from_slice(last.as_bytes())?;
    Ok(text)
}
