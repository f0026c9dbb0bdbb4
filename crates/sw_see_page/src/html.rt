//! The page of a program.

ghost use Rattle.std.specs.Prelude.{◌≡◌, ◌<◌, ◌≤◌, ◌++◌, drop, IfOk, OnOk, length, string_bytes};
ghost use Rattle.sw_breach.specs.Lines.{shown_note};
ghost use Rattle.sw_see_page.specs.Page.{back, breach_shown, breaches_shown, count_before, front, head, line_shown};
ghost use Rattle.sw_see_page.specs.Page.{mark, note_text, page, source_shown};

use std::alloc::{AllocError, Global};
use sw_breach::{Breach, GIVEN_AWAY};
use sw_see_breaches::{meaning_of, remedy_of};
use sw_see_draw::escaped;
use sw_see_lines::{LineTable, excerpt, source_line};

/// What stands below a line at a breach.
#[tactic(auto, unfolding(crate::specs::Page::mark))]
fn mark(alloc: Global, code: u16) -> Result<String, AllocError>
    ensures { IfOk result (λ text. string_bytes text ≡ mark code) }
{
    let meaning = meaning_of(code);
    format!(in alloc; "^ error E{code}: {meaning}")
}

/// The position of the note that is shown.
fn shown_note(breach: &Breach) -> Option<u32>
    ensures { result ≡ shown_note breach.now }
{
    if breach.code == GIVEN_AWAY {
        breach.note
    } else {
        None
    }
}

/// Where what is used was given away.
#[tactic(auto, unfolding(crate::specs::Page::note_text))]
fn note_text(alloc: Global, text: &LineTable, note: Option<u32>) -> Result<String, AllocError>
    ensures { IfOk result (λ words. string_bytes words ≡ note_text text.now note) }
{
    match note {
        None => Ok(String::new(alloc)),
        Some(at) => {
            let position = text.shown_position(alloc, at)?;
            format!(in alloc; "  given away at {position}\n")
        }
    }
}

/// The line of a breach, and what the breach is.
#[tactic(auto, unfolding(crate::specs::Page::breach_shown))]
fn breach_shown(alloc: Global, text: &LineTable, breach: &Breach) -> Result<String, AllocError>
    ensures { IfOk result (λ shown. string_bytes shown ≡ breach_shown text.now breach.now) }
{
    let mark = mark(alloc, breach.code)?;
    let line = excerpt(alloc, text, breach.at, mark.as_str())?;
    let line = escaped(alloc, line.as_str())?;
    let note = note_text(alloc, text, shown_note(breach))?;
    let note = escaped(alloc, note.as_str())?;
    let remedy = escaped(alloc, remedy_of(breach.code))?;
    format!(in alloc; "<b>{line}{note}  mend: {remedy}\n</b>")
}

/// Adds breaches with their lines.
fn add_breaches(
    alloc: Global,
    text: &LineTable,
    breaches: &[Breach],
    made: &mut Vec<u8>,
) -> Result<(), AllocError>
    ensures { OnOk result (made.new.items
        ≡ made.old.items ++ breaches_shown text.now breaches.now) }
{
    for breach in breaches {
        let shown = breach_shown(alloc, text, breach)?;
        made.extend_from_slice(shown.as_bytes())?;
    }
    Ok(())
}

/// Adds the line that begins at a position, with the breaches that stand in it.
#[tactic(auto, unfolding(crate::specs::Page::line_shown))]
fn add_line(
    alloc: Global,
    text: &LineTable,
    start: u32,
    breaches: &[Breach],
    made: &mut Vec<u8>,
) -> Result<(), AllocError>
    ensures { OnOk result (made.new.items
        ≡ made.old.items ++ line_shown text.now start breaches.now) }
{
    if !breaches.is_empty() {
        return add_breaches(alloc, text, breaches, made);
    }
    let line = source_line(alloc, text, start)?;
    let line = escaped(alloc, line.as_str())?;
    made.extend_from_slice(line.as_bytes())?;
    made.extend_from_slice(b"\n")
}

/// How many of the next breaches stand before a position.
fn count_before(end: u32, breaches: &[Breach]) -> usize
    ensures value { result ≡ count_before end breaches.now }
    ensures within { result ≤ length breaches.now }
{
    breaches.iter().take_while(|breach| breach.at < end).count()
}

/// Adds all lines of a program, with its breaches.
#[tactic(auto, unfolding(crate::specs::Page::source_shown))]
fn add_source(
    alloc: Global,
    text: &LineTable,
    breaches: &[Breach],
    made: &mut Vec<u8>,
) -> Result<(), AllocError>
    ensures { OnOk result (made.new.items
        ≡ made.old.items ++ source_shown text.now breaches.now) }
{
    let mut start = 0;
    let mut at = 0;
    let mut left = breaches;
    for byte in text.bytes() {
        at += 1;
        if *byte == b'\n' {
            let (here, others) = left.split_at(count_before(at, left));
            add_line(alloc, text, start, here, made)?;
            left = others;
            start = at;
        }
    }
    add_line(alloc, text, start, left, made)
}

/// What a page begins with.
#[tactic(auto, unfolding(crate::specs::Page::head))]
fn head(alloc: Global, file: &str) -> Result<String, AllocError>
    ensures { IfOk result (λ text. string_bytes text ≡ head file.now) }
{
    let file = escaped(alloc, file)?;
    format!(in alloc;
        "<!DOCTYPE html>\n<html lang=\"en\">\n<head><meta charset=\"utf-8\"><title>{file}</title><style>b {{ color: #b00000 }}</style></head>\n<body>\n<pre>\n"
    )
}

/// What a page begins with, and all lines of the program.
#[tactic(auto, unfolding(crate::specs::Page::front))]
fn front(
    alloc: Global,
    file: &str,
    text: &LineTable,
    breaches: &[Breach],
) -> Result<Vec<u8>, AllocError>
    ensures { IfOk result (λ made. made.items ≡ front file.now text.now breaches.now) }
{
    let head = head(alloc, file)?;
    let mut made = Vec::new(alloc);
    made.extend_from_slice(head.as_bytes())?;
    add_source(alloc, text, breaches, &mut made)?;
    Ok(made)
}

/// A picture, and what a page ends with.
#[tactic(auto, unfolding(crate::specs::Page::back))]
fn back(alloc: Global, picture: &[u8]) -> Result<Vec<u8>, AllocError>
    ensures { IfOk result (λ made. made.items ≡ back picture.now) }
{
    let mut made = Vec::new(alloc);
    made.extend_from_slice(b"</pre>\n")?;
    made.extend_from_slice(picture)?;
    made.extend_from_slice(b"</body>\n</html>\n")?;
    Ok(made)
}

/// The page of the program in a file, with its breaches in the order of their positions and a picture.
#[tactic(auto, unfolding(crate::specs::Page::page))]
pub fn page(
    alloc: Global,
    file: &str,
    text: &LineTable,
    breaches: &[Breach],
    picture: &[u8],
) -> Result<Vec<u8>, AllocError>
    ensures { IfOk result (λ made.
        made.items ≡ page file.now text.now breaches.now picture.now) }
{
    let mut made = front(alloc, file, text, breaches)?;
    let back = back(alloc, picture)?;
    made.extend_from_slice(back.as_slice())?;
    Ok(made)
}
