//! Breaches as diagnostics of a document.
ghost use Rattle.std.specs.Prelude.{◌≡◌, IfOk, map};
ghost use Rattle.sw_breach.specs.Lines.{shown_note};
ghost use Rattle.sw_lsp_findings.specs.Findings.{finding_of, noted, notes_at, shown, too_long};

use crate::lookup::{address_of, meaning_of};
use crate::setting::Setting;
use std::alloc::{AllocError, Global};
use sw_breach::{Breach, GIVEN_AWAY};
use sw_lsp_places::RangeTable;
use sw_lsp_text::{Diagnostic, Place, Range, Related};

/// The position of the note that is shown.
fn shown_note(breach: &Breach) -> Option<u32>
    ensures { result ≡ shown_note breach.now }
{
    if breach.code == GIVEN_AWAY {
        breach.note
    } else {
        None
    }
}

/// Where a value was given away, if the breach has a note.
fn notes_at(
    alloc: Global,
    uri: &str,
    table: &RangeTable<'_>,
    note: Option<u32>,
) -> Result<Vec<Related>, AllocError>
    ensures { IfOk result (λ notes. map noted notes.items ≡ notes_at uri.now table.now note) }
{
    let mut notes = Vec::new(alloc);
    if let Some(at) = note {
        notes.push(Related {
            uri: String::from_str(alloc, uri)?,
            range: table.range_of(at),
            message: String::from_str(alloc, "given away here")?,
        })?;
    }
    Ok(notes)
}

/// A breach as it is shown in the document of this address.
pub fn diagnostic_of(
    alloc: Global,
    setting: &Setting,
    uri: &str,
    table: &RangeTable<'_>,
    breach: &Breach,
) -> Result<Diagnostic, AllocError>
    ensures { IfOk result (λ found. shown found ≡ finding_of setting.now uri.now table.now breach.now) }
{
    let code = breach.code;
    Ok(Diagnostic {
        range: table.range_of(breach.at),
        code: format!(in alloc; "E{code}")?,
        message: meaning_of(alloc, code)?,
        page: address_of(alloc, setting.pages(), code)?,
        related: notes_at(alloc, uri, table, shown_note(breach))?,
    })
}

/// What is shown of a text that is too long to be judged.
pub fn too_long(alloc: Global) -> Result<Diagnostic, AllocError>
    ensures { IfOk result (λ found. shown found ≡ too_long) }
{
    let origin = Place {
        line: 0,
        character: 0,
    };
    let message = "the text has more than 262144 bytes, and isn't judged";
    Ok(Diagnostic {
        range: Range {
            start: origin,
            end: origin,
        },
        code: String::from_str(alloc, "too-long")?,
        message: String::from_str(alloc, message)?,
        page: None,
        related: Vec::new(alloc),
    })
}
