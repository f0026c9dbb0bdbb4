//! What is known of a place in a text.
ghost use Rattle.std.specs.Prelude.{◌≡◌, IfOk, find, option_map};
ghost use Rattle.sw_lsp_findings.specs.Hovers.{IsKnown, covers, hover_among, hover_of, is_over};
ghost use Rattle.sw_lsp_findings.specs.Hovers.{is_until, seen_hover};

use crate::findings::breaches_of;
use crate::lookup::explained;
use crate::setting::Setting;
use std::alloc::{AllocError, Global};
use sw_breach::Breach;
use sw_lsp_places::RangeTable;
use sw_lsp_text::{Place, Range};
use sw_text::MAX_LENGTH;

/// What is known of a range, in Markdown.
#[derive(Drop)]
pub struct Hover {
    pub range: Range,
    pub text: String,
}

/// Whether a place is the other one or before it.
fn is_until(place: Place, other: Place) -> bool
    ensures { result ≡ is_until place other }
{
    place.line < other.line || (place.line == other.line && place.character <= other.character)
}

/// Whether a place is in a range, or at its end.
pub fn is_over(place: Place, range: Range) -> bool
    ensures { result ≡ is_over place range }
{
    is_until(range.start, place) && is_until(place, range.end)
}

/// Whether the range of a breach is over a place.
#[tactic(auto, unfolding(crate::specs::Hovers::covers))]
fn covers(table: &RangeTable<'_>, place: Place, breach: &Breach) -> bool
    ensures { result ≡ covers table.now place breach.now }
{
    is_over(place, table.range_of(breach.at))
}

/// The first breach whose range is over a place.
fn first_over(table: &RangeTable<'_>, place: Place, breaches: &[Breach]) -> Option<Breach>
    ensures { result ≡ find (covers table.now place) breaches.now }
{
    breaches
        .iter()
        .find(|breach| covers(table, place, breach))
        .copied()
}

/// What is known of a breach.
fn hover_of(
    alloc: Global,
    table: &RangeTable<'_>,
    breach: Breach,
) -> Result<Option<Hover>, AllocError>
    ensures { IfOk result (λ known. option_map seen_hover known ≡ hover_of table.now breach) }
{
    let Some(text) = explained(alloc, breach.code)? else {
        return Ok(None);
    };
    let range = table.range_of(breach.at);
    Ok(Some(Hover { range, text }))
}

/// What is known of the first breach whose range is over a place.
fn hover_among(
    alloc: Global,
    table: &RangeTable<'_>,
    place: Place,
    breaches: &[Breach],
) -> Result<Option<Hover>, AllocError>
    ensures { IfOk result (λ known. option_map seen_hover known
        ≡ hover_among table.now place breaches.now) }
{
    match first_over(table, place, breaches) {
        Some(breach) => hover_of(alloc, table, breach),
        None => Ok(None),
    }
}

/// What is known of a place in a text.
pub fn known_at(
    alloc: Global,
    setting: &Setting,
    text: &[u8],
    place: Place,
) -> Result<Option<Hover>, AllocError>
    ensures { IfOk result (λ known. IsKnown setting.now text.now place (option_map seen_hover known)) }
{
    if text.len() > MAX_LENGTH {
        return Ok(None);
    }
    let breaches = breaches_of(alloc, setting.default(), text)?;
    let table = RangeTable::new(alloc, text)?;
    let known = hover_among(alloc, &table, place, breaches.as_slice())?;
    Ok(known)
}
