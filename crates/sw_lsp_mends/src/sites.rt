//! Where the words of a mend may stand.
ghost use Rattle.std.specs.Prelude.{◌≡◌, ◌≤◌, ◌+◌, IfOk};
ghost use Rattle.sw_lsp_mends.specs.Sites.{behind_arrow, end_at, is_at, reach, site, sites, start_at};

use crate::words::Mend;
use std::alloc::{AllocError, Global};
use sw_lsp_places::RangeTable;
use sw_token::MOST_TOKENS;

/// The most positions that are tried for one breach.
const MOST_SITES: usize = 32;

/// Whether the token of a number has this text.
fn is_at(table: &RangeTable<'_>, number: usize, text: &str) -> bool
    ensures { result ≡ is_at table.now number text.now }
{
    match table.text_at(number) {
        Some(found) => found == text,
        None => false,
    }
}

fn start_at(table: &RangeTable<'_>, number: usize) -> Option<u32>
    ensures { result ≡ start_at table.now number }
{
    let span = table.span_at(number)?;
    Some(span.start)
}

fn end_at(table: &RangeTable<'_>, number: usize) -> Option<u32>
    ensures { result ≡ end_at table.now number }
{
    let span = table.span_at(number)?;
    Some(span.end)
}

/// The start of what follows the first `->` from a token on.
fn behind_arrow(table: &RangeTable<'_>, from: usize) -> Option<u32>
    ensures { result ≡ behind_arrow table.now from }
{
    for number in from..table.token_count() {
        if is_at(table, number, "->") {
            return start_at(table, number + 1);
        }
    }
    None
}

/// Where the words may stand by the token of a number, if they may, for a breach at this word.
fn site(table: &RangeTable<'_>, mend: Mend, number: usize, word: &str) -> Option<u32>
    requires { number ≤ MOST_TOKENS }
    ensures { result ≡ site mend table.now word.now number }
{
    match mend {
        Mend::Await => start_at(table, number),
        Mend::Capture => {
            if is_at(table, number, "{") {
                end_at(table, number)
            } else {
                None
            }
        }
        Mend::SendingResult => {
            if is_at(table, number, "func") && is_at(table, number + 1, word) {
                behind_arrow(table, number)
            } else {
                None
            }
        }
        Mend::SendingParameter => {
            if is_at(table, number, word) && is_at(table, number + 1, ":") {
                start_at(table, number + 2)
            } else {
                None
            }
        }
    }
}

/// Below which number the tokens are tried, for a breach at the token of this number.
fn reach(table: &RangeTable<'_>, mend: Mend, number: usize) -> usize
    requires { number ≤ MOST_TOKENS }
    ensures value { result ≡ reach mend table.now number }
    ensures few { result ≤ MOST_TOKENS + 1 }
{
    match mend {
        Mend::Await | Mend::Capture | Mend::SendingParameter => number + 1,
        Mend::SendingResult => table.token_count(),
    }
}

/// The positions at which the words may stand, for a breach at this word, which is the token of this
/// number. Those that are nearest come first.
pub fn sites(
    alloc: Global,
    table: &RangeTable<'_>,
    mend: Mend,
    number: usize,
    word: &str,
) -> Result<Vec<u32>, AllocError>
    requires { number ≤ MOST_TOKENS }
    ensures { IfOk result (λ found. found.items ≡ sites mend table.now number word.now) }
{
    let mut found = Vec::new(alloc);
    let mut next = reach(table, mend, number);
    while next > 0 && found.len() < MOST_SITES {
        next -= 1;
        if let Some(site) = site(table, mend, next, word) {
            found.push(site)?;
        }
    }
    Ok(found)
}
