//! Trials: what is found in a text with words put in.
ghost use Rattle.std.specs.Prelude.{◌≡◌, IfOk};
ghost use Rattle.std.specs.List.{list_all, list_any};
ghost use Rattle.sw_lsp_mends.specs.Trials.{edited, is_left, is_mended, is_same, may_be_new, moved};

use std::alloc::{AllocError, Global};
use sw_breach::Breach;

/// Bytes that are put into a text: at which position, and how many they are.
#[derive(Clone, Copy)]
pub struct Gap {
    pub at: u32,
    pub len: u32,
}

/// The text with a piece put in at the position `at`, a byte offset.
pub fn edited(alloc: Global, text: &[u8], at: u32, piece: &[u8]) -> Result<Vec<u8>, AllocError>
    ensures { IfOk result (λ made. made.items ≡ edited text.now at piece.now) }
{
    let (front, back) = text.split_at((at as usize).min(text.len()));
    let mut made = Vec::new(alloc);
    made.extend_from_slice(front)?;
    made.extend_from_slice(piece)?;
    made.extend_from_slice(back)?;
    Ok(made)
}

/// Where what stands at a position stands in the edited text.
fn moved(gap: Gap, at: u32) -> u64
    ensures { result ≡ moved gap at }
{
    let at = u64::from(at);
    if at < u64::from(gap.at) {
        at
    } else {
        at + u64::from(gap.len)
    }
}

/// Whether a breach of the edited text is this one of the text.
fn is_same(gap: Gap, before: &Breach, after: &Breach) -> bool
    ensures { result ≡ is_same gap before.now after.now }
{
    after.code == before.code && u64::from(after.at) == moved(gap, before.at)
}

/// Whether a breach may be found only where this one is mended.
fn may_be_new(mended: &Breach, after: &Breach) -> bool
    ensures { result ≡ may_be_new mended.now after.now }
{
    mended.code == 502 && after.code >= 500
}

/// Whether a breach of the edited text is one of the text.
fn was_found(gap: Gap, found: &[Breach], after: &Breach) -> bool
    ensures { result ≡ list_any (λ before. is_same gap before after.now) found.now }
{
    found.iter().any(|before| is_same(gap, before, after))
}

/// Whether a breach may be found where this one is mended, and those were found before.
fn is_left(gap: Gap, mended: &Breach, found: &[Breach], after: &Breach) -> bool
    ensures { result ≡ is_left gap mended.now found.now after.now }
{
    was_found(gap, found, after) || may_be_new(mended, after)
}

/// Whether a breach is found in the edited text.
fn is_found(gap: Gap, breach: &Breach, found: &[Breach]) -> bool
    ensures { result ≡ list_any (is_same gap breach.now) found.now }
{
    found.iter().any(|after| is_same(gap, breach, after))
}

/// Whether each breach of the edited text may be found where this one is mended.
fn are_left(gap: Gap, mended: &Breach, before: &[Breach], after: &[Breach]) -> bool
    ensures { result ≡ list_all (is_left gap mended.now before.now) after.now }
{
    after
        .iter()
        .all(|other| is_left(gap, mended, before, other))
}

/// Whether a breach is mended, where `before` was found in the text and `after` is in the edited one.
pub fn is_mended(gap: Gap, breach: &Breach, before: &[Breach], after: &[Breach]) -> bool
    ensures { result ≡ is_mended gap breach.now before.now after.now }
{
    !is_found(gap, breach, after) && are_left(gap, breach, before, after)
}
