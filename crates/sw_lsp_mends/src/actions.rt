//! What is offered on a range of a document.
ghost use Rattle.std.specs.Prelude.{IfOk, map};
ghost use Rattle.sw_lsp_mends.specs.Actions.{AreActions};
ghost use Rattle.sw_lsp_mends.specs.Offers.{seen_action};

use crate::examined::Examined;
use std::alloc::{AllocError, Global};
use sw_lsp_findings::Setting;
use sw_lsp_text::{Action, Range};
use sw_text::MAX_LENGTH;

/// The most breaches of a range that are looked at.
const MOST_BREACHES: usize = 8;

/// The edits that mend breaches which a range of a document touches. Each was tried: in the edited
/// text the breach isn't found any more, and none that is new.
pub fn actions_at(
    alloc: Global,
    setting: &Setting,
    uri: &str,
    text: &[u8],
    range: Range,
) -> Result<Vec<Action>, AllocError>
    ensures { IfOk result
        (λ found. AreActions setting.now uri.now text.now range (map seen_action found.items)) }
{
    if text.len() > MAX_LENGTH {
        return Ok(Vec::new(alloc));
    }
    let examined = Examined::new(alloc, setting, uri, text)?;
    let touched = examined.touched(alloc, range)?;
    let first = MOST_BREACHES.min(touched.len());
    let found = examined.mends(alloc, &touched[..first])?;
    Ok(found)
}
