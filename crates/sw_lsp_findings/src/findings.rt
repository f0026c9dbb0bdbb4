//! What is found in a text.
ghost use Rattle.std.specs.Prelude.{◌≡◌, ◌≤◌, IfOk, length, map};
ghost use Rattle.sw_lsp_findings.specs.Findings.{AreFindings, finding_of, shown};
ghost use Rattle.sw_verdict.specs.Phases.{all_phases};
ghost use Rattle.sw_verdict.specs.Verdict.{Breaches};

use crate::finding::{diagnostic_of, too_long};
use crate::setting::Setting;
use std::alloc::{AllocError, Global};
use sw_breach::Breach;
use sw_check_text::{Verdict, check_text};
use sw_decls::AsyncDefault;
use sw_list::ListOf;
use sw_lsp_places::RangeTable;
use sw_lsp_text::Diagnostic;
use sw_text::MAX_LENGTH;

/// The breaches of a text under a default for asynchronous functions, in order.
pub fn breaches_of(
    alloc: Global,
    default: AsyncDefault,
    text: &[u8],
) -> Result<ListOf<Breach>, AllocError>
    requires { length text.now ≤ MAX_LENGTH }
    ensures { IfOk result (λ breaches. Breaches default all_phases text.now breaches) }
{
    match check_text(alloc, text, default)? {
        Verdict::Accepted { .. } => Ok(ListOf::new(alloc)),
        Verdict::Races { breaches, .. } => Ok(breaches),
        Verdict::Refused { breach } => ListOf::one(alloc, breach),
    }
}

/// Breaches as they are shown in the document of this address.
fn diagnostics(
    alloc: Global,
    setting: &Setting,
    uri: &str,
    table: &RangeTable<'_>,
    breaches: &[Breach],
) -> Result<Vec<Diagnostic>, AllocError>
    ensures { IfOk result (λ found. map shown found.items
        ≡ map (finding_of setting.now uri.now table.now) breaches.now) }
{
    let mut found = Vec::with_capacity(alloc, breaches.len())?;
    for breach in breaches {
        found.push(diagnostic_of(alloc, setting, uri, table, breach)?)?;
    }
    Ok(found)
}

/// What is found in a text, all of it, as it is shown in the document of this address. A text that
/// has more bytes than a program may have isn't judged, and this is what is found.
pub fn findings_of(
    alloc: Global,
    setting: &Setting,
    uri: &str,
    text: &[u8],
) -> Result<Vec<Diagnostic>, AllocError>
    ensures { IfOk result (λ found. AreFindings setting.now uri.now text.now (map shown found.items)) }
{
    if text.len() > MAX_LENGTH {
        let mut found = Vec::new(alloc);
        found.push(too_long(alloc)?)?;
        return Ok(found);
    }
    let breaches = breaches_of(alloc, setting.default(), text)?;
    let table = RangeTable::new(alloc, text)?;
    let found = diagnostics(alloc, setting, uri, &table, breaches.as_slice())?;
    Ok(found)
}
