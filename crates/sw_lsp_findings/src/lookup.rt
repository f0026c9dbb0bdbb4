//! What the page of codes says of a code.
ghost use Rattle.std.specs.Prelude.{◌≡◌, ◌==◌, [], IfOk, find, option_map, string_bytes, unwrap_or};
ghost use Rattle.sw_breach.specs.Codes.{text_of};
ghost use Rattle.sw_lsp_findings.specs.Sections.{address_of, explained, heading_of, mend_of};
ghost use Rattle.sw_lsp_findings.specs.Sections.{pair, rule_of};

use crate::sections::{HEADINGS, MENDS, RULES};
use std::alloc::{AllocError, Global};

/// The first row of a code: a title and an anchor.
fn heading_in(
    rows: &[(u16, &'static str, &'static str)],
    code: u16,
) -> Option<(&'static str, &'static str)>
    ensures { option_map (λ row. pair row.0.now row.1.now) result
        ≡ option_map (λ row. pair row.1.now row.2.now) (find (λ row. row.0 == code) rows.now) }
{
    rows.iter()
        .find(|row| row.0 == code)
        .map(|row| (row.1, row.2))
}

/// The title of the section of a code, and the part of an address that leads to it.
fn heading_of(code: u16) -> Option<(&'static str, &'static str)>
    ensures { option_map (λ row. pair row.0.now row.1.now) result ≡ heading_of code }
{
    let headings: [(u16, &str, &str); 39] = HEADINGS;
    heading_in(headings.as_slice(), code)
}

/// The text of the first row of a code.
fn text_in(rows: &[(u16, &'static str)], code: u16) -> Option<&'static str>
    ensures { option_map (λ text. text.now) result
        ≡ option_map (λ row. row.1.now) (find (λ row. row.0 == code) rows.now) }
{
    rows.iter().find(|row| row.0 == code).map(|row| row.1)
}

/// The rule of a code.
fn rule_of(code: u16) -> Option<&'static str>
    ensures { option_map (λ text. text.now) result ≡ rule_of code }
{
    let rules: [(u16, &str); 39] = RULES;
    text_in(rules.as_slice(), code)
}

/// What mends a breach of a code.
fn mend_of(code: u16) -> Option<&'static str>
    ensures { option_map (λ text. text.now) result ≡ mend_of code }
{
    let mends: [(u16, &str); 39] = MENDS;
    text_in(mends.as_slice(), code)
}

/// What a breach of a code is, as the lines of a verdict say it. A number that is no code has no
/// text.
pub fn meaning_of(alloc: Global, code: u16) -> Result<String, AllocError>
    ensures { IfOk result (λ text. string_bytes text ≡ unwrap_or (text_of code) []) }
{
    match heading_of(code) {
        Some((title, _anchor)) => String::from_str(alloc, title),
        None => Ok(String::new(alloc)),
    }
}

/// The address of the section of a code, if the page has an address.
pub fn address_of(
    alloc: Global,
    pages: &Option<String>,
    code: u16,
) -> Result<Option<String>, AllocError>
    ensures { IfOk result (λ address. option_map string_bytes address
        ≡ address_of (option_map string_bytes pages.now) code) }
{
    let Some(pages) = pages else {
        return Ok(None);
    };
    let Some((_title, anchor)) = heading_of(code) else {
        return Ok(None);
    };
    let address = format!(in alloc; "{pages}#{anchor}")?;
    Ok(Some(address))
}

/// What is known of a code, as a text in Markdown.
pub fn explained(alloc: Global, code: u16) -> Result<Option<String>, AllocError>
    ensures { IfOk result (λ text. option_map string_bytes text ≡ explained code) }
{
    let Some((title, _anchor)) = heading_of(code) else {
        return Ok(None);
    };
    let Some(rule) = rule_of(code) else {
        return Ok(None);
    };
    let Some(mend) = mend_of(code) else {
        return Ok(None);
    };
    let text = format!(in alloc; "**E{code}: {title}**\n\n**Rule:** {rule}\n\n**Mend:** {mend}")?;
    Ok(Some(text))
}
