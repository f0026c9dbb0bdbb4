//! Texts in markup.

ghost use Rattle.std.specs.Prelude.{◌≡◌, ◌++◌, IfOk, OnOk, chars, option_map, string_bytes};
ghost use Rattle.sw_see_draw.specs.Markup.{entity, escaped, escaped_char};

use std::alloc::{AllocError, Global};

/// What stands for a character that means something in markup, or that isn't allowed there.
fn entity(c: char) -> Option<&'static str>
    ensures { option_map (λ text. text.now) result ≡ entity c }
{
    match c {
        '&' => Some("&amp;"),
        '<' => Some("&lt;"),
        '>' => Some("&gt;"),
        '"' => Some("&quot;"),
        '\u{fffe}' | '\u{ffff}' => Some("?"),
        _ => None,
    }
}

/// Adds a character.
fn add_char(c: char, made: &mut String) -> Result<(), AllocError>
    ensures { OnOk result (string_bytes made.new ≡ string_bytes made.old ++ escaped_char c) }
{
    match entity(c) {
        Some(text) => made.push_str(text),
        None => made.push(c),
    }
}

/// The characters of a text, in order.
fn characters(alloc: Global, text: &str) -> Result<Vec<char>, AllocError>
    ensures { IfOk result (λ list. list.items ≡ chars text.now) }
{
    text.chars().collect(alloc)
}

/// A text in markup.
#[tactic(auto, unfolding(crate::specs::Markup::escaped))]
pub fn escaped(alloc: Global, text: &str) -> Result<String, AllocError>
    ensures { IfOk result (λ made. string_bytes made ≡ escaped text.now) }
{
    let list = characters(alloc, text)?;
    let mut made = String::new(alloc);
    for c in &list {
        add_char(*c, &mut made)?;
    }
    Ok(made)
}
