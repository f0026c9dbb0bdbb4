//! Colours of a terminal.

ghost use Rattle.std.specs.Prelude.{◌≡◌, IfOk, string_bytes};
ghost use Rattle.sw_see_breaches.specs.Painting.{escape, painted};

use std::alloc::{AllocError, Global};

/// Whether headings and marks are coloured.
#[derive(Clone, Copy, Debug, PartialEq, Eq)]
pub enum Paint {
    Plain,
    /// By the escape sequences that terminals know.
    Colored,
}

/// The byte with which an escape sequence begins.
fn escape() -> &'static str
    ensures { result.now ≡ escape }
{
    "\u{1b}"
}

/// A text in a colour, which the sequence sets.
#[tactic(auto, unfolding(crate::specs::Painting::painted))]
pub fn painted(alloc: Global, paint: Paint, color: &str, text: &str) -> Result<String, AllocError>
    ensures { IfOk result (λ shown. string_bytes shown ≡ painted paint color.now text.now) }
{
    match paint {
        Paint::Plain => format!(in alloc; "{text}"),
        Paint::Colored => {
            let escape = escape();
            format!(in alloc; "{escape}[{color}m{text}{escape}[0m")
        }
    }
}
