//! Texts that no word of a program has.

ghost use Rattle.std.specs.Prelude.{◌≡◌, IfOk, string_bytes};
ghost use Rattle.sw_sugar.specs.Calls.{part_text, whole_text};

use std::alloc::{AllocError, Global};

/// A text with `?`: the name of the optional of a type, and of what is in an optional.
pub fn part_text(alloc: Global, text: &str) -> Result<String, AllocError>
    ensures { IfOk result (λ made. string_bytes made ≡ part_text text.now) }
{
    let mut made = String::from_str(alloc, text)?;
    made.push_str("?")?;
    Ok(made)
}

/// A text with `??`: the name of the value that a word gets.
pub fn whole_text(alloc: Global, text: &str) -> Result<String, AllocError>
    ensures { IfOk result (λ made. string_bytes made ≡ whole_text text.now) }
{
    let mut made = String::from_str(alloc, text)?;
    made.push_str("??")?;
    Ok(made)
}
