//! Places of a text: its lines, and in each line the units of UTF-16.
ghost use Rattle.std.specs.Prelude.{◌≡◌, ◌≤◌, length, IfOk};
ghost use Rattle.sw_lsp_places.specs.Places.{ArePlaces, units};

use std::alloc::{AllocError, Global};
use sw_lsp_text::Place;
use sw_text::MAX_LENGTH;

/// How many units of UTF-16 a byte brings. The first byte of a character brings all of them.
fn units_of(byte: u8) -> u32
    ensures value { result ≡ units byte }
    ensures few { result ≤ 2 }
{
    if byte < 128 {
        1
    } else if byte < 192 {
        0
    } else if byte < 240 {
        1
    } else {
        2
    }
}

/// The places of a text's positions, from its first byte to its end. A position inside a character
/// has the place of the character's end.
pub fn places_of(alloc: Global, bytes: &[u8]) -> Result<Vec<Place>, AllocError>
    requires { length bytes.now ≤ MAX_LENGTH }
    ensures { IfOk result (λ places. ArePlaces bytes.now places.items) }
{
    let mut places = Vec::with_capacity(alloc, bytes.len() + 1)?;
    let mut line = 0;
    let mut character = 0;
    for byte in bytes {
        places.push(Place { line, character })?;
        if *byte == b'\n' {
            line += 1;
            character = 0;
        } else {
            character += units_of(*byte);
        }
    }
    places.push(Place { line, character })?;
    Ok(places)
}
