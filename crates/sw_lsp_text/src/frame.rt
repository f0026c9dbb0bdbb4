//! Frames: a header that ends with a blank line, and a body of the length that it declares.
ghost use Rattle.std.specs.Prelude.{◌≡◌, ◌+◌, ◌≤◌, length, take, option_map, MatchOption, IfSome};
ghost use Rattle.sw_lsp_text.specs.Frames.{cut_by_value, HasHeader, HasNoHeader, IsCut, IsWithin};

use crate::header::{number_in, value_in};
use memchr::memmem;

/// The most bytes that a header has, with its blank line.
pub const HEADER_LIMIT: usize = 1024;

/// The most bytes that a body has.
pub const BODY_LIMIT: usize = 16_777_216;

/// What a stream of bytes begins with. `header` counts the bytes of a header with its blank line.
#[derive(Clone, Copy, Debug, PartialEq, Eq)]
pub enum Cut {
    /// A frame, or a header, that goes on behind these bytes.
    Partial,
    /// More bytes than a header has, without a blank line among them.
    Endless,
    /// A header that declares no length.
    NoLength { header: usize },
    /// A header whose length is no number.
    NoNumber { header: usize },
    /// A header that declares more bytes than a body has.
    TooLong { header: usize },
    /// A frame with a body of `body` bytes.
    Whole { header: usize, body: usize },
}

/// The length of the header that a stream begins with, without its blank line.
fn header_end(bytes: &[u8]) -> Option<usize>
    ensures header { MatchOption result (HasNoHeader bytes.now)
        (λ end. HasHeader bytes.now (end + 4) (take end bytes.now)) }
    ensures within { IfSome result (λ end. end + 4 ≤ length bytes.now) }
{
    let end = memmem::find(bytes, b"\r\n\r\n")?;
    if end + 4 > HEADER_LIMIT {
        return None;
    }
    Some(end)
}

/// What a stream begins with, of which `len` bytes have come, where a header says this of the body's
/// length.
fn cut_by_value(len: usize, header: usize, value: Option<&[u8]>) -> Cut
    requires { header ≤ len }
    ensures cut { result ≡ cut_by_value len header (option_map (λ v. v.now) value.entry) }
    ensures within { IsWithin len result }
{
    let Some(value) = value else {
        return Cut::NoLength { header };
    };
    let Some(number) = number_in(value) else {
        return Cut::NoNumber { header };
    };
    let body = number as usize;
    if body > BODY_LIMIT {
        return Cut::TooLong { header };
    }
    if body > len - header {
        return Cut::Partial;
    }
    Cut::Whole { header, body }
}

/// What a stream begins with. It depends on the first frame alone, however the stream comes in
/// pieces.
pub fn first_cut(bytes: &[u8]) -> Cut
    ensures cut { IsCut bytes.now result }
    ensures within { IsWithin (length bytes.now) result }
{
    if let Some(end) = header_end(bytes) {
        let lines = &bytes[..end];
        return cut_by_value(bytes.len(), end + 4, value_in(lines));
    }
    if bytes.len() < HEADER_LIMIT {
        return Cut::Partial;
    }
    Cut::Endless
}
