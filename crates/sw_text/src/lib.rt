//! The text of a program: bytes that are UTF-8, parts of them, and the lines and columns of their
//! positions. The crate knows bytes and characters, and nothing of tokens or of the language.
#![tactic(auto)]

ghost use Rattle.std.specs.Prelude.{ℕ, ◌≡◌, ◌≤◌, ◌<◌, ◌↔◌, length, slice_range, OnOk, IfOk};
ghost use Rattle.std.specs.Prelude.{IsErrOf};
ghost use Rattle.std.specs.Str.{IsUtf8, IsValidUpTo, IsCharBoundary};
ghost use Rattle.std.specs.Str.Lossy.{utf8_valid_len};
ghost use Rattle.sw_text.specs.Text.{line_of, column_of};

mod position;

pub use position::{line_col_of, shown_position};
use std::alloc::{AllocError, Global};
use std::marker::Model;
use thiserror::Error;

/// The most bytes that a text has.
pub const MAX_LENGTH: usize = 262_144;

/// A part of a text: the bytes from offset `start` up to, and without, offset `end`.
#[derive(Clone, Copy, Debug, PartialEq, Eq)]
pub struct Span {
    pub start: u32,
    pub end: u32,
}

/// Why bytes make no [`Source`].
#[derive(Clone, Copy, Debug, PartialEq, Eq, Error)]
pub enum TextFault {
    /// The bytes aren't UTF-8; `at` is the length of their longest prefix that is.
    #[error("not UTF-8 from byte {at} on")]
    NotUtf8 { at: u32 },
    #[error("out of memory")]
    Memory,
}

impl From<AllocError> for TextFault {
    ghost use Rattle.std.specs.Prelude.{◌≡◌};
    ghost use Rattle.sw_text.specs.declared.TextFault.TheVariants.{Memory};

    ghost from_gives = { λ _ fault. fault ≡ Memory };

    fn from(_error: AllocError) -> TextFault {
        TextFault::Memory
    }
}

/// The text of a program: UTF-8, and at most [`MAX_LENGTH`] bytes. Contracts see the list of its
/// bytes.
#[derive(Debug, Drop)]
pub struct Source {
    text: String,
}

impl Model for Source {
    ghost use Rattle.std.specs.Prelude.{ℕ, ◌≤◌, List, length};
    ghost use Rattle.std.specs.String.{string_bytes};

    ghost Value = { List ℕ };

    ghost view = { λ source. string_bytes source.text };

    ghost invariant = { λ source. length (string_bytes source.text) ≤ 262144 };
}

impl Source {
    /// Copies the bytes of a program's text. Bytes that aren't UTF-8 are refused before memory is
    /// requested.
    pub fn new(alloc: Global, bytes: &[u8]) -> Result<Source, TextFault>
        requires { length bytes.now ≤ MAX_LENGTH }
        ensures same { IfOk result (λ source. source ≡ bytes.now) }
        ensures utf8 { OnOk result (IsUtf8 bytes.now) }
        ensures not_utf8 { (at : ℕ) → IsErrOf result (TextFault.NotUtf8 at)
            ↔ ((¬ (IsUtf8 bytes.now)) × (at ≡ utf8_valid_len bytes.now)) }
        // The bytes before `at` are UTF-8, and no longer prefix of the bytes is.
        ensures longest { (at : ℕ)
            → IsErrOf result (TextFault.NotUtf8 at) → IsValidUpTo bytes.now at }
    {
        match str::from_utf8(bytes) {
            Ok(text) => Ok(Source {
                text: String::from_str(alloc, text)?,
            }),
            Err(error) => Err(TextFault::NotUtf8 {
                at: error.valid_up_to() as u32,
            }),
        }
    }

    /// The number of bytes of the text.
    pub fn len(&self) -> u32
        ensures value { result ≡ length self.now }
        ensures short { length self.now ≤ MAX_LENGTH }
        ensures utf8 { IsUtf8 self.now }
    {
        self.text.len() as u32
    }

    /// A part of the text, lent and not copied.
    pub fn slice(&self, span: Span) -> &str
        requires ordered { span.start ≤ span.end }
        // Both ends are at most the text's length, and cut no character in two.
        requires start { IsCharBoundary self.now span.start }
        requires end { IsCharBoundary self.now span.end }
        ensures { result.now ≡ slice_range self.now span.start span.end }
    {
        &self.text.as_str()[span.start as usize..span.end as usize]
    }

    /// The line and the column of the position `at` (see [`line_col_of`]).
    pub fn line_col(&self, at: u32) -> (u32, u32)
        requires { at ≤ length self.now }
        ensures line { result.0 ≡ line_of self.now at }
        ensures column { result.1 ≡ column_of self.now at }
        ensures short { length self.now ≤ MAX_LENGTH }
        ensures utf8 { IsUtf8 self.now }
    {
        line_col_of(self.text.as_bytes(), at)
    }
}
