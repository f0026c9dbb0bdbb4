//! The classes of bytes that tokens are made of.
ghost use Rattle.std.specs.Prelude.{◌≡◌};
ghost use Rattle.sw_token.specs.Bytes.{is_operator_byte, is_mark, begins_double, mark_len};
ghost use Rattle.sw_token.specs.Bytes.{is_opening, is_closing};

#[tactic(auto, unfolding(crate::specs::Bytes::is_operator_byte))]
pub fn is_operator_byte(byte: u8) -> bool
    ensures { result ≡ is_operator_byte byte }
{
    b"+-*/%=<>!&|".contains(&byte)
}

#[tactic(auto, unfolding(crate::specs::Bytes::is_mark))]
pub fn is_mark(byte: u8) -> bool
    ensures { result ≡ is_mark byte }
{
    b"(){}[],:;.?".contains(&byte)
}

/// Whether the bytes begin with `??`, the one mark of two bytes.
fn begins_double(bytes: &[u8]) -> bool
    ensures { result ≡ begins_double bytes.now }
{
    bytes.len() >= 2 && bytes[0] == b'?' && bytes[1] == b'?'
}

/// The length of the longest mark that the bytes begin with, where they begin with one.
pub fn mark_len(bytes: &[u8]) -> usize
    ensures { result ≡ mark_len bytes.now }
{
    if begins_double(bytes) { 2 } else { 1 }
}

/// Whether the byte is a mark after which an operator stands as after white space.
#[tactic(auto, unfolding(crate::specs::Bytes::is_opening))]
pub fn is_opening(byte: u8) -> bool
    ensures { result ≡ is_opening byte }
{
    b"([{,;:".contains(&byte)
}

/// Whether the byte is a mark before which an operator stands as before white space.
#[tactic(auto, unfolding(crate::specs::Bytes::is_closing))]
pub fn is_closing(byte: u8) -> bool
    ensures { result ≡ is_closing byte }
{
    b")]},;:".contains(&byte)
}
