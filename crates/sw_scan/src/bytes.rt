//! Classes of bytes, and the length of the longest prefix of digits.
ghost use Rattle.std.specs.Prelude.{◌≡◌, ◌≤◌, length};
ghost use Rattle.std.specs.List.{prefix_len};
ghost use Rattle.sw_scan.specs.Classes.{is_blank, is_digit};

/// Whether the byte is a space, a tab, a carriage return or a line feed.
#[tactic(auto, unfolding(crate::specs::Classes::is_blank))]
pub fn is_blank(byte: u8) -> bool
    ensures { result ≡ is_blank byte }
{
    byte == b' ' || byte == b'\t' || byte == b'\r' || byte == b'\n'
}

/// Whether the byte is one of the digits `0` to `9`.
#[tactic(auto, unfolding(crate::specs::Classes::is_digit))]
pub fn is_digit(byte: u8) -> bool
    ensures { result ≡ is_digit byte }
{
    byte.is_ascii_digit()
}

/// The length of the longest prefix of digits.
pub fn digits_len(bytes: &[u8]) -> usize
    ensures value { result ≡ prefix_len is_digit bytes.now }
    ensures within { result ≤ length bytes.now }
{
    bytes.iter().take_while(|byte| is_digit(**byte)).count()
}
