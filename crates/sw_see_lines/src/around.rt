//! What stands on the line of a position, before the position and from it on.

ghost use Rattle.std.specs.Prelude.{◌≡◌, ◌≤◌, ◌-◌, not, length};
ghost use Rattle.std.specs.List.{prefix_len, suffix_len};
ghost use Rattle.sw_see_lines.specs.Around.{ends_line, first_part, last_part, line_before, line_from};
ghost use Rattle.sw_text.specs.Text.{is_line_feed};

/// The most bytes of a line that are shown on either side of a position.
pub const SIDE: usize = 160;

/// Where the last line of the bytes begins.
fn line_start(bytes: &[u8]) -> usize
    ensures value { result ≡ length bytes.now - suffix_len (λ byte. not (is_line_feed byte)) bytes.now }
    ensures within { result ≤ length bytes.now }
{
    let mut start = bytes.len();
    while start > 0 && bytes[start - 1] != b'\n' {
        start -= 1;
    }
    start
}

/// The bytes of the line before the position. A position after the end is that of the end.
pub fn line_before(text: &[u8], at: usize) -> &[u8]
    ensures { result.now ≡ line_before text.now at }
{
    let before = &text[..at.min(text.len())];
    &before[line_start(before)..]
}

/// Whether the byte isn't shown at the end of a line.
fn ends_line(byte: u8) -> bool
    ensures { result ≡ ends_line byte }
{
    byte == b'\n' || byte == b'\r'
}

/// How many bytes stand before the end of the first line.
fn line_len(bytes: &[u8]) -> usize
    ensures value { result ≡ prefix_len (λ byte. not (ends_line byte)) bytes.now }
    ensures within { result ≤ length bytes.now }
{
    bytes.iter().take_while(|byte| !ends_line(**byte)).count()
}

/// The bytes of the line from the position on.
pub fn line_from(text: &[u8], at: usize) -> &[u8]
    ensures { result.now ≡ line_from text.now at }
{
    let rest = &text[at.min(text.len())..];
    &rest[..line_len(rest)]
}

/// The last of the bytes, as many as are shown.
pub fn last_part(bytes: &[u8]) -> &[u8]
    ensures { result.now ≡ last_part bytes.now }
{
    &bytes[bytes.len().saturating_sub(SIDE)..]
}

/// The first of the bytes, as many as are shown.
#[tactic(auto, using(std::proofs::lemmas::List::take_min))]
pub fn first_part(bytes: &[u8]) -> &[u8]
    ensures { result.now ≡ first_part bytes.now }
{
    &bytes[..SIDE.min(bytes.len())]
}
