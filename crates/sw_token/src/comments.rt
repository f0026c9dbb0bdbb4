//! Comments.
ghost use Rattle.std.specs.Prelude.{◌≡◌, ◌≤◌, length};
ghost use Rattle.std.specs.List.{prefix_len};
ghost use Rattle.sw_token.specs.Comments.{is_in_line, opens, closes, begins_line_comment};
ghost use Rattle.sw_token.specs.Comments.{begins_block_comment, comment_len};

/// Whether the two bytes open a comment.
fn opens(a: u8, b: u8) -> bool
    ensures { result ≡ opens a b }
{
    a == b'/' && b == b'*'
}

/// Whether the two bytes close a comment.
fn closes(a: u8, b: u8) -> bool
    ensures { result ≡ closes a b }
{
    a == b'*' && b == b'/'
}

/// Whether the bytes begin with `//`.
pub fn begins_line_comment(bytes: &[u8]) -> bool
    ensures { result ≡ begins_line_comment bytes.now }
{
    bytes.len() >= 2 && bytes[0] == b'/' && bytes[1] == b'/'
}

/// Whether the bytes begin with `/*`.
pub fn begins_block_comment(bytes: &[u8]) -> bool
    ensures { result ≡ begins_block_comment bytes.now }
{
    bytes.len() >= 2 && opens(bytes[0], bytes[1])
}

/// The number of bytes before the first line feed.
pub fn line_len(bytes: &[u8]) -> usize
    ensures value { result ≡ prefix_len is_in_line bytes.now }
    ensures within { result ≤ length bytes.now }
{
    bytes.iter().take_while(|byte| **byte != b'\n').count()
}

/// The length of the rest of a comment after its `/*`, up to the `*/` that closes it.
pub fn comment_len(bytes: &[u8]) -> Option<usize>
    ensures { result ≡ comment_len 0 bytes.now }
{
    let mut depth: usize = 0;
    let mut at = 0;
    while at + 1 < bytes.len() {
        if closes(bytes[at], bytes[at + 1]) {
            if depth == 0 {
                return Some(at + 2);
            }
            depth -= 1;
            at += 2;
        } else if opens(bytes[at], bytes[at + 1]) {
            depth += 1;
            at += 2;
        } else {
            at += 1;
        }
    }
    None
}
