ghost use Rattle.std.specs.Prelude.{◌≡◌, ◌≤◌, ◌<◌, length, IfOk, string_bytes};
ghost use Rattle.sw_text.specs.Position.{shown_position};
ghost use Rattle.sw_text.specs.Text.{line_of, column_of};

use std::alloc::{AllocError, Global};

/// The line and the column of the position `at`, a byte offset. Both count from 1, the column
/// counts bytes, and a line ends after a line feed.
pub fn line_col_of(bytes: &[u8], at: u32) -> (u32, u32)
    requires within { at ≤ length bytes.now }
    requires short { length bytes.now < 4294967295 }
    ensures line { result.0 ≡ line_of bytes.now at }
    ensures column { result.1 ≡ column_of bytes.now at }
{
    let before = &bytes[..at as usize];
    let mut line = 1;
    let mut column = 1;
    for byte in before {
        if *byte == b'\n' {
            line += 1;
            column = 1;
        } else {
            column += 1;
        }
    }
    (line, column)
}

/// The position `at` as messages show it: `LINE:COLUMN`. A position after the end is shown as the
/// end.
#[tactic(auto, unfolding(crate::specs::Position::shown_position))]
pub fn shown_position(alloc: Global, bytes: &[u8], at: u32) -> Result<String, AllocError>
    requires { length bytes.now < 4294967295 }
    ensures { IfOk result (λ text. string_bytes text ≡ shown_position bytes.now at) }
{
    let within = at.min(bytes.len() as u32);
    let (line, column) = line_col_of(bytes, within);
    format!(in alloc; "{line}:{column}")
}
