//! A text with a table of its lines, for many positions of it.

ghost use Rattle.std.specs.Prelude.{ℕ, ◌≡◌, ◌≤◌, ◌<◌, length, slice_index, IfOk, string_bytes};
ghost use Rattle.std.specs.List.Sorted.{IsNonDecreasing};
ghost use Rattle.sw_breach.specs.LineStarts.{AreLineStarts};
ghost use Rattle.sw_text.specs.Position.{shown_position};
ghost use Rattle.sw_text.specs.Text.{line_of, column_of};

use std::alloc::{AllocError, Global};
use std::marker::Model;

/// A text with the offsets at which its lines begin. These are found in one walk over the text, and
/// then the line of a position is found by a binary search. Contracts see the bytes of the text.
#[derive(Drop)]
pub struct LineTable<'a> {
    bytes: &'a [u8],
    starts: Vec<u32>,
}

impl<'a> Model for LineTable<'a> {
    ghost use Rattle.std.specs.Prelude.{ℕ, ◌<◌, List, length};
    ghost use Rattle.sw_breach.specs.LineStarts.{AreLineStarts};

    ghost Value = { List ℕ };

    ghost view = { λ table. table.bytes.now };

    ghost invariant = { λ table. (length table.bytes.now < 4294967295)
        × AreLineStarts table.bytes.now (length table.bytes.now) table.starts.items };
}

impl<'a> LineTable<'a> {
    /// Finds where the lines of a text begin.
    pub fn new(alloc: Global, bytes: &'a [u8]) -> Result<LineTable<'a>, AllocError>
        requires { length bytes.now < 4294967295 }
        ensures { IfOk result (λ table. table ≡ bytes.now) }
    {
        let starts = line_starts(alloc, bytes)?;
        Ok(LineTable { bytes, starts })
    }

    /// The bytes of the text.
    pub fn bytes(&self) -> &'a [u8]
        ensures value { result.now ≡ self.now }
        ensures short { length result.now < 4294967295 }
    {
        self.bytes
    }

    /// The line of the position `at`, from 1. A position after the end is that of the end.
    pub fn line_of(&self, at: u32) -> u32
        ensures { result ≡ line_of self.now at }
    {
        line_col_in(self.bytes, self.starts.as_slice(), at).0
    }

    /// The position `at` as messages show it: `LINE:COLUMN`. A position after the end is shown as
    /// the end.
    #[tactic(auto, unfolding(sw_text::specs::Position::shown_position))]
    pub fn shown_position(&self, alloc: Global, at: u32) -> Result<String, AllocError>
        ensures { IfOk result (λ text. string_bytes text ≡ shown_position self.now at) }
    {
        let (line, column) = line_col_in(self.bytes, self.starts.as_slice(), at);
        format!(in alloc; "{line}:{column}")
    }
}

/// The offsets at which the lines of a text begin.
fn line_starts(alloc: Global, bytes: &[u8]) -> Result<Vec<u32>, AllocError>
    requires { length bytes.now < 4294967295 }
    ensures { IfOk result (λ starts. AreLineStarts bytes.now (length bytes.now) starts.items) }
{
    let mut starts = vec![in alloc; 0]?;
    let mut next = 0;
    for byte in bytes {
        next += 1;
        if *byte == b'\n' {
            starts.push(next)?;
        }
    }
    Ok(starts)
}

/// The number of lines that begin at the position `at` or before it.
fn lines_begun(starts: &[u32], at: u32) -> usize
    requires { IsNonDecreasing starts.now }
    ensures within { result ≤ length starts.now }
    ensures begun { (k : ℕ) → k < result → slice_index starts.now k ≤ at }
    ensures ahead { (k : ℕ) → result ≤ k → k < length starts.now → at < slice_index starts.now k }
{
    starts.partition_point(|start| *start <= at)
}

/// The line and the column of the position `at` in a text whose lines begin at `starts`.
fn line_col_in(bytes: &[u8], starts: &[u32], at: u32) -> (u32, u32)
    requires short { length bytes.now < 4294967295 }
    requires starts { AreLineStarts bytes.now (length bytes.now) starts.now }
    ensures line { result.0 ≡ line_of bytes.now at }
    ensures column { result.1 ≡ column_of bytes.now at }
{
    let within = at.min(bytes.len() as u32);
    let line = lines_begun(starts, within);
    (line as u32, within - starts[line - 1] + 1)
}
