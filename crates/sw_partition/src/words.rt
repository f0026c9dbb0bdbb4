//! Rows of bits, in words of 64.
ghost use Rattle.std.specs.Prelude.{◌≡◌, ℕ, ◌+◌, ◌*◌, ◌/◌, ◌^◌, ◌<◌, ◌≤◌, ◌⊎◌, length, replicate};
ghost use Rattle.std.specs.Prelude.{IfOk, MatchOption, IsTrue, ◌↔◌};
ghost use Rattle.sw_partition.specs.Regions.{bit_of};
ghost use Rattle.sw_partition.specs.Regions as spec;
ghost use Rattle.sw_partition.specs.Tables.{IsCleared, IsCopied, IsFilled, SetsBit, IsClassMarked};
ghost use Rattle.sw_partition.specs.Tables.{IsFirstBit, IsClearRow, AreBitsWithin};

use std::alloc::{AllocError, Global};

/// How many words a row of `bits` bits takes.
pub(crate) fn words_for(bits: usize) -> usize
    ensures { result ≡ spec.words_for bits }
{
    bits.div_ceil(64)
}

/// `rows` rows of `width` words each, which are 0.
pub(crate) fn zeros(alloc: Global, rows: usize, width: usize) -> Result<Vec<u64>, AllocError>
    ensures { IfOk result (λ v. v.items ≡ replicate (rows * width) 0) }
{
    let count = rows.checked_mul(width).ok_or(AllocError)?;
    vec![in alloc; 0; count]
}

/// Clears `count` words.
pub(crate) fn clear(words: &mut [u64], from: usize, count: usize)
    requires { from + count ≤ length words.old }
    ensures { IsCleared from count words.old words.new }
{
    for i in from..from + count {
        words[i] = 0;
    }
}

/// Copies `count` words from one index to another.
pub(crate) fn copy(words: &mut [u64], from: usize, to: usize, count: usize)
    requires from { from + count ≤ length words.old }
    requires to { to + count ≤ length words.old }
    requires apart { (from + count ≤ to) ⊎ (to + count ≤ from) }
    ensures { IsCopied from to count words.old words.new }
{
    for i in 0..count {
        words[to + i] = words[from + i];
    }
}

/// Sets the bits that are set in the other words, and answers whether that changed something.
pub(crate) fn fill(words: &mut [u64], other: &[u64]) -> bool
    requires { length other.now ≡ length words.old }
    ensures { IsFilled words.old other.now words.new result }
{
    let mut rose = false;
    for i in 0..words.len() {
        let filled = words[i] | other[i];
        if filled != words[i] {
            words[i] = filled;
            rose = true;
        }
    }
    rose
}

/// Sets a bit of a word.
pub(crate) fn mark(words: &mut [u64], word: usize, bit: usize)
    requires word { word < length words.old }
    requires bit { bit < 64 }
    ensures { SetsBit (word * 64 + bit) words.old words.new }
{
    words[word] |= 1 << bit;
}

/// Sets the bit of a column in the row of each element but 0 that has the label.
pub(crate) fn mark_class(words: &mut [u64], labels: &[u32], label: u32, width: usize, column: usize)
    requires full { length words.old ≡ length labels.now * width }
    requires column { column < width * 64 }
    ensures { IsClassMarked labels.now label (width * 64) column words.old words.new }
{
    for p in 1..labels.len() {
        if labels[p] == label {
            mark(words, p * width + column / 64, column % 64);
        }
    }
}

/// The first bit that is set in a row of `count` words.
pub(crate) fn first_bit(words: &[u64], from: usize, count: usize) -> Option<usize>
    requires row { from + count ≤ length words.now }
    requires fits { count * 64 < 2 ^ 64 }
    ensures { MatchOption result (IsClearRow words.now from count)
        (IsFirstBit words.now from count) }
{
    for i in 0..count {
        let word = words[from + i];
        if word != 0 {
            return Some(i * 64 + word.trailing_zeros() as usize);
        }
    }
    None
}

/// Whether all bits are set that are set in the other words.
pub(crate) fn covers(words: &[u64], other: &[u64]) -> bool
    requires { length other.now ≡ length words.now }
    ensures { IsTrue result ↔ AreBitsWithin other.now words.now }
{
    for i in 0..words.len() {
        if words[i] | other[i] != words[i] {
            return false;
        }
    }
    true
}

/// Whether the bit of a column is set in a row that begins with a word.
pub(crate) fn is_set(words: &[u64], from: usize, column: usize) -> bool
    requires { from + column / 64 < length words.now }
    ensures { IsTrue result ↔ (bit_of words.now (from * 64 + column) ≡ 1) }
{
    words[from + column / 64] >> (column % 64) & 1 == 1
}
