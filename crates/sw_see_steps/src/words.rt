//! The words of the source.

ghost use Rattle.std.specs.Prelude.{◌≡◌, ◌≤◌, not, length, IfOk, string_bytes};
ghost use Rattle.std.specs.List.{prefix_len};
ghost use Rattle.sw_see_steps.specs.Words.{ends_word, first_word, word_at, word_of};

use std::alloc::{AllocError, Global};
use sw_see_lines::shown_text;

/// The most bytes of a word of the source that are shown.
pub const MOST_OF_A_WORD: usize = 60;

/// Whether a byte is no part of a word.
fn ends_word(byte: u8) -> bool
    ensures { result ≡ ends_word byte }
{
    byte.is_ascii() && !(byte.is_ascii_alphanumeric() || byte == b'_')
}

/// How many bytes the word has with which the bytes begin.
fn word_len(bytes: &[u8]) -> usize
    ensures value { result ≡ prefix_len (λ byte. not (ends_word byte)) bytes.now }
    ensures within { result ≤ length bytes.now }
{
    bytes.iter().take_while(|byte| !ends_word(**byte)).count()
}

/// The word with which the bytes begin, as far as it is shown.
#[tactic(auto, using(std::proofs::lemmas::List::take_min))]
fn first_word(bytes: &[u8]) -> &[u8]
    ensures { result.now ≡ first_word bytes.now }
{
    let word = &bytes[..word_len(bytes)];
    &word[..MOST_OF_A_WORD.min(word.len())]
}

/// The word at the position `at` of a text, a byte offset, as a terminal shows it; nothing where no
/// word stands there.
fn word_at(alloc: Global, text: &[u8], at: u32) -> Result<String, AllocError>
    ensures { IfOk result (λ word. string_bytes word ≡ word_at text.now at) }
{
    let start = (at as usize).min(text.len());
    shown_text(alloc, first_word(&text[start..]))
}

/// The word at a position, if there is a position.
pub fn word_of(alloc: Global, text: &[u8], at: Option<u32>) -> Result<String, AllocError>
    ensures { IfOk result (λ word. string_bytes word ≡ word_of text.now at) }
{
    match at {
        None => Ok(String::new(alloc)),
        Some(at) => word_at(alloc, text, at),
    }
}
