//! Words, by characters.
ghost use Rattle.std.specs.Prelude.{◌≡◌, ◌≤◌, length};
ghost use Rattle.sw_token.specs.Words.{is_word_start, is_word_char, begins_word, goes_on, word_len};

use unicode_ident::{is_xid_continue, is_xid_start};

#[tactic(auto, unfolding(crate::specs::Words::is_word_start))]
fn is_word_start(char: char) -> bool
    ensures { result ≡ is_word_start char }
{
    is_xid_start(char) || char == '_'
}

#[tactic(auto, unfolding(crate::specs::Words::is_word_char))]
fn is_word_char(char: char) -> bool
    ensures { result ≡ is_word_char char }
{
    is_xid_continue(char)
}

/// Whether the text begins with a character that begins a word.
#[tactic(auto, unfolding(crate::specs::Words::begins_word))]
pub fn begins_word(text: &str) -> bool
    ensures { result ≡ begins_word text.now }
{
    match text.chars().next() {
        Some(char) => is_word_start(char),
        None => false,
    }
}

/// Whether the text begins with a character that a word goes on with.
#[tactic(auto, unfolding(crate::specs::Words::goes_on))]
pub fn goes_on(text: &str) -> bool
    ensures { result ≡ goes_on text.now }
{
    match text.chars().next() {
        Some(char) => is_word_char(char),
        None => false,
    }
}

/// The length in bytes of the longest prefix of characters that words go on with.
pub fn word_len(text: &str) -> usize
    ensures value { result ≡ word_len text.now }
    ensures within { result ≤ length text.now }
{
    text.find(|char: char| !is_word_char(char))
        .unwrap_or(text.len())
}
