//! The numbers of words in a table.
ghost use Rattle.std.specs.Prelude.{◌≡◌, ◌≤◌, ◌<◌, length, position, bytes_eq, IfSome};

/// The number of the word with this text, if there is one: its index in the table.
pub fn number_of(words: &[&str], text: &[u8]) -> Option<u8>
    requires { length words.now ≤ 256 }
    ensures { result ≡ position (λ word. bytes_eq word.now text.now) words.now }
{
    match index_of(words, text) {
        Some(index) => Some(index as u8),
        None => None,
    }
}

fn index_of(words: &[&str], text: &[u8]) -> Option<usize>
    ensures index { result ≡ position (λ word. bytes_eq word.now text.now) words.now }
    ensures within { IfSome result (λ index. index < length words.now) }
{
    words.iter().position(|word| is_same(word, text))
}

fn is_same(word: &str, text: &[u8]) -> bool
    ensures { result ≡ bytes_eq word.now text.now }
{
    word.as_bytes() == text
}
