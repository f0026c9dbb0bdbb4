ghost use Rattle.std.specs.Prelude.{◌≡◌, string_bytes};
ghost use Rattle.std.specs.List.{list_all};
ghost use Rattle.sw_check_words.specs.Words.{is_name, may_stand};

/// The option for the default by which asynchronous functions without an annotation run where their
/// callers run.
pub const NONSENDING_DEFAULT: &str = "--nonsending-default";

/// The option that asks `check` for a certificate.
pub const CERTIFICATE: &str = "--certificate";

/// Whether the word may be a name: it isn't empty and doesn't begin with `-`.
fn is_name(word: &str) -> bool
    ensures { result ≡ is_name word.now }
{
    match word.as_bytes() {
        [] => false,
        [first, ..] => *first != b'-',
    }
}

/// Whether some list of words with the word has a form.
fn may_stand(word: &str) -> bool
    ensures { result ≡ may_stand word.now }
{
    is_name(word) || word == CERTIFICATE || word == NONSENDING_DEFAULT
}

/// Whether this is so of each word.
pub fn all_may_stand(words: &[String]) -> bool
    ensures { result ≡ list_all (λ word. may_stand (string_bytes word)) words.now }
{
    words.iter().all(|word| may_stand(word.as_str()))
}
