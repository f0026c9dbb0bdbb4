//! The words that may mend a breach.
ghost use Rattle.std.specs.Prelude.{◌≡◌, IfOk, string_bytes};
ghost use Rattle.sw_lsp_mends.specs.Words.{mend_for, put_in, title_of, words_of};

use std::alloc::{AllocError, Global};

/// What is put into a text to mend a breach.
#[derive(Clone, Copy, Debug, PartialEq, Eq)]
pub enum Mend {
    /// `await`, before the expression that is to be awaited.
    Await,
    /// The variable in a list of captures, behind the `{` of the closure.
    Capture,
    /// `sending`, before the result of the function that is called.
    SendingResult,
    /// `sending`, before the type of the parameter.
    SendingParameter,
}

/// What mends a breach of a code, where words do.
pub fn mend_for(code: u16) -> Option<Mend>
    ensures { result ≡ mend_for code }
{
    match code {
        502 => Some(Mend::Await),
        603 => Some(Mend::Capture),
        604 => Some(Mend::SendingResult),
        703 => Some(Mend::SendingParameter),
        704 => Some(Mend::SendingParameter),
        _ => None,
    }
}

/// The words, where the breach stands at this word of the text.
fn words_of(alloc: Global, mend: Mend, word: &str) -> Result<String, AllocError>
    ensures { IfOk result (λ words. string_bytes words ≡ words_of mend word.now) }
{
    match mend {
        Mend::Await => String::from_str(alloc, "await"),
        Mend::Capture => format!(in alloc; "[{word}] in"),
        Mend::SendingResult | Mend::SendingParameter => String::from_str(alloc, "sending"),
    }
}

/// The words with the blank that divides them from what stands there.
pub fn put_in(alloc: Global, mend: Mend, word: &str) -> Result<String, AllocError>
    ensures { IfOk result (λ piece. string_bytes piece ≡ put_in mend word.now) }
{
    let words = words_of(alloc, mend, word)?;
    match mend {
        Mend::Capture => format!(in alloc; " {words}"),
        Mend::Await | Mend::SendingResult | Mend::SendingParameter => {
            format!(in alloc; "{words} ")
        }
    }
}

/// What an edit is called.
pub fn title_of(alloc: Global, mend: Mend, word: &str) -> Result<String, AllocError>
    ensures { IfOk result (λ title. string_bytes title ≡ title_of mend word.now) }
{
    let words = words_of(alloc, mend, word)?;
    format!(in alloc; "add `{words}`")
}
