//! The tokens of a program's text: their kinds, where they stand, and the lexical fault of a text
//! that has none. It knows bytes and nothing of grammar.
#![tactic(auto)]

ghost use Rattle.std.specs.Prelude.{ℕ, ◌≡◌, ◌≢◌, ◌+◌, ◌≤◌, ◌<◌, ◌^◌, List, length, take, drop, All};
ghost use Rattle.std.specs.Prelude.{IfOk, IfErr};
ghost use Rattle.std.specs.Str.{IsUtf8, IsCharBoundary};
ghost use Rattle.sw_token.specs.declared.Token.{Token};
ghost use Rattle.sw_token.specs.declared.LexFault.{LexFault};
ghost use Rattle.sw_token.specs.Kinds.{NumberFits};
ghost use Rattle.sw_token.specs.Tokens.{IsTokens, IsLexicalFault, HasTokens, IsTokenIn};
ghost use Rattle.sw_token.specs.Tokens.{StandInOrder, fixity_of, position_of, token_of};
ghost use Rattle.sw_token.specs.Reading.{Lexes, tokens_or_fault};

mod before;
mod bytes;
mod comments;
mod kinds;
mod literals;
mod numbers;
mod operators;
mod step;
mod words;

use before::Before;
use kinds::kind_of;
use operators::{fixity_between, is_white_after};
use std::alloc::{AllocFailed, Global};
use step::step;
use sw_scan::Step;
use sw_text::{Source, Span};
use thiserror::Error;

/// The most tokens of a text.
pub const MOST_TOKENS: usize = 65_536;

/// How an operator stands among its neighbours. Every token that is no operator has `None`.
#[derive(Clone, Copy, Debug, PartialEq, Eq)]
pub enum Fixity {
    Infix,
    Prefix,
    Postfix,
    None,
}

/// What a token is. The numbers are indices in the lists of key words, operators and marks, from 0.
#[derive(Clone, Copy, Debug, PartialEq, Eq)]
pub enum Kind {
    /// A word that names something.
    Word,
    /// `_` alone.
    Underscore,
    /// A word that the grammar keeps for itself.
    Key(u8),
    /// An `@` and the word after it.
    At,
    /// An integer literal, by its value.
    Int(i64),
    /// An operator.
    Op(u8),
    /// A bracket, a separator, a dot, `?` or `??`.
    Mark(u8),
}

/// One token of a text.
#[derive(Clone, Copy, Debug, PartialEq, Eq)]
pub struct Token {
    pub kind: Kind,
    /// Where it stands, in byte offsets; that of an `At` begins with its `@`.
    pub span: Span,
    pub fixity: Fixity,
    /// Whether it is the first of its line: a line feed stands between it and the token before it,
    /// or no token is before it.
    pub first: bool,
}

/// Why a text has no tokens. `at` is a byte offset.
#[derive(Clone, Copy, Debug, PartialEq, Eq, Error)]
pub enum LexFault {
    /// A comment that begins here isn't closed.
    #[error("the comment at byte {at} is not closed")]
    Unclosed { at: u32 },
    /// An integer literal that begins here has too large a value.
    #[error("the integer literal at byte {at} is too large")]
    TooBig { at: u32 },
    /// No token can take the byte that stands here.
    #[error("no token can take byte {at}")]
    BadChar { at: u32 },
    /// The token that begins here is one too many.
    #[error("the token at byte {at} is one too many")]
    TooMany { at: u32 },
    /// Memory for the tokens ran out.
    #[error("out of memory")]
    Memory,
}

impl<T: Drop> From<AllocFailed<T>> for LexFault {
    ghost use Rattle.std.specs.Prelude.{◌≡◌};
    ghost use Rattle.sw_token.specs.declared.LexFault.TheVariants.{Memory};

    ghost from_gives = { λ _ fault. fault ≡ Memory };

    fn from(_error: AllocFailed<T>) -> LexFault {
        LexFault::Memory
    }
}

/// The tokens of a text, in order, or its lexical fault: the first position at which no gap and no
/// token can be taken. It goes over the text once.
pub fn tokens(alloc: Global, source: &Source) -> Result<Vec<Token>, LexFault>
    ensures found { IfOk result (λ tokens. IsTokens source.now tokens.items) }
    ensures fault { IfErr result
        (λ fault. fault ≢ LexFault.Memory → IsLexicalFault source.now fault) }
    // A text that has tokens is read, and one that has a lexical fault is refused with it, unless
    // memory runs out.
    ensures only { (tokens : List Token) → IsTokens source.now tokens
        → Lexes (Ok tokens) result }
    ensures only_fault { (fault : LexFault) → IsLexicalFault source.now fault
        → Lexes (Err fault) result }
    // The same as one function of the text.
    ensures exact { Lexes (tokens_or_fault source.now) result }
{
    let span = Span {
        start: 0,
        end: source.len(),
    };
    tokens_of(alloc, source.slice(span))
}

fn tokens_of(alloc: Global, text: &str) -> Result<Vec<Token>, LexFault>
    requires { length text.now < 2 ^ 32 }
    ensures { Lexes (tokens_or_fault text.now) result }
{
    let mut tokens = Vec::new(alloc);
    let mut before = Before::at_start();
    let mut at = 0;
    loop {
        let rest = &text[at..];
        let bytes = rest.as_bytes();
        match step(rest, at as u32, before)? {
            Step::End => return Ok(tokens),
            Step::Skip(len) => {
                before = before.past_piece(&bytes[..len]);
                at += len;
            }
            Step::Take(len) => {
                tokens.push(token_of(bytes, len, at as u32, before))?;
                before = before.past_token(&bytes[..len]);
                at += len;
            }
        }
    }
}

/// The token of the first `len` bytes, which stand at the offset `at`.
fn token_of(bytes: &[u8], len: usize, at: u32, before: Before) -> Token
    requires fits { NumberFits (take len bytes.now) }
    requires len { len ≤ length bytes.now }
    requires within { at + len < 2 ^ 32 }
    ensures { result ≡ token_of at before (take len bytes.now) (drop len bytes.now) }
{
    let kind = kind_of(&bytes[..len]);
    Token {
        kind,
        span: Span {
            start: at,
            end: at + len as u32,
        },
        fixity: fixity_of(kind, before.is_white, is_white_after(&bytes[len..])),
        first: before.is_first_on_line,
    }
}

fn fixity_of(kind: Kind, before: bool, after: bool) -> Fixity
    ensures { result ≡ fixity_of kind before after }
{
    match kind {
        Kind::Op(_) => fixity_between(before, after),
        Kind::Word | Kind::Underscore | Kind::Key(_) | Kind::At | Kind::Int(_) | Kind::Mark(_) =>
            Fixity::None,
    }
}

/// A text has one token list or one lexical fault, and not both.
pub fn one_reading()
    ensures tokens { (text : List ℕ) (a b : List Token)
        → IsTokens text a → IsTokens text b → a ≡ b }
    ensures faults { (text : List ℕ) (a b : LexFault)
        → IsLexicalFault text a → IsLexicalFault text b → a ≡ b }
    ensures apart { (text : List ℕ) (tokens : List Token) (fault : LexFault)
        → IsTokens text tokens → ¬ IsLexicalFault text fault }
    ensures always { (text : List ℕ) → IsUtf8 text → HasTokens text (tokens_or_fault text) }
{}

/// What the tokens of a text are, one by one and together.
pub fn tokens_in_text()
    ensures each { (text : List ℕ) (tokens : List Token) → IsUtf8 text → IsTokens text tokens
        → All (IsTokenIn text) tokens }
    ensures order { (text : List ℕ) (tokens : List Token) → IsTokens text tokens
        → StandInOrder 0 tokens }
    ensures few { (text : List ℕ) (tokens : List Token) → IsTokens text tokens
        → length tokens ≤ length text }
    ensures most { (text : List ℕ) (tokens : List Token) → IsTokens text tokens
        → length tokens ≤ MOST_TOKENS }
    // A span of a token may be cut out of the text.
    ensures borders { (text : List ℕ) (tokens : List Token) → IsUtf8 text → IsTokens text tokens
        → All (λ token. IsCharBoundary text token.span.start
        × IsCharBoundary text token.span.end) tokens }
    ensures inside { (text : List ℕ) (fault : LexFault) → IsLexicalFault text fault
        → position_of fault ≤ length text }
{}

/// The limit that the definitions of tokens take from here.
pub fn token_limit()
    ensures { MOST_TOKENS ≡ 65536 }
{}
