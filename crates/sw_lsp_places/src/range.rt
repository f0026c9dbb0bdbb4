//! Ranges of a text: what a position of it stands for.
ghost use Rattle.std.specs.Prelude.{◌≡◌, ◌≤◌, length, IfOk, option_map};
ghost use Rattle.std.specs.List.{prefix_len};
ghost use Rattle.std.specs.List.Sorted.{IsNonDecreasingBy};
ghost use Rattle.sw_lsp_places.specs.Places.{place_in};
ghost use Rattle.sw_lsp_places.specs.Ranges.{AreTokensIn, character_end, ended, end_of, goes_on};
ghost use Rattle.sw_lsp_places.specs.Ranges.{range_of, span_at, spelled, text_at, token_end};
ghost use Rattle.sw_token.specs.Tokens.{IsTokenIn};

use crate::place::places_of;
use std::alloc::{AllocError, Global};
use std::marker::Model;
use sw_lsp_text::{Place, Range};
use sw_text::{MAX_LENGTH, Source, Span, TextFault};
use sw_token::{LexFault, MOST_TOKENS, Token, tokens};

/// A text with its tokens and the places of its positions. Places are found in one walk over the
/// text, and then each is at hand; the token over a position is found by a binary search. Contracts
/// see the text and the tokens.
#[derive(Drop)]
pub struct RangeTable<'a> {
    bytes: &'a [u8],
    places: Vec<Place>,
    tokens: Vec<Token>,
}

impl<'a> Model for RangeTable<'a> {
    ghost use Rattle.std.specs.Prelude.{ℕ, ◌≤◌, All, List, length};
    ghost use Rattle.std.specs.List.Sorted.{IsNonDecreasingBy};
    ghost use Rattle.sw_token.specs.declared.TheConstants.{MOST_TOKENS};
    ghost use Rattle.sw_token.specs.declared.Token.{Token};
    ghost use Rattle.sw_token.specs.Tokens.{IsTokenIn};
    ghost use Rattle.sw_lsp_places.specs.Places.{ArePlaces};
    ghost use Rattle.sw_lsp_places.specs.Ranges.{Tokenized};

    ghost Value = { Tokenized };

    ghost view = { λ table. record { text = table.bytes.now; tokens = table.tokens.items } };

    ghost invariant = { λ table. ArePlaces table.bytes.now table.places.items
        × IsNonDecreasingBy (λ (token : Token). token.span.end) table.tokens.items
        × All (IsTokenIn table.bytes.now) table.tokens.items
        × (length table.tokens.items ≤ MOST_TOKENS) };
}

impl<'a> RangeTable<'a> {
    /// Finds the tokens of a text, and the places of its positions.
    pub fn new(alloc: Global, bytes: &'a [u8]) -> Result<RangeTable<'a>, AllocError>
        requires { length bytes.now ≤ MAX_LENGTH }
        ensures text { IfOk result (λ table. table.text ≡ bytes.now) }
        ensures tokens { IfOk result (λ table. AreTokensIn bytes.now table.tokens) }
    {
        let places = places_of(alloc, bytes)?;
        let tokens = tokens_in(alloc, bytes)?;
        Ok(RangeTable {
            bytes,
            places,
            tokens,
        })
    }

    /// The place of the position `at`, a byte offset. A position after the end has the place of the
    /// end.
    pub fn place_of(&self, at: usize) -> Place
        ensures { result ≡ place_in self.now.text at }
    {
        self.places[at.min(self.bytes.len())]
    }

    /// The position at which the range of a position ends.
    fn end_of(&self, at: usize) -> usize
        ensures { result ≡ end_of self.now at }
    {
        match token_end(self.tokens.as_slice(), at) {
            Some(end) => end,
            None => character_end(self.bytes, at),
        }
    }

    /// The range of the position `at`, a byte offset.
    pub fn range_of(&self, at: u32) -> Range
        ensures { result ≡ range_of self.now at }
    {
        let at = at as usize;
        Range {
            start: self.place_of(at),
            end: self.place_of(self.end_of(at)),
        }
    }

    /// How many tokens there are. They are numbered from 0.
    pub fn token_count(&self) -> usize
        ensures value { result ≡ length self.now.tokens }
        ensures few { result ≤ MOST_TOKENS }
    {
        self.tokens.len()
    }

    /// The number of the token over the position `at`, a byte offset, or else of the next one.
    pub fn number_at(&self, at: u32) -> usize
        ensures value { result ≡ ended self.now.tokens at }
        ensures few { result ≤ MOST_TOKENS }
    {
        ended(self.tokens.as_slice(), at as usize)
    }

    /// Where the token of a number stands, if there is one.
    pub fn span_at(&self, number: usize) -> Option<Span>
        ensures { result ≡ span_at self.now number }
    {
        let token = self.tokens.get(number)?;
        Some(token.span)
    }

    /// The text of the token of a number, if there is one.
    pub fn text_at(&self, number: usize) -> Option<&str>
        ensures { option_map (λ text. text.now) result ≡ text_at self.now number }
    {
        let token = self.tokens.get(number)?;
        Some(spelled(self.bytes, *token))
    }
}

/// The text of a token of these bytes.
fn spelled(bytes: &[u8], token: Token) -> &str
    requires { IsTokenIn bytes.now token }
    ensures { result.now ≡ spelled bytes.now token }
{
    str::from_utf8(&bytes[token.span.start as usize..token.span.end as usize]).unwrap()
}

/// The tokens of a text. There are none where it isn't UTF-8, or has a lexical fault.
fn tokens_in(alloc: Global, bytes: &[u8]) -> Result<Vec<Token>, AllocError>
    requires { length bytes.now ≤ MAX_LENGTH }
    ensures { IfOk result (λ list. AreTokensIn bytes.now list.items) }
{
    let source = match Source::new(alloc, bytes) {
        Ok(source) => source,
        Err(TextFault::NotUtf8 { .. }) => return Ok(Vec::new(alloc)),
        Err(TextFault::Memory) => return Err(AllocError),
    };
    match tokens(alloc, &source) {
        Ok(tokens) => Ok(tokens),
        Err(LexFault::Memory) => Err(AllocError),
        Err(_fault) => Ok(Vec::new(alloc)),
    }
}

/// How many tokens end at a position or before it.
fn ended(tokens: &[Token], at: usize) -> usize
    requires { IsNonDecreasingBy (λ token. token.span.end) tokens.now }
    ensures value { result ≡ ended tokens.now at }
    ensures within { result ≤ length tokens.now }
{
    tokens.partition_point(|token| token.span.end as usize <= at)
}

/// Where the token over a position ends, if there is one.
fn token_end(tokens: &[Token], at: usize) -> Option<usize>
    requires { IsNonDecreasingBy (λ token. token.span.end) tokens.now }
    ensures { result ≡ token_end tokens.now at }
{
    let token = tokens.get(ended(tokens, at))?;
    if token.span.start as usize <= at {
        Some(token.span.end as usize)
    } else {
        None
    }
}

/// How many bytes at the start of `bytes` go on with a character.
fn goes_on_len(bytes: &[u8]) -> usize
    ensures value { result ≡ prefix_len goes_on bytes.now }
    ensures within { result ≤ length bytes.now }
{
    bytes
        .iter()
        .take_while(|byte| **byte >= 128 && **byte < 192)
        .count()
}

/// Where the character at a position ends.
fn character_end(bytes: &[u8], at: usize) -> usize
    ensures { result ≡ character_end bytes.now at }
{
    if at < bytes.len() {
        at + 1 + goes_on_len(&bytes[at + 1..])
    } else {
        bytes.len()
    }
}
