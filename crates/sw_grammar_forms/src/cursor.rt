//! The tokens of a source that are left to read, and the steps over one token.

ghost use Rattle.std.specs.Prelude.{◌≡◌, ◌+◌, ◌<◌, ◌^◌, length, map, drop, All, IsTrue, OnOk, IfOk};
ghost use Rattle.std.specs.List.{list_all, list_any};
ghost use Rattle.sw_token.specs.Spelling.{IsReadable, spelling_of};
ghost use Rattle.sw_grammar_forms.specs.Sets.{is_quoted, is_quoted_operator, quoted, standing, starts};
ghost use Rattle.sw_grammar_forms.specs.Sets.{one_of, standing_of, not_first, word, integer, attribute};
ghost use Rattle.sw_grammar_forms.specs.Quotes.{quote, quote_on_line, an_integer};
ghost use Rattle.sw_grammar_forms.specs.Relations.{head, is_first_on_line, may_start};
ghost use Rattle.sw_grammar_forms.specs.Reader.{next, opening, skipping, check, finish};
ghost use Rattle.sw_grammar_forms.specs.Outcome.{Gives, Takes, has_text, text_of, stands, names};
ghost use Rattle.sw_grammar_forms.specs.Outcome.{is_attribute, is_literal, literal};

use super::stop::Stop;
use std::marker::Model;
use sw_text::{Source, Span};
use sw_token::{Fixity, Kind, Token};

/// The tokens that are left. Contracts see the list of them with their texts.
///
/// A step that finds another token than it asks for, or the end, gives a `Stop` with the number of
/// tokens that were left then. After a stop its contract says nothing of what is left.
#[derive(Drop)]
pub struct Cursor<'a> {
    source: &'a Source,
    left: &'a [Token],
}

impl<'a> Model for Cursor<'a> {
    ghost use Rattle.std.specs.Prelude.{List, All};
    ghost use Rattle.std.specs.Coded.{coded_list};
    ghost use Rattle.sw_token.specs.Spelling.{Spelled, spelling_of, IsReadable, coded_spelled};

    ghost Value = { List Spelled };

    ghost coded = { coded_list coded_spelled };

    ghost view = { λ cursor. spelling_of cursor.source.now cursor.left.now };

    ghost invariant = { λ cursor. All (IsReadable cursor.source.now) cursor.left.now };
}

impl<'a> Cursor<'a> {
    /// These tokens, with their texts in the source.
    pub fn new(source: &'a Source, tokens: &'a [Token]) -> Cursor<'a>
        requires { All (IsReadable source.now) tokens.now }
        ensures { result ≡ spelling_of source.now tokens.now }
    {
        Cursor {
            source,
            left: tokens,
        }
    }

    /// Whether the next token has this text, which is one that grammars quote.
    pub fn sees(&self, text: &str) -> bool
        requires { IsTrue (is_quoted text.now) }
        ensures { result ≡ starts (quoted text.now) (head self.now) }
    {
        self.has_text(text)
    }

    /// Whether the next token has this text.
    fn has_text(&self, text: &str) -> bool
        ensures { result ≡ has_text text.now (head self.now) }
    {
        match self.left {
            [] => false,
            [token, ..] => self.source.slice(token.span) == text,
        }
    }

    /// Whether the next token has one of these texts.
    fn has_text_of(&self, texts: &[&str]) -> bool
        ensures { result ≡ list_any (λ text. has_text text.now (head self.now)) texts.now }
    {
        texts.iter().any(|text| self.has_text(text))
    }

    /// Whether the next token has one of these texts, which are some that grammars quote.
    pub fn sees_one_of(&self, texts: &[&str]) -> bool
        requires { IsTrue (list_all is_quoted (map (λ text. text.now) texts.now)) }
        ensures { result ≡ starts (one_of (map (λ text. text.now) texts.now)) (head self.now) }
    {
        self.has_text_of(texts)
    }

    /// Whether the next token has this text and isn't the first on its line.
    pub fn sees_on_line(&self, text: &str) -> bool
        requires { IsTrue (is_quoted text.now) }
        ensures { result ≡ starts (not_first (quoted text.now)) (head self.now) }
    {
        if self.begins_line() {
            return false;
        }
        self.sees(text)
    }

    /// Whether the next token stands so among its neighbours.
    fn stands(&self, fixity: Fixity) -> bool
        ensures { result ≡ stands fixity (head self.now) }
    {
        match self.left {
            [] => false,
            [token, ..] => token.fixity == fixity,
        }
    }

    /// Whether the next token is the operator with this text and stands so among its neighbours.
    pub fn sees_operator(&self, text: &str, fixity: Fixity) -> bool
        requires { IsTrue (is_quoted_operator text.now) }
        ensures { result ≡ starts (standing fixity text.now) (head self.now) }
    {
        self.stands(fixity) && self.has_text(text)
    }

    /// Whether the next token is an operator with one of these texts and stands so.
    pub fn sees_operator_of(&self, texts: &[&str], fixity: Fixity) -> bool
        requires { IsTrue (list_all is_quoted_operator (map (λ text. text.now) texts.now)) }
        ensures { result
            ≡ starts (standing_of fixity (map (λ text. text.now) texts.now)) (head self.now) }
    {
        self.stands(fixity) && self.has_text_of(texts)
    }

    /// Whether the next token is the first on its line.
    pub fn begins_line(&self) -> bool
        ensures { result ≡ is_first_on_line (head self.now) }
    {
        match self.left {
            [] => false,
            [token, ..] => token.first,
        }
    }

    /// Whether the next token is a word that names something.
    pub fn sees_word(&self) -> bool
        ensures { result ≡ starts word (head self.now) }
    {
        self.is_name()
    }

    fn is_name(&self) -> bool
        ensures { result ≡ names (head self.now) }
    {
        match self.left {
            [] => false,
            [token, ..] => matches!(token.kind, Kind::Word),
        }
    }

    /// Whether the next token is an integer literal.
    pub fn sees_integer(&self) -> bool
        ensures { result ≡ starts integer (head self.now) }
    {
        self.is_literal()
    }

    fn is_literal(&self) -> bool
        ensures { result ≡ is_literal (head self.now) }
    {
        match self.left {
            [] => false,
            [token, ..] => matches!(token.kind, Kind::Int(_)),
        }
    }

    /// Whether the next token is an `@` with a word.
    pub fn sees_attribute(&self) -> bool
        ensures { result ≡ starts attribute (head self.now) }
    {
        self.is_attribute()
    }

    fn is_attribute(&self) -> bool
        ensures { result ≡ is_attribute (head self.now) }
    {
        match self.left {
            [] => false,
            [token, ..] => matches!(token.kind, Kind::At),
        }
    }

    /// The value of the next token, where it is an integer literal.
    fn literal(&self) -> Option<i64>
        ensures { result ≡ literal (head self.now) }
    {
        match self.left {
            [] => None,
            [token, ..] => match token.kind {
                Kind::Int(value) => Some(value),
                Kind::Word
                | Kind::Underscore
                | Kind::Key(_)
                | Kind::At
                | Kind::Op(_)
                | Kind::Mark(_) => None,
            },
        }
    }

    /// The text of the next token; there has to be one.
    pub fn text(&self) -> &'a str
        requires { 0 < length self.now }
        ensures { result.now ≡ text_of (head self.now) }
    {
        self.source.slice(self.left[0].span)
    }

    /// The word after the `@` of the next token, which has to be an attribute.
    pub fn attribute(&self) -> &'a str
        requires { IsTrue (starts attribute (head self.now)) }
        ensures { result.now ≡ drop 1 (text_of (head self.now)) }
    {
        &self.text()[1..]
    }

    /// Takes the next token, of which there has to be one, and gives its position.
    pub fn take(&mut self) -> u32
        requires { 0 < length self.old }
        ensures { Takes self.old result self.new }
    {
        let at = self.left[0].span.start;
        self.left = &self.left[1..];
        at
    }

    /// The same, with where the token ends: positions inside it don't wrap.
    fn take_whole(&mut self) -> u32
        requires { 0 < length self.old }
        ensures taken { Takes self.old result self.new }
        ensures whole { result + length (text_of (head self.old)) < 2 ^ 32 }
    {
        let at = start(self.left[0].span);
        self.left = &self.left[1..];
        at
    }

    /// The number of tokens that are left.
    pub fn count(&self) -> usize
        ensures { result ≡ length self.now }
    {
        self.left.len()
    }

    /// The refusal of the next token, or of the end where none is left.
    pub fn stop(&self) -> Stop
        ensures { result ≡ Stop.Unexpected (length self.now) }
    {
        Stop::Unexpected { left: self.count() }
    }

    /// The refusal of the next token as one that opens a nest too many.
    fn too_deep(&self) -> Stop
        ensures { result ≡ Stop.TooDeep (length self.now) }
    {
        Stop::TooDeep { left: self.count() }
    }

    /// Takes the token with this text, and gives its position.
    pub fn expect(&mut self, text: &str) -> Result<u32, Stop>
        requires { IsTrue (is_quoted text.now) }
        ensures { Gives (next (quote text.now) self.old) result self.new }
    {
        if !self.sees(text) {
            return Err(self.stop());
        }
        Ok(self.take())
    }

    /// The same, where a position inside the token is computed from its own: none of them wraps.
    pub fn expect_whole(&mut self, text: &str) -> Result<u32, Stop>
        requires { IsTrue (is_quoted text.now) }
        ensures taken { Gives (next (quote text.now) self.old) result self.new }
        ensures whole { IfOk result (λ at. at + length text.now < 2 ^ 32) }
    {
        if !self.sees(text) {
            return Err(self.stop());
        }
        Ok(self.take_whole())
    }

    /// Takes the token with this text, which opens a nest, where `depth` more may be opened, and
    /// gives its position. Another token can't be taken, whatever the depth; with a depth of 0 this
    /// one is too deep.
    pub fn open(&mut self, text: &str, depth: u32) -> Result<u32, Stop>
        requires { IsTrue (is_quoted text.now) }
        ensures opened { Gives (opening depth (quote text.now) self.old) result self.new }
        ensures room { OnOk result (0 < depth) }
    {
        if !self.sees(text) {
            return Err(self.stop());
        }
        if depth == 0 {
            return Err(self.too_deep());
        }
        Ok(self.take())
    }

    /// The same of a token that may not be the first on its line.
    pub fn open_on_line(&mut self, text: &str, depth: u32) -> Result<u32, Stop>
        requires { IsTrue (is_quoted text.now) }
        ensures opened { Gives (opening depth (quote_on_line text.now) self.old) result self.new }
        ensures room { OnOk result (0 < depth) }
    {
        if self.begins_line() {
            return Err(self.stop());
        }
        self.open(text, depth)
    }

    /// Takes an integer literal, and gives its position and its value.
    pub fn integer(&mut self) -> Result<(u32, i64), Stop>
        ensures { Gives (next an_integer self.old) result self.new }
    {
        let Some(value) = self.literal() else {
            return Err(self.stop());
        };
        Ok((self.take(), value))
    }

    /// Takes the token with this text where it is next, and says whether it was.
    pub fn skip(&mut self, text: &str) -> bool
        requires { IsTrue (is_quoted text.now) }
        ensures { skipping text.now self.old ≡ Ok (result, self.new) }
    {
        let found = self.sees(text);
        if found {
            self.take();
        }
        found
    }

    /// Refuses the next token where it is asked to begin a line and doesn't.
    pub fn start(&self, asked: bool) -> Result<(), Stop>
        ensures { Gives (check (may_start asked) self.now) result self.now }
    {
        if !asked || self.begins_line() {
            return Ok(());
        }
        Err(self.stop())
    }

    /// Refuses a token that is left.
    pub fn finish(&self) -> Result<(), Stop>
        ensures { Gives (finish self.now) result self.now }
    {
        if self.left.is_empty() {
            return Ok(());
        }
        Err(self.stop())
    }
}

/// Where a span starts. It ends at a number of 32 bits, too.
fn start(span: Span) -> u32
    ensures start { result ≡ span.start }
    ensures end { span.end < 2 ^ 32 }
{
    span.start
}
