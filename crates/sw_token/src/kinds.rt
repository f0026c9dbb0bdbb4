//! The kind of a token, from its text.
ghost use Rattle.std.specs.Prelude.{◌≡◌, ◌≤◌, position, bytes_eq};
ghost use Rattle.sw_token.specs.Bytes.{marks};
ghost use Rattle.sw_token.specs.Literals.{most, signed};
ghost use Rattle.sw_token.specs.Kinds.{kind_of, plain_kind, word_kind, key_words};
ghost use Rattle.sw_token.specs.Kinds.{mark_number, NumberFits};

use super::Kind;
use super::bytes::{is_mark, is_operator_byte};
use super::literals::{Literal, literal_of};
use super::numbers::number_of;
use super::operators::operator_number;

/// The words with a rule, and then those that are reserved; of these `nil` alone has a rule.
const KEY_WORDS: [&str; 59] = [
    "actor",
    "async",
    "await",
    "break",
    "case",
    "class",
    "continue",
    "default",
    "else",
    "enum",
    "false",
    "final",
    "func",
    "if",
    "in",
    "init",
    "let",
    "nonisolated",
    "return",
    "self",
    "sending",
    "static",
    "struct",
    "switch",
    "true",
    "var",
    "while",
    "Any",
    "as",
    "associatedtype",
    "catch",
    "defer",
    "deinit",
    "do",
    "extension",
    "fallthrough",
    "fileprivate",
    "for",
    "guard",
    "import",
    "inout",
    "internal",
    "is",
    "nil",
    "operator",
    "precedencegroup",
    "private",
    "protocol",
    "public",
    "repeat",
    "rethrows",
    "Self",
    "subscript",
    "super",
    "throw",
    "throws",
    "try",
    "typealias",
    "where",
];

/// All marks, in the order of their numbers.
const MARKS: [&str; 12] = ["(", ")", "{", "}", "[", "]", ",", ":", ";", ".", "?", "??"];

/// The kind of the token with this text.
#[tactic(auto, unfolding(crate::specs::Kinds::kind_of))]
pub fn kind_of(text: &[u8]) -> Kind
    requires { NumberFits text.now }
    ensures { result ≡ kind_of text.now }
{
    match literal_of(true, text) {
        Some(form) => Kind::Int(signed(form, form.number_in(&text[form.head_len()..]))),
        None => plain_kind(text),
    }
}

/// The kind of a token that is no literal.
fn plain_kind(text: &[u8]) -> Kind
    ensures { result ≡ plain_kind text.now }
{
    let Some(byte) = text.first().copied() else {
        return Kind::Word;
    };
    if is_operator_byte(byte) {
        Kind::Op(operator_number(text).unwrap_or(0))
    } else if is_mark(byte) {
        Kind::Mark(mark_number(text))
    } else if byte == b'@' {
        Kind::At
    } else {
        word_kind(text)
    }
}

/// The value of a literal whose digits spell a number.
fn signed(form: Literal, number: u64) -> i64
    requires { number ≤ most form }
    ensures { result ≡ signed form number }
{
    match form {
        Literal::Negative => (-i128::from(number)) as i64,
        Literal::Decimal | Literal::Binary | Literal::Octal | Literal::Hexadecimal => number as i64,
    }
}

#[tactic(auto, unfolding(crate::specs::Kinds::word_kind))]
fn word_kind(text: &[u8]) -> Kind
    ensures { result ≡ word_kind text.now }
{
    if text == b"_".as_slice() {
        return Kind::Underscore;
    }
    match key_number(text) {
        Some(number) => Kind::Key(number),
        None => Kind::Word,
    }
}

fn key_number(text: &[u8]) -> Option<u8>
    ensures { result ≡ position (λ word. bytes_eq word text.now) key_words }
{
    let words: [&str; 59] = KEY_WORDS;
    number_of(words.as_slice(), text)
}

#[tactic(auto, unfolding(crate::specs::Kinds::mark_number))]
fn mark_number(text: &[u8]) -> u8
    ensures { result ≡ mark_number text.now }
{
    mark_index(text).unwrap_or(0)
}

fn mark_index(text: &[u8]) -> Option<u8>
    ensures { result ≡ position (λ mark. bytes_eq mark text.now) marks }
{
    let marks: [&str; 12] = MARKS;
    number_of(marks.as_slice(), text)
}
