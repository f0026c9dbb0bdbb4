//! The words that name something, and attributes.

ghost use Rattle.std.specs.Prelude.{◌≡◌, ◌<◌, ◌&&◌, length, codes, IsTrue};
ghost use Rattle.sw_grammar_forms.specs.Outcome.{Gives};
ghost use Rattle.sw_grammar_forms.specs.Form.{a_word};
ghost use Rattle.sw_grammar_forms.specs.Reader.{checked, next};
ghost use Rattle.sw_grammar_forms.specs.Relations.{head, is_none_of};
ghost use Rattle.sw_grammar_forms.specs.Sets.{starts, word, quoted, attribute};
ghost use Rattle.sw_grammar.specs.Tokens.{plain_word, value_word, at_word, name_of, at_name};
ghost use Rattle.sw_grammar.specs.Tokens.{name_in, at_in};
ghost use Rattle.sw_grammar.specs.Words.{declared_as};
ghost use Rattle.sw_parse_parts.specs.Around.{known};
ghost use Rattle.sw_parse_parts.specs.Taking.{TakesAs};

use super::around::Around;
use std::marker::Model;
use sw_grammar_forms::{Cursor, Stop};
use sw_tree::Name;

/// A word that is declared, and its text.
#[derive(Drop)]
pub struct DeclaredWord<'a> {
    name: Name,
    text: &'a str,
}

impl<'a> Model for DeclaredWord<'a> {
    ghost use Rattle.sw_grammar.specs.Words.{DeclaredWord};

    ghost Value = { DeclaredWord };

    ghost view = { λ word. record { name = word.name; text = word.text.now } };
}

impl<'a> DeclaredWord<'a> {
    pub fn name(&self) -> Name
        ensures { result ≡ self.now.name }
    {
        self.name
    }

    pub fn text(&self) -> &'a str
        ensures { result.now ≡ self.now.text }
    {
        self.text
    }
}

/// Takes the next token as a name.
fn take_name(around: &Around<'_>, tokens: &mut Cursor<'_>) -> Name
    requires { 0 < length tokens.old }
    ensures { TakesAs (name_of (known around.now).id_of) tokens.old result tokens.new }
{
    let id = around.id_of(tokens.text());
    let at = tokens.take();
    Name { at, id }
}

/// Takes the next token, which is an attribute, as a name.
fn take_attribute(around: &Around<'_>, tokens: &mut Cursor<'_>) -> Name
    requires { IsTrue (starts attribute (head tokens.old)) }
    ensures { TakesAs (at_name (known around.now).id_of) tokens.old result tokens.new }
{
    let id = around.id_of(tokens.attribute());
    let at = tokens.take();
    Name { at, id }
}

/// Takes a word that names something.
pub fn word(around: &Around<'_>, tokens: &mut Cursor<'_>) -> Result<Name, Stop>
    ensures { Gives (next (name_in (known around.now) word (codes "print")) tokens.old) result
        tokens.new }
{
    if !tokens.sees_word() {
        return Err(tokens.stop());
    }
    Ok(take_name(around, tokens))
}

/// Whether the next token is a word that names something, and stands for no task.
fn sees_new_word(around: &Around<'_>, tokens: &Cursor<'_>) -> bool
    ensures { result ≡ (starts word (head tokens.now)
        && is_none_of around.now.here.tasks (head tokens.now)) }
{
    tokens.sees_word() && !around.is_task(tokens.text())
}

/// Takes a word that is declared.
pub fn new_name(around: &Around<'_>, tokens: &mut Cursor<'_>) -> Result<Name, Stop>
    ensures { Gives (checked (is_none_of around.now.here.tasks)
        (next (a_word (name_of (known around.now).id_of))) tokens.old) result tokens.new }
{
    if !sees_new_word(around, tokens) {
        return Err(tokens.stop());
    }
    Ok(take_name(around, tokens))
}

/// The same, with its text.
pub fn new_word<'a>(around: &Around<'_>, tokens: &mut Cursor<'a>) -> Result<DeclaredWord<'a>, Stop>
    ensures { Gives (checked (is_none_of around.now.here.tasks)
        (next (a_word (declared_as (known around.now)))) tokens.old) result tokens.new }
{
    if !sees_new_word(around, tokens) {
        return Err(tokens.stop());
    }
    let text = tokens.text();
    let name = take_name(around, tokens);
    Ok(DeclaredWord { name, text })
}

/// Whether the next token is a word that names a value: any that names something, but `Task`.
pub fn sees_value_word(tokens: &Cursor<'_>) -> bool
    ensures { result ≡ starts value_word (head tokens.now) }
{
    tokens.sees_word() && !tokens.sees("Task")
}

/// Takes a word that names a value.
pub fn value_word(around: &Around<'_>, tokens: &mut Cursor<'_>) -> Result<Name, Stop>
    ensures { Gives (next (name_in (known around.now) value_word (codes "print")) tokens.old) result
        tokens.new }
{
    if !sees_value_word(tokens) {
        return Err(tokens.stop());
    }
    Ok(take_name(around, tokens))
}

/// Whether the next token is a word that names a value, and isn't `Optional`.
pub fn sees_plain_word(tokens: &Cursor<'_>) -> bool
    ensures { result ≡ starts plain_word (head tokens.now) }
{
    sees_value_word(tokens) && !tokens.sees("Optional")
}

/// Takes a word that names a value, and isn't `Optional`.
pub fn plain_word(around: &Around<'_>, tokens: &mut Cursor<'_>) -> Result<Name, Stop>
    ensures { Gives (next (name_in (known around.now) plain_word (codes "print")) tokens.old) result
        tokens.new }
{
    if !sees_plain_word(tokens) {
        return Err(tokens.stop());
    }
    Ok(take_name(around, tokens))
}

/// Takes the word `Task`.
pub fn task_word(around: &Around<'_>, tokens: &mut Cursor<'_>) -> Result<Name, Stop>
    ensures { Gives (next (name_in (known around.now) (quoted (codes "Task")) (codes "Task"))
        tokens.old) result tokens.new }
{
    if !tokens.sees("Task") {
        return Err(tokens.stop());
    }
    Ok(take_name(around, tokens))
}

/// Whether the next token is an attribute other than `@concurrent`.
pub fn sees_attribute(tokens: &Cursor<'_>) -> bool
    ensures { result ≡ starts at_word (head tokens.now) }
{
    tokens.sees_attribute() && !tokens.sees("@concurrent")
}

/// Takes an attribute other than `@concurrent`.
pub fn attribute(around: &Around<'_>, tokens: &mut Cursor<'_>) -> Result<Name, Stop>
    ensures { Gives (next (at_in (known around.now) at_word (codes "@Sendable")) tokens.old) result
        tokens.new }
{
    if !sees_attribute(tokens) {
        return Err(tokens.stop());
    }
    Ok(take_attribute(around, tokens))
}

/// Takes the attribute `@Sendable`.
pub fn sendable(around: &Around<'_>, tokens: &mut Cursor<'_>) -> Result<Name, Stop>
    ensures { Gives (next (at_in (known around.now) (quoted (codes "@Sendable"))
        (codes "@Sendable")) tokens.old) result tokens.new }
{
    if !tokens.sees("@Sendable") {
        return Err(tokens.stop());
    }
    Ok(take_attribute(around, tokens))
}
