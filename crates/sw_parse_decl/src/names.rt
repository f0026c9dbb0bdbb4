//! The names of a program. They are interned before its tree is read: those of its tokens, and
//! those that rules make of words.

ghost use Rattle.std.specs.Prelude.{◌≡◌, ◌+◌, ◌*◌, ◌<◌, [], length, drop, IfOk, OnOk, OnErr};
ghost use Rattle.sw_tree.specs.Names.{with_text, with_texts};
ghost use Rattle.sw_sugar.specs.Calls.{declared_texts};
ghost use Rattle.sw_grammar.specs.Tokens.{optional_text};
ghost use Rattle.sw_grammar_forms.specs.Outcome.{text_of};
ghost use Rattle.sw_grammar_forms.specs.Relations.{head};
ghost use Rattle.sw_grammar_facts.specs.Interned.{is_binding, made_texts, next_texts, texts_in};
ghost use Rattle.sw_parse_decl.specs.Texts.{ArePartlyInterned};
ghost use Rattle.sw_parse_decl.specs.Programs.{texts_of};

use std::alloc::{AllocError, Global};
use sw_grammar_forms::Cursor;
use sw_parse_parts::sees_binding;
use sw_sugar::{part_text, whole_text};
use sw_tree::Names;

/// Interns the text of the optional of a word.
fn intern_optional(alloc: Global, names: &mut Names, text: &str) -> Result<(), AllocError>
    requires { length names.old < 4294967295 }
    ensures texts { OnOk result (names.new ≡ with_text names.old (optional_text text.now)) }
    ensures err { OnErr result (names.new ≡ names.old) }
{
    let optional = part_text(alloc, text)?;
    names.intern(optional.as_str())?;
    Ok(())
}

/// Interns the texts by which a variable with this text gets its value from an optional.
fn intern_declared(alloc: Global, names: &mut Names, text: &str) -> Result<(), AllocError>
    requires { length names.old < 4294967294 }
    ensures texts { OnOk result (names.new ≡ with_texts names.old (declared_texts text.now)) }
    ensures err { OnErr result (ArePartlyInterned names.old (declared_texts text.now) names.new) }
{
    let part = part_text(alloc, text)?;
    names.intern(part.as_str())?;
    let whole = whole_text(alloc, text)?;
    names.intern(whole.as_str())?;
    Ok(())
}

/// Interns the texts that rules may make of a word before these tokens. `bound` says whether it is the
/// word of a variable.
fn intern_made(
    alloc: Global,
    names: &mut Names,
    text: &str,
    bound: bool,
    tokens: &Cursor<'_>,
) -> Result<(), AllocError>
    requires { length names.old < 4294967294 }
    ensures texts { OnOk result
        (names.new ≡ with_texts names.old (made_texts bound text.now tokens.now)) }
    ensures err { OnErr result
        (ArePartlyInterned names.old (made_texts bound text.now tokens.now) names.new) }
{
    if tokens.sees("?") {
        return intern_optional(alloc, names, text);
    }
    if !bound {
        return Ok(());
    }
    if tokens.sees(":") {
        return intern_declared(alloc, names, text);
    }
    Ok(())
}

/// Takes the next token and interns the texts that it gives, and says whether the word of a variable
/// comes after it. `bound` says the same of the token before it.
fn intern_next(
    alloc: Global,
    names: &mut Names,
    bound: bool,
    tokens: &mut Cursor<'_>,
) -> Result<bool, AllocError>
    requires some { 0 < length tokens.old }
    requires room { length names.old < 4294967293 }
    ensures texts { OnOk result (names.new ≡ with_texts names.old (next_texts bound tokens.old)) }
    ensures left { OnOk result (tokens.new ≡ drop 1 tokens.old) }
    ensures binds { IfOk result (λ binds. binds ≡ is_binding (text_of (head tokens.old))) }
    ensures err { OnErr result (ArePartlyInterned names.old (next_texts bound tokens.old) names.new) }
{
    if tokens.sees_word() {
        let text = tokens.text();
        names.intern(text)?;
        tokens.take();
        intern_made(alloc, names, text, bound, tokens)?;
        return Ok(false);
    }
    if tokens.sees_attribute() {
        names.intern(tokens.attribute())?;
        tokens.take();
        return Ok(false);
    }
    let binds = sees_binding(tokens);
    tokens.take();
    Ok(binds)
}

/// Takes all tokens and interns the texts of all names that a tree of them may have. Where memory
/// runs out, the first of these texts are interned.
pub fn intern_names(
    alloc: Global,
    names: &mut Names,
    tokens: &mut Cursor<'_>,
) -> Result<(), AllocError>
    requires { length names.old + 3 * length tokens.old < 4294967290 }
    ensures texts { OnOk result (names.new ≡ with_texts names.old (texts_in tokens.old)) }
    ensures left { OnOk result (tokens.new ≡ []) }
    ensures err { OnErr result (ArePartlyInterned names.old (texts_in tokens.old) names.new) }
{
    names.intern("none")?;
    names.intern("some")?;
    let mut bound = false;
    while tokens.count() > 0 {
        bound = intern_next(alloc, names, bound, tokens)?;
    }
    Ok(())
}

/// The names of a program of these tokens.
pub fn names_of(alloc: Global, tokens: &mut Cursor<'_>) -> Result<Names, AllocError>
    requires { 3 * length tokens.old < 4294967000 }
    ensures { IfOk result (λ names. names ≡ texts_of tokens.old) }
{
    let mut names = Names::new(alloc)?;
    intern_names(alloc, &mut names, tokens)?;
    Ok(names)
}
