//! Values in places where they may be optionals: `nil`, `Optional(value)`, and each expression.

ghost use Rattle.std.specs.Prelude.{◌≡◌, ◌<◌, option_map, IfOk};
ghost use Rattle.sw_grammar_forms.specs.Outcome.{Gives};
ghost use Rattle.sw_grammar.specs.Values as values;
ghost use Rattle.sw_grammar.specs.Reading.{read};
ghost use Rattle.sw_parse_parts.specs.Around.{known};
ghost use Rattle.sw_parse_expr.specs.Below.{Below};
ghost use Rattle.sw_parse_expr.specs.Values.{word_value, task_value, use_value};

use super::calls::{after_operand, after_word};
use super::chains::{expr, more_operands, other_expr};
use super::inner::Inner;
use super::operands::{after_task, bracketed};
use std::alloc::{AllocError, Global};
use std::marker::Model;
use sw_grammar_forms::{Cursor, Stop};
use sw_parse_parts::{Around, equals, plain_word, sees_plain_word};
use sw_sugar::{none_tree, some_tree};
use sw_tree::{Expr, Name};

/// A value, and whether it is an expression as any other.
#[derive(Drop)]
pub struct Given {
    value: Expr,
    is_plain: bool,
}

impl Model for Given {
    ghost use Rattle.sw_tree.specs.contracts.expr.Expr as expr;
    ghost use Rattle.sw_grammar.specs.Values.{Given};
    ghost use Rattle.sw_parse_expr.specs.Values.{given_code};

    ghost Value = { Given };

    ghost coded = { given_code expr.the_row.coded };

    ghost view = { λ given. record { value = given.value; is_plain = given.is_plain } };
}

impl Given {
    pub fn value(self) -> Expr
        ensures { result ≡ self.value }
    {
        self.value
    }

    /// Whether it is an expression as any other, so neither `nil` nor made by `Optional`.
    pub fn is_plain(&self) -> bool
        ensures { result ≡ self.now.is_plain }
    {
        self.is_plain
    }
}

/// A value that is an expression as any other.
fn plain(value: Expr) -> Given
    ensures { result ≡ values.plain value }
{
    Given {
        value,
        is_plain: true,
    }
}

/// `nil` at a position, of the optional of a word.
fn no_value(alloc: Global, around: &Around<'_>, wanted: &str, at: u32) -> Result<Given, AllocError>
    requires { at < 4294967295 }
    ensures { IfOk result (λ given. given
        ≡ values.made (values.no_value (known around.now) wanted.now at)) }
{
    let of = around.part_id(alloc, wanted)?;
    Ok(Given {
        value: none_tree(alloc, around.id_of("none"), of, at)?,
        is_plain: false,
    })
}

/// `Optional(value)` at a position, of the optional of a word.
fn some_value(
    alloc: Global,
    around: &Around<'_>,
    wanted: &str,
    at: u32,
    value: Expr,
) -> Result<Given, AllocError>
    requires { at < 4294967295 }
    ensures { IfOk result (λ given. given
        ≡ values.made (values.some_value (known around.now) wanted.now at value)) }
{
    let of = around.part_id(alloc, wanted)?;
    Ok(Given {
        value: some_tree(alloc, around.id_of("some"), of, at, value)?,
        is_plain: false,
    })
}

/// A value that begins with a word.
fn word_value<I: Inner>(
    alloc: Global,
    inner: &I,
    around: &Around<'_>,
    tokens: &mut Cursor<'_>,
    depth: u32,
) -> Result<Given, Stop>
    requires { Below I.reads inner.now depth }
    ensures { Gives (read (known around.now) depth (word_value (known around.now)) tokens.old)
        result tokens.new }
{
    let name = plain_word(around, tokens)?;
    let first = after_word(alloc, inner, around, tokens, depth, name)?;
    let whole = more_operands(alloc, inner, around, tokens, depth, true, first)?;
    Ok(plain(whole))
}

/// A value that begins with `Task`.
fn task_value<I: Inner>(
    alloc: Global,
    inner: &I,
    around: &Around<'_>,
    tokens: &mut Cursor<'_>,
    depth: u32,
) -> Result<Given, Stop>
    requires { Below I.reads inner.now depth }
    ensures { Gives (read (known around.now) depth (task_value (known around.now)) tokens.old)
        result tokens.new }
{
    let at = tokens.expect("Task")?;
    let base = after_task(alloc, inner, around, tokens, depth, true, at)?;
    let first = after_operand(alloc, inner, around, tokens, depth, base)?;
    let whole = more_operands(alloc, inner, around, tokens, depth, true, first)?;
    Ok(plain(whole))
}

/// What comes after an `Optional` at this position, where it is a word as any other.
fn use_value<I: Inner>(
    alloc: Global,
    inner: &I,
    around: &Around<'_>,
    tokens: &mut Cursor<'_>,
    depth: u32,
    at: u32,
) -> Result<Given, Stop>
    requires { Below I.reads inner.now depth }
    ensures { Gives (read (known around.now) depth (use_value (known around.now) at) tokens.old)
        result tokens.new }
{
    let name = Name {
        at,
        id: around.id_of("Optional"),
    };
    let first = after_operand(alloc, inner, around, tokens, depth, Expr::Use { name })?;
    let whole = more_operands(alloc, inner, around, tokens, depth, true, first)?;
    Ok(plain(whole))
}

/// What comes after an `Optional` at this position. A `(` may stand on any line.
fn after_optional<I: Inner>(
    alloc: Global,
    inner: &I,
    around: &Around<'_>,
    tokens: &mut Cursor<'_>,
    depth: u32,
    wanted: &str,
    at: u32,
) -> Result<Given, Stop>
    requires below { Below I.reads inner.now depth }
    requires room { at < 4294967295 }
    ensures { Gives (read (known around.now) depth
        (values.after_optional (known around.now) wanted.now at) tokens.old) result tokens.new }
{
    if tokens.sees("(") {
        let value = bracketed(alloc, inner, around, tokens, depth)?;
        return Ok(some_value(alloc, around, wanted, at, value)?);
    }
    use_value(alloc, inner, around, tokens, depth, at)
}

/// A value where an optional of a word is wanted.
#[tactic(auto, unfolding(sw_grammar::specs::Values::optional_value))]
fn optional_value<I: Inner>(
    alloc: Global,
    inner: &I,
    around: &Around<'_>,
    tokens: &mut Cursor<'_>,
    depth: u32,
    wanted: &str,
) -> Result<Given, Stop>
    requires { Below I.reads inner.now depth }
    ensures { Gives (read (known around.now) depth
        (values.optional_value (known around.now) wanted.now) tokens.old) result tokens.new }
{
    if tokens.sees("nil") {
        let at = tokens.expect_whole("nil")?;
        return Ok(no_value(alloc, around, wanted, at)?);
    }
    if tokens.sees("Optional") {
        let at = tokens.expect_whole("Optional")?;
        return after_optional(alloc, inner, around, tokens, depth, wanted, at);
    }
    if sees_plain_word(tokens) {
        return word_value(alloc, inner, around, tokens, depth);
    }
    if tokens.sees("Task") {
        return task_value(alloc, inner, around, tokens, depth);
    }
    Ok(plain(other_expr(alloc, inner, around, tokens, depth)?))
}

/// A value; where the word `wanted` is there, it may be an optional of it.
#[tactic(auto, unfolding(sw_grammar::specs::Values::value_in))]
pub fn value_in<I: Inner>(
    alloc: Global,
    inner: &I,
    around: &Around<'_>,
    tokens: &mut Cursor<'_>,
    depth: u32,
    wanted: Option<&str>,
) -> Result<Given, Stop>
    requires { Below I.reads inner.now depth }
    ensures { Gives (read (known around.now) depth (values.value_in (known around.now)
        (option_map (λ text. text.now) wanted.entry)) tokens.old) result tokens.new }
{
    match wanted {
        Some(word) => optional_value(alloc, inner, around, tokens, depth, word),
        None => Ok(plain(expr(alloc, inner, around, tokens, depth, true)?)),
    }
}

/// `=` and a value; where the word `wanted` is there, it may be an optional of it.
#[tactic(auto, unfolding(sw_grammar::specs::Values::value_for))]
pub fn value_for<I: Inner>(
    alloc: Global,
    inner: &I,
    around: &Around<'_>,
    tokens: &mut Cursor<'_>,
    depth: u32,
    wanted: Option<&str>,
) -> Result<Given, Stop>
    requires { Below I.reads inner.now depth }
    ensures { Gives (read (known around.now) depth (values.value_for (known around.now)
        (option_map (λ text. text.now) wanted.entry)) tokens.old) result tokens.new }
{
    equals(tokens)?;
    value_in(alloc, inner, around, tokens, depth, wanted)
}
