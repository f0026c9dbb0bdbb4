//! Calls: their arguments, and what is called by a word.

ghost use Rattle.std.specs.Prelude.{[], ◌∷◌, codes};
ghost use Rattle.sw_grammar_forms.specs.Outcome.{Gives};
ghost use Rattle.sw_grammar_forms.specs.Quotes.{quote_on_line};
ghost use Rattle.sw_grammar.specs.Exprs as exprs;
ghost use Rattle.sw_grammar.specs.Types.{more_of};
ghost use Rattle.sw_grammar.specs.Nests.Nest.{in_args};
ghost use Rattle.sw_grammar.specs.Reading.{read};
ghost use Rattle.sw_parse_parts.specs.Around.{known};
ghost use Rattle.sw_parse_parts.specs.Nested.{made, nested};
ghost use Rattle.sw_parse_expr.specs.Below.{Below};
ghost use Rattle.sw_parse_expr.specs.Parts.{word_arg, task_arg, with_member, one_member};

use super::chains::{expr, more_operands, other_expr};
use super::inner::Inner;
use super::operands::after_task;
use std::alloc::Global;
use sw_grammar_forms::{Cursor, Stop};
use sw_list::{Boxed, ListOf};
use sw_parse_parts::{Around, sees_value_word, task_word, value_word, word};
use sw_tree::{Arg, ArgList, Expr, Name};

/// The arguments of a call, where a `(` comes that isn't the first on its line.
#[tactic(auto, unfolding(sw_grammar::specs::Exprs::call))]
fn call<I: Inner>(
    alloc: Global,
    inner: &I,
    around: &Around<'_>,
    tokens: &mut Cursor<'_>,
    depth: u32,
) -> Result<Option<ArgList>, Stop>
    requires { Below I.reads inner.now depth }
    ensures { Gives (read (known around.now) depth (exprs.call (known around.now)) tokens.old)
        result
        tokens.new }
{
    if !tokens.sees_on_line("(") {
        return Ok(None);
    }
    Ok(Some(round_args(alloc, inner, around, tokens, depth)?))
}

/// The arguments in `(` and `)`.
fn round_args<I: Inner>(
    alloc: Global,
    inner: &I,
    around: &Around<'_>,
    tokens: &mut Cursor<'_>,
    depth: u32,
) -> Result<ArgList, Stop>
    requires { Below I.reads inner.now depth }
    ensures { Gives (nested (known around.now) depth (quote_on_line (codes "("))
        (in_args (known around.now).here) tokens.old)
        result tokens.new }
{
    tokens.open_on_line("(", depth)?;
    args_inside(alloc, inner, around, tokens, depth - 1)
}

/// Arguments up to their `)`.
#[tactic(auto, unfolding(sw_grammar::specs::Exprs::args))]
fn args_inside<I: Inner>(
    alloc: Global,
    inner: &I,
    around: &Around<'_>,
    tokens: &mut Cursor<'_>,
    depth: u32,
) -> Result<ArgList, Stop>
    requires { I.reads inner.now depth }
    ensures { Gives (read (known around.now) depth (exprs.args (known around.now)) tokens.old)
        result
        tokens.new }
{
    if tokens.sees(")") {
        tokens.expect(")")?;
        return Ok(ListOf::new(alloc));
    }
    let first = inner.arg(alloc, around, tokens, depth)?;
    let args = more_args(alloc, inner, around, tokens, depth, first)?;
    tokens.expect(")")?;
    Ok(args)
}

/// The arguments after the first, each with a `,` before it.
fn more_args<I: Inner>(
    alloc: Global,
    inner: &I,
    around: &Around<'_>,
    tokens: &mut Cursor<'_>,
    depth: u32,
    first: Arg,
) -> Result<ArgList, Stop>
    requires { I.reads inner.now depth }
    ensures { Gives (read (known around.now) depth (more_of (known around.now) (first ∷ [])
        (exprs.arg (known around.now))) tokens.old) result tokens.new }
{
    let mut args = Vec::new(alloc);
    args.push(first)?;
    while tokens.skip(",") {
        args.push(inner.arg(alloc, around, tokens, depth)?)?;
    }
    Ok(ListOf::from_vec(args))
}

/// A word that was read, with the arguments and the members after it. The `(` of arguments isn't
/// the first on its line.
#[tactic(auto, unfolding(sw_grammar::specs::Exprs::after_word, sw_grammar::specs::Exprs::after_operand))]
pub fn after_word<I: Inner>(
    alloc: Global,
    inner: &I,
    around: &Around<'_>,
    tokens: &mut Cursor<'_>,
    depth: u32,
    name: Name,
) -> Result<Expr, Stop>
    requires { Below I.reads inner.now depth }
    ensures { Gives (read (known around.now) depth (exprs.after_word (known around.now) name)
        tokens.old) result tokens.new }
{
    match call(alloc, inner, around, tokens, depth)? {
        Some(args) => {
            let base = Expr::Call { name, args };
            after_operand(alloc, inner, around, tokens, depth, base)
        }
        None => after_operand(alloc, inner, around, tokens, depth, Expr::Use { name }),
    }
}

/// An expression that was read, with the members after it. Each `.` opens a nest inside the one
/// before it.
#[tactic(auto, unfolding(sw_grammar::specs::Exprs::after_operand))]
pub fn after_operand<I: Inner>(
    alloc: Global,
    inner: &I,
    around: &Around<'_>,
    tokens: &mut Cursor<'_>,
    depth: u32,
    base: Expr,
) -> Result<Expr, Stop>
    requires { Below I.reads inner.now depth }
    ensures { Gives (read (known around.now) depth (exprs.after_operand (known around.now) base)
        tokens.old) result tokens.new }
{
    let mut room = depth;
    let mut whole = base;
    while tokens.sees(".") {
        tokens.open(".", room)?;
        room -= 1;
        whole = member(alloc, inner, around, tokens, room, whole)?;
    }
    Ok(whole)
}

/// An argument of a call, with its label where it has one.
#[tactic(auto, unfolding(sw_grammar::specs::Exprs::arg))]
pub fn arg<I: Inner>(
    alloc: Global,
    inner: &I,
    around: &Around<'_>,
    tokens: &mut Cursor<'_>,
    depth: u32,
) -> Result<Arg, Stop>
    requires { Below I.reads inner.now depth }
    ensures { Gives (read (known around.now) depth (exprs.arg (known around.now)) tokens.old) result
        tokens.new }
{
    if sees_value_word(tokens) {
        let name = value_word(around, tokens)?;
        return word_arg(alloc, inner, around, tokens, depth, name);
    }
    if tokens.sees("Task") {
        let name = task_word(around, tokens)?;
        return task_arg(alloc, inner, around, tokens, depth, name);
    }
    let value = other_expr(alloc, inner, around, tokens, depth)?;
    Ok(Arg { label: None, value })
}

/// The value after a label.
#[tactic(auto, unfolding(sw_grammar::specs::Exprs::labelled))]
fn labelled<I: Inner>(
    alloc: Global,
    inner: &I,
    around: &Around<'_>,
    tokens: &mut Cursor<'_>,
    depth: u32,
    label: Name,
) -> Result<Arg, Stop>
    requires { Below I.reads inner.now depth }
    ensures { Gives (read (known around.now) depth (exprs.labelled (known around.now) label)
        tokens.old) result tokens.new }
{
    tokens.expect(":")?;
    let value = expr(alloc, inner, around, tokens, depth, true)?;
    Ok(Arg {
        label: Some(label),
        value,
    })
}

/// An argument after the word that begins it.
fn word_arg<I: Inner>(
    alloc: Global,
    inner: &I,
    around: &Around<'_>,
    tokens: &mut Cursor<'_>,
    depth: u32,
    name: Name,
) -> Result<Arg, Stop>
    requires { Below I.reads inner.now depth }
    ensures { Gives (read (known around.now) depth (word_arg (known around.now) name) tokens.old)
        result tokens.new }
{
    if tokens.sees(":") {
        return labelled(alloc, inner, around, tokens, depth, name);
    }
    let first = after_word(alloc, inner, around, tokens, depth, name)?;
    let value = more_operands(alloc, inner, around, tokens, depth, true, first)?;
    Ok(Arg { label: None, value })
}

/// An argument after the `Task` that begins it.
fn task_arg<I: Inner>(
    alloc: Global,
    inner: &I,
    around: &Around<'_>,
    tokens: &mut Cursor<'_>,
    depth: u32,
    name: Name,
) -> Result<Arg, Stop>
    requires { Below I.reads inner.now depth }
    ensures { Gives (read (known around.now) depth (task_arg (known around.now) name) tokens.old)
        result tokens.new }
{
    if tokens.sees(":") {
        return labelled(alloc, inner, around, tokens, depth, name);
    }
    let base = after_task(alloc, inner, around, tokens, depth, true, name.at)?;
    let first = after_operand(alloc, inner, around, tokens, depth, base)?;
    let value = more_operands(alloc, inner, around, tokens, depth, true, first)?;
    Ok(Arg { label: None, value })
}

/// A member of an expression, after its `.`: a word and its arguments.
fn member<I: Inner>(
    alloc: Global,
    inner: &I,
    around: &Around<'_>,
    tokens: &mut Cursor<'_>,
    depth: u32,
    base: Expr,
) -> Result<Expr, Stop>
    requires { Below I.reads inner.now depth }
    ensures { Gives (made (with_member base) (one_member (known around.now) depth) tokens.old)
        result
        tokens.new }
{
    let name = word(around, tokens)?;
    match call(alloc, inner, around, tokens, depth)? {
        Some(args) => Ok(Expr::Method {
            base: Boxed::new(alloc, base)?,
            name,
            args,
        }),
        None => Ok(Expr::Member {
            base: Boxed::new(alloc, base)?,
            name,
        }),
    }
}
