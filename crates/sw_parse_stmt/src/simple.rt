//! Statements but variables and those with blocks: assignments, returns and expressions.

ghost use Rattle.sw_grammar_forms.specs.Outcome.{Gives};
ghost use Rattle.sw_grammar.specs.Stmts as stmts;
ghost use Rattle.sw_grammar.specs.Reading.{read};
ghost use Rattle.sw_parse_parts.specs.Around.{known};
ghost use Rattle.sw_parse_expr.specs.Below.{Below};
ghost use Rattle.sw_parse_stmt.specs.Parts.{plain_operand};

use super::blocks::value;
use std::alloc::Global;
use sw_grammar_forms::{Cursor, Stop};
use sw_parse_expr::{
    Inner, after_operand, after_task, after_word, awaited, expr, more_operands, negated, value_in,
};
use sw_parse_parts::{
    Around, a_literal, assign_op, sees_assign, sees_prefix, sees_value_on_line, value_word,
};
use sw_tree::{Expr, Stmt};

/// A value that is dropped: `_ = value`.
#[tactic(auto, unfolding(sw_grammar::specs::Stmts::discard))]
pub fn discard<I: Inner>(
    alloc: Global,
    inner: &I,
    around: &Around<'_>,
    tokens: &mut Cursor<'_>,
    depth: u32,
) -> Result<Stmt, Stop>
    requires { Below I.reads inner.now depth }
    ensures { Gives (read (known around.now) depth (stmts.discard (known around.now)) tokens.old)
        result tokens.new }
{
    let at = tokens.expect("_")?;
    let value = value(alloc, inner, around, tokens, depth)?;
    Ok(Stmt::Discard { at, value })
}

/// What comes after the beginning of a place or an expression.
#[tactic(auto, unfolding(sw_grammar::specs::Stmts::after_place))]
fn after_place<I: Inner>(
    alloc: Global,
    inner: &I,
    around: &Around<'_>,
    tokens: &mut Cursor<'_>,
    depth: u32,
    first: Expr,
) -> Result<Stmt, Stop>
    requires { Below I.reads inner.now depth }
    ensures { Gives (read (known around.now) depth
        (stmts.after_place (known around.now) first) tokens.old) result tokens.new }
{
    if first.is_place() && sees_assign(tokens) {
        let (op, at) = assign_op(tokens)?;
        let value = expr(alloc, inner, around, tokens, depth, true)?;
        return Ok(Stmt::Assign {
            at,
            op,
            place: first,
            value,
        });
    }
    let whole = more_operands(alloc, inner, around, tokens, depth, true, first)?;
    Ok(Stmt::Plain(whole))
}

/// A statement that begins with a word.
#[tactic(auto, unfolding(sw_grammar::specs::Stmts::word_stmt))]
pub fn word_stmt<I: Inner>(
    alloc: Global,
    inner: &I,
    around: &Around<'_>,
    tokens: &mut Cursor<'_>,
    depth: u32,
) -> Result<Stmt, Stop>
    requires { Below I.reads inner.now depth }
    ensures { Gives (read (known around.now) depth (stmts.word_stmt (known around.now)) tokens.old)
        result tokens.new }
{
    let name = value_word(around, tokens)?;
    let first = after_word(alloc, inner, around, tokens, depth, name)?;
    after_place(alloc, inner, around, tokens, depth, first)
}

/// A statement that begins with `self`.
#[tactic(auto, unfolding(sw_grammar::specs::Stmts::self_stmt))]
pub fn self_stmt<I: Inner>(
    alloc: Global,
    inner: &I,
    around: &Around<'_>,
    tokens: &mut Cursor<'_>,
    depth: u32,
) -> Result<Stmt, Stop>
    requires { Below I.reads inner.now depth }
    ensures { Gives (read (known around.now) depth (stmts.self_stmt (known around.now)) tokens.old)
        result tokens.new }
{
    let at = tokens.expect("self")?;
    let first = after_operand(alloc, inner, around, tokens, depth, Expr::Me { at })?;
    after_place(alloc, inner, around, tokens, depth, first)
}

/// A statement that begins with `Task`.
#[tactic(auto, unfolding(sw_grammar::specs::Stmts::task_stmt))]
pub fn task_stmt<I: Inner>(
    alloc: Global,
    inner: &I,
    around: &Around<'_>,
    tokens: &mut Cursor<'_>,
    depth: u32,
) -> Result<Stmt, Stop>
    requires { Below I.reads inner.now depth }
    ensures { Gives (read (known around.now) depth (stmts.task_stmt (known around.now)) tokens.old)
        result tokens.new }
{
    let at = tokens.expect("Task")?;
    let base = after_task(alloc, inner, around, tokens, depth, true, at)?;
    let first = after_operand(alloc, inner, around, tokens, depth, base)?;
    let whole = more_operands(alloc, inner, around, tokens, depth, true, first)?;
    Ok(Stmt::Plain(whole))
}

/// An expression that begins with a literal, a prefix operator or `await`.
#[tactic(auto, unfolding(sw_grammar::specs::Stmts::plain_stmt))]
pub fn plain_stmt<I: Inner>(
    alloc: Global,
    inner: &I,
    around: &Around<'_>,
    tokens: &mut Cursor<'_>,
    depth: u32,
) -> Result<Stmt, Stop>
    requires { Below I.reads inner.now depth }
    ensures { Gives (read (known around.now) depth (stmts.plain_stmt (known around.now)) tokens.old)
        result tokens.new }
{
    if tokens.sees("await") {
        return Ok(Stmt::Plain(awaited(alloc, inner, around, tokens, depth, true)?));
    }
    let first = plain_operand(alloc, inner, around, tokens, depth)?;
    let whole = more_operands(alloc, inner, around, tokens, depth, true, first)?;
    Ok(Stmt::Plain(whole))
}

/// An operand that begins with a literal or a prefix operator.
fn plain_operand<I: Inner>(
    alloc: Global,
    inner: &I,
    around: &Around<'_>,
    tokens: &mut Cursor<'_>,
    depth: u32,
) -> Result<Expr, Stop>
    requires { Below I.reads inner.now depth }
    ensures { Gives (read (known around.now) depth (plain_operand (known around.now)) tokens.old)
        result tokens.new }
{
    if sees_prefix(tokens) {
        return negated(alloc, inner, around, tokens, depth, true);
    }
    let literal = a_literal(around, tokens, depth)?;
    after_operand(alloc, inner, around, tokens, depth, literal)
}

/// A `return`.
#[tactic(auto, unfolding(sw_grammar::specs::Stmts::return_stmt))]
pub fn return_stmt<I: Inner>(
    alloc: Global,
    inner: &I,
    around: &Around<'_>,
    tokens: &mut Cursor<'_>,
    depth: u32,
) -> Result<Stmt, Stop>
    requires { Below I.reads inner.now depth }
    ensures { Gives (read (known around.now) depth (stmts.return_stmt (known around.now))
        tokens.old)
        result tokens.new }
{
    let at = tokens.expect("return")?;
    if sees_value_on_line(tokens) {
        let given = value_in(alloc, inner, around, tokens, depth, around.wanted())?;
        return Ok(Stmt::Return {
            at,
            value: Some(given.value()),
        });
    }
    Ok(Stmt::Return { at, value: None })
}

/// A `break`.
#[tactic(auto, unfolding(sw_grammar::specs::Stmts::break_stmt))]
pub fn break_stmt(around: &Around<'_>, tokens: &mut Cursor<'_>, depth: u32) -> Result<Stmt, Stop>
    ensures { Gives (read (known around.now) depth (stmts.break_stmt (known around.now)) tokens.old)
        result tokens.new }
{
    let at = tokens.expect("break")?;
    Ok(Stmt::Break { at })
}

/// A `continue`.
#[tactic(auto, unfolding(sw_grammar::specs::Stmts::continue_stmt))]
pub fn continue_stmt(around: &Around<'_>, tokens: &mut Cursor<'_>, depth: u32) -> Result<Stmt, Stop>
    ensures { Gives (read (known around.now) depth
        (stmts.continue_stmt (known around.now)) tokens.old) result tokens.new }
{
    let at = tokens.expect("continue")?;
    Ok(Stmt::Continue { at })
}
