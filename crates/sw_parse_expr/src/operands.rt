//! Operands: what stands between operators.

ghost use Rattle.sw_grammar_forms.specs.Outcome.{Gives};
ghost use Rattle.sw_grammar.specs.Exprs as exprs;
ghost use Rattle.sw_grammar.specs.Reading.{read};
ghost use Rattle.sw_parse_parts.specs.Around.{known};
ghost use Rattle.sw_parse_expr.specs.Below.{Below};
ghost use Rattle.sw_parse_expr.specs.Parts.{no_word};

use super::calls::{after_operand, after_word};
use super::closures::{closure, task_body};
use super::inner::Inner;
use std::alloc::Global;
use sw_grammar_forms::{Cursor, Stop};
use sw_list::Boxed;
use sw_parse_parts::{
    Around, a_literal, empty, prefix_op, sees_literal, sees_prefix, sees_value_word, value_word,
};
use sw_tree::Expr;

/// What stands after `Task` and `.`.
#[tactic(auto, unfolding(sw_grammar::specs::Exprs::after_task_dot))]
fn after_task_dot<I: Inner>(
    alloc: Global,
    inner: &I,
    around: &Around<'_>,
    tokens: &mut Cursor<'_>,
    depth: u32,
    closures: bool,
    at: u32,
) -> Result<Expr, Stop>
    requires { Below I.reads inner.now depth }
    ensures { Gives (read (known around.now) depth (exprs.after_task_dot (known around.now) closures
        at) tokens.old) result tokens.new }
{
    if closures && tokens.sees("detached") {
        tokens.expect("detached")?;
        let body = task_body(alloc, inner, around, tokens, depth)?;
        return Ok(Expr::Spawn {
            at,
            detached: true,
            body: Boxed::new(alloc, body)?,
        });
    }
    tokens.expect("yield")?;
    empty(around, tokens, depth)?;
    Ok(Expr::Yield { at })
}

/// What stands after a `Task` at this position: a body, or `.` and `detached` or `yield`.
#[tactic(auto, unfolding(sw_grammar::specs::Exprs::after_task))]
pub fn after_task<I: Inner>(
    alloc: Global,
    inner: &I,
    around: &Around<'_>,
    tokens: &mut Cursor<'_>,
    depth: u32,
    closures: bool,
    at: u32,
) -> Result<Expr, Stop>
    requires { Below I.reads inner.now depth }
    ensures { Gives (read (known around.now) depth (exprs.after_task (known around.now) closures at)
        tokens.old) result tokens.new }
{
    if closures && tokens.sees("{") {
        let body = task_body(alloc, inner, around, tokens, depth)?;
        return Ok(Expr::Spawn {
            at,
            detached: false,
            body: Boxed::new(alloc, body)?,
        });
    }
    tokens.expect(".")?;
    after_task_dot(alloc, inner, around, tokens, depth, closures, at)
}

/// An expression in brackets.
#[tactic(auto, unfolding(sw_grammar::specs::Exprs::bracketed))]
pub fn bracketed<I: Inner>(
    alloc: Global,
    inner: &I,
    around: &Around<'_>,
    tokens: &mut Cursor<'_>,
    depth: u32,
) -> Result<Expr, Stop>
    requires { Below I.reads inner.now depth }
    ensures { Gives (read (known around.now) depth (exprs.bracketed (known around.now)) tokens.old)
        result tokens.new }
{
    tokens.open("(", depth)?;
    round(alloc, inner, around, tokens, depth - 1)
}

/// What stands in the brackets, up to the `)`.
#[tactic(auto, unfolding(sw_grammar::specs::Exprs::round))]
fn round<I: Inner>(
    alloc: Global,
    inner: &I,
    around: &Around<'_>,
    tokens: &mut Cursor<'_>,
    depth: u32,
) -> Result<Expr, Stop>
    requires { I.reads inner.now depth }
    ensures { Gives (read (known around.now) depth (exprs.round (known around.now)) tokens.old)
        result
        tokens.new }
{
    let expr = inner.expr(alloc, around, tokens, depth)?;
    tokens.expect(")")?;
    Ok(expr)
}

/// A primary that begins with neither a word nor `Task`.
#[tactic(auto, unfolding(sw_grammar::specs::Exprs::other_primary))]
pub fn other_primary<I: Inner>(
    alloc: Global,
    inner: &I,
    around: &Around<'_>,
    tokens: &mut Cursor<'_>,
    depth: u32,
    closures: bool,
) -> Result<Expr, Stop>
    requires { Below I.reads inner.now depth }
    ensures { Gives (read (known around.now) depth (exprs.other_primary (known around.now) closures)
        tokens.old) result tokens.new }
{
    if closures && tokens.sees("{") {
        return closure_expr(alloc, inner, around, tokens, depth);
    }
    if sees_literal(tokens) {
        return a_literal(around, tokens, depth);
    }
    if tokens.sees("self") {
        return me(around, tokens, depth);
    }
    bracketed(alloc, inner, around, tokens, depth)
}

/// A primary with its members.
#[tactic(auto, unfolding(sw_grammar::specs::Exprs::postfix))]
fn postfix<I: Inner>(
    alloc: Global,
    inner: &I,
    around: &Around<'_>,
    tokens: &mut Cursor<'_>,
    depth: u32,
    closures: bool,
) -> Result<Expr, Stop>
    requires { Below I.reads inner.now depth }
    ensures { Gives (read (known around.now) depth (exprs.postfix (known around.now) closures)
        tokens.old) result tokens.new }
{
    if sees_value_word(tokens) {
        let name = value_word(around, tokens)?;
        return after_word(alloc, inner, around, tokens, depth, name);
    }
    let base = no_word(alloc, inner, around, tokens, depth, closures)?;
    after_operand(alloc, inner, around, tokens, depth, base)
}

/// A prefix operator and its operand.
#[tactic(auto, unfolding(sw_grammar::specs::Exprs::negated))]
pub fn negated<I: Inner>(
    alloc: Global,
    inner: &I,
    around: &Around<'_>,
    tokens: &mut Cursor<'_>,
    depth: u32,
    closures: bool,
) -> Result<Expr, Stop>
    requires { Below I.reads inner.now depth }
    ensures { Gives (read (known around.now) depth (exprs.negated (known around.now) closures)
        tokens.old) result tokens.new }
{
    let (op, at) = prefix_op(tokens)?;
    let operand = postfix(alloc, inner, around, tokens, depth, closures)?;
    Ok(Expr::Prefix {
        op,
        at,
        inner: Boxed::new(alloc, operand)?,
    })
}

/// An operand, with the prefix operator before it.
#[tactic(auto, unfolding(sw_grammar::specs::Exprs::unary))]
pub fn unary<I: Inner>(
    alloc: Global,
    inner: &I,
    around: &Around<'_>,
    tokens: &mut Cursor<'_>,
    depth: u32,
    closures: bool,
) -> Result<Expr, Stop>
    requires { Below I.reads inner.now depth }
    ensures { Gives (read (known around.now) depth (exprs.unary (known around.now) closures)
        tokens.old) result tokens.new }
{
    if sees_prefix(tokens) {
        return negated(alloc, inner, around, tokens, depth, closures);
    }
    postfix(alloc, inner, around, tokens, depth, closures)
}

/// A primary that begins with no word that names a value.
fn no_word<I: Inner>(
    alloc: Global,
    inner: &I,
    around: &Around<'_>,
    tokens: &mut Cursor<'_>,
    depth: u32,
    closures: bool,
) -> Result<Expr, Stop>
    requires { Below I.reads inner.now depth }
    ensures { Gives (read (known around.now) depth (no_word (known around.now) closures) tokens.old)
        result tokens.new }
{
    if tokens.sees("Task") {
        let at = tokens.expect("Task")?;
        return after_task(alloc, inner, around, tokens, depth, closures, at);
    }
    other_primary(alloc, inner, around, tokens, depth, closures)
}

/// A closure as an expression.
#[tactic(auto, unfolding(sw_grammar::specs::Exprs::closure))]
fn closure_expr<I: Inner>(
    alloc: Global,
    inner: &I,
    around: &Around<'_>,
    tokens: &mut Cursor<'_>,
    depth: u32,
) -> Result<Expr, Stop>
    requires { Below I.reads inner.now depth }
    ensures { Gives (read (known around.now) depth (exprs.closure (known around.now)) tokens.old)
        result tokens.new }
{
    let closure = closure(alloc, inner, around, tokens, depth)?;
    Ok(Expr::Fun(Boxed::new(alloc, closure)?))
}

/// `self`.
#[tactic(auto, unfolding(sw_grammar::specs::Exprs::me))]
fn me(around: &Around<'_>, tokens: &mut Cursor<'_>, depth: u32) -> Result<Expr, Stop>
    ensures { Gives (read (known around.now) depth (exprs.me (known around.now)) tokens.old) result
        tokens.new }
{
    Ok(Expr::Me {
        at: tokens.expect("self")?,
    })
}
