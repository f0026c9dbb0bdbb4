//! Statements with blocks: `if` and `while`.

ghost use Rattle.std.specs.Prelude.{codes};
ghost use Rattle.sw_grammar_forms.specs.Outcome.{Gives};
ghost use Rattle.sw_grammar_forms.specs.Quotes.{quote};
ghost use Rattle.sw_grammar.specs.Around.{with_break};
ghost use Rattle.sw_grammar.specs.Nests.Nest.{in_block};
ghost use Rattle.sw_grammar.specs.Stmts as stmts;
ghost use Rattle.sw_grammar.specs.Reading.{read};
ghost use Rattle.sw_parse_parts.specs.Around.{known};
ghost use Rattle.sw_parse_parts.specs.Nested.{nested};
ghost use Rattle.sw_parse_expr.specs.Below.{Below};
ghost use Rattle.sw_parse_stmt.specs.Parts.{begun, more_arms};

use super::arms::{Arms, Next};
use super::blocks::{block, braced};
use super::if_let::if_let;
use std::alloc::Global;
use sw_grammar_forms::{Cursor, Stop};
use sw_list::ListOf;
use sw_parse_expr::{Inner, expr};
use sw_parse_parts::{Around, sees_expr};
use sw_tree::{Block, IfArm, IfArmList, Stmt, StmtList};

/// What comes after some arms of an `if`: `else` and `if`, `else` and a block, or nothing.
#[tactic(auto, unfolding(sw_grammar::specs::Stmts::after_arm))]
fn after_arm<I: Inner>(
    alloc: Global,
    inner: &I,
    around: &Around<'_>,
    tokens: &mut Cursor<'_>,
    depth: u32,
    arms: IfArmList,
) -> Result<Arms, Stop>
    requires { Below I.reads inner.now depth }
    ensures { Gives (read (known around.now) depth (stmts.after_arm (known around.now) arms)
        tokens.old) result tokens.new }
{
    if !tokens.sees("else") {
        return Ok(Arms::new(arms, Next::Nothing));
    }
    tokens.expect("else")?;
    if tokens.sees("if") {
        let at = tokens.expect("if")?;
        return Ok(Arms::new(arms, Next::Arm { at }));
    }
    let body = block(alloc, inner, around, tokens, depth)?;
    Ok(Arms::new(arms, Next::Other(body)))
}

/// One more arm without `let` after these, and what comes after it.
#[tactic(auto, unfolding(sw_grammar::specs::Stmts::next_arm))]
fn next_arm<I: Inner>(
    alloc: Global,
    inner: &I,
    around: &Around<'_>,
    tokens: &mut Cursor<'_>,
    depth: u32,
    before: Arms,
) -> Result<Arms, Stop>
    requires { Below I.reads inner.now depth }
    ensures { Gives (read (known around.now) depth
        (stmts.next_arm (known around.now) before) tokens.old) result tokens.new }
{
    let at = before.place();
    let mut arms = before.arms();
    let cond = expr(alloc, inner, around, tokens, depth, false)?;
    let body = block(alloc, inner, around, tokens, depth)?;
    arms.push(IfArm { at, cond, body })?;
    after_arm(alloc, inner, around, tokens, depth, arms)
}

/// The arms without `let` with which an `if` at this position begins, and what comes after them.
fn plain_arms<I: Inner>(
    alloc: Global,
    inner: &I,
    around: &Around<'_>,
    tokens: &mut Cursor<'_>,
    depth: u32,
    at: u32,
) -> Result<Arms, Stop>
    requires { Below I.reads inner.now depth }
    ensures { Gives (read (known around.now) depth (more_arms (known around.now) (begun at))
        tokens.old) result tokens.new }
{
    let mut arms = Arms::new(ListOf::new(alloc), Next::Arm { at });
    while arms.has_next() && sees_expr(tokens) {
        arms = next_arm(alloc, inner, around, tokens, depth, arms)?;
    }
    Ok(arms)
}

/// An arm with `let` after these, with all that comes after it.
#[tactic(auto, unfolding(sw_grammar::specs::Stmts::last_arm))]
fn last_arm<I: Inner>(
    alloc: Global,
    inner: &I,
    around: &Around<'_>,
    tokens: &mut Cursor<'_>,
    depth: u32,
    before: Arms,
) -> Result<Arms, Stop>
    requires { Below I.reads inner.now depth }
    ensures { Gives (read (known around.now) depth
        (stmts.last_arm (known around.now) before) tokens.old) result tokens.new }
{
    let rest = if_let(alloc, inner, around, tokens, depth, before.place())?;
    Ok(Arms::new(before.arms(), Next::Rest(rest)))
}

/// An `if` with all of its arms.
#[tactic(auto, unfolding(sw_grammar::specs::Stmts::if_stmt))]
pub fn if_stmt<I: Inner>(
    alloc: Global,
    inner: &I,
    around: &Around<'_>,
    tokens: &mut Cursor<'_>,
    depth: u32,
) -> Result<Stmt, Stop>
    requires { Below I.reads inner.now depth }
    ensures { Gives (read (known around.now) depth (stmts.if_stmt (known around.now)) tokens.old)
        result tokens.new }
{
    let at = tokens.expect("if")?;
    let mut arms = plain_arms(alloc, inner, around, tokens, depth, at)?;
    if arms.has_next() {
        arms = last_arm(alloc, inner, around, tokens, depth, arms)?;
    }
    Ok(arms.stmt(alloc)?)
}

/// Statements in `{` and `}` that a `break` may leave.
fn loop_stmts<I: Inner>(
    alloc: Global,
    inner: &I,
    around: &Around<'_>,
    tokens: &mut Cursor<'_>,
    depth: u32,
) -> Result<StmtList, Stop>
    requires { Below I.reads inner.now depth }
    ensures { Gives (nested (known around.now) depth (quote (codes "{"))
        (in_block (with_break (known around.now)).here) tokens.old) result tokens.new }
{
    let inside = around.with_break();
    braced(alloc, inner, &inside, tokens, depth)
}

/// A `while`.
#[tactic(auto, unfolding(sw_grammar::specs::Stmts::while_stmt))]
pub fn while_stmt<I: Inner>(
    alloc: Global,
    inner: &I,
    around: &Around<'_>,
    tokens: &mut Cursor<'_>,
    depth: u32,
) -> Result<Stmt, Stop>
    requires { Below I.reads inner.now depth }
    ensures { Gives (read (known around.now) depth (stmts.while_stmt (known around.now)) tokens.old)
        result tokens.new }
{
    let at = tokens.expect("while")?;
    let cond = expr(alloc, inner, around, tokens, depth, false)?;
    let body = Block {
        stmts: loop_stmts(alloc, inner, around, tokens, depth)?,
    };
    Ok(Stmt::While { at, cond, body })
}
