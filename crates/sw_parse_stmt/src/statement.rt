//! Any statement.

ghost use Rattle.sw_grammar_forms.specs.Outcome.{Gives};
ghost use Rattle.sw_grammar.specs.Stmts as stmts;
ghost use Rattle.sw_grammar.specs.Reading.{read};
ghost use Rattle.sw_parse_parts.specs.Around.{known};
ghost use Rattle.sw_parse_expr.specs.Below.{Below};

use super::control::{if_stmt, while_stmt};
use super::simple::{
    break_stmt, continue_stmt, discard, plain_stmt, return_stmt, self_stmt, task_stmt, word_stmt,
};
use super::switch::switch_stmt;
use super::variables::bind;
use std::alloc::Global;
use sw_grammar_forms::{Cursor, Stop};
use sw_list::ListOf;
use sw_parse_expr::Inner;
use sw_parse_parts::{Around, sees_binding, sees_value_word};
use sw_tree::{Stmt, StmtList};

/// A statement, without the `;` after it, as the statements that it stands for.
#[tactic(auto, unfolding(sw_grammar::specs::Stmts::stmt))]
pub fn stmt<I: Inner>(
    alloc: Global,
    inner: &I,
    around: &Around<'_>,
    tokens: &mut Cursor<'_>,
    depth: u32,
) -> Result<StmtList, Stop>
    requires { Below I.reads inner.now depth }
    ensures { Gives (read (known around.now) depth (stmts.stmt (known around.now)) tokens.old)
        result tokens.new }
{
    if sees_binding(tokens) {
        return bind(alloc, inner, around, tokens, depth);
    }
    let other = other_stmt(alloc, inner, around, tokens, depth)?;
    Ok(ListOf::one(alloc, other)?)
}

/// A statement that isn't a variable.
#[tactic(auto, unfolding(sw_grammar::specs::Stmts::other_stmt))]
fn other_stmt<I: Inner>(
    alloc: Global,
    inner: &I,
    around: &Around<'_>,
    tokens: &mut Cursor<'_>,
    depth: u32,
) -> Result<Stmt, Stop>
    requires { Below I.reads inner.now depth }
    ensures { Gives (read (known around.now) depth (stmts.other_stmt (known around.now)) tokens.old)
        result tokens.new }
{
    if !around.no_break() && tokens.sees("break") {
        return break_stmt(around, tokens, depth);
    }
    if tokens.sees("_") {
        return discard(alloc, inner, around, tokens, depth);
    }
    if tokens.sees("if") {
        return if_stmt(alloc, inner, around, tokens, depth);
    }
    if tokens.sees("while") {
        return while_stmt(alloc, inner, around, tokens, depth);
    }
    if tokens.sees("switch") {
        return switch_stmt(alloc, inner, around, tokens, depth);
    }
    if tokens.sees("return") {
        return return_stmt(alloc, inner, around, tokens, depth);
    }
    if tokens.sees("continue") {
        return continue_stmt(around, tokens, depth);
    }
    if sees_value_word(tokens) {
        return word_stmt(alloc, inner, around, tokens, depth);
    }
    if tokens.sees("self") {
        return self_stmt(alloc, inner, around, tokens, depth);
    }
    if tokens.sees("Task") {
        return task_stmt(alloc, inner, around, tokens, depth);
    }
    plain_stmt(alloc, inner, around, tokens, depth)
}
