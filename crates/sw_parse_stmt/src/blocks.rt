//! Blocks, and the values of variables.

ghost use Rattle.std.specs.Prelude.{codes};
ghost use Rattle.sw_grammar_forms.specs.Outcome.{Gives};
ghost use Rattle.sw_grammar_forms.specs.Quotes.{quote};
ghost use Rattle.sw_grammar.specs.Stmts as stmts;
ghost use Rattle.sw_grammar.specs.Nests.Nest.{in_block};
ghost use Rattle.sw_grammar.specs.Reading.{read};
ghost use Rattle.sw_parse_parts.specs.Around.{known};
ghost use Rattle.sw_parse_parts.specs.Nested.{nested};
ghost use Rattle.sw_parse_expr.specs.Below.{Below};

use std::alloc::Global;
use sw_grammar_forms::{Cursor, Stop};
use sw_parse_expr::{Inner, expr, stmts_inside};
use sw_parse_parts::{Around, equals};
use sw_tree::{Block, Expr, StmtList};

/// A block, from its `{` to its `}`.
#[tactic(auto, unfolding(sw_grammar::specs::Stmts::block))]
pub fn block<I: Inner>(
    alloc: Global,
    inner: &I,
    around: &Around<'_>,
    tokens: &mut Cursor<'_>,
    depth: u32,
) -> Result<Block, Stop>
    requires { Below I.reads inner.now depth }
    ensures { Gives (read (known around.now) depth (stmts.block (known around.now)) tokens.old)
        result tokens.new }
{
    Ok(Block {
        stmts: braced(alloc, inner, around, tokens, depth)?,
    })
}

/// Statements in `{` and `}`.
pub fn braced<I: Inner>(
    alloc: Global,
    inner: &I,
    around: &Around<'_>,
    tokens: &mut Cursor<'_>,
    depth: u32,
) -> Result<StmtList, Stop>
    requires { Below I.reads inner.now depth }
    ensures { Gives (nested (known around.now) depth (quote (codes "{"))
        (in_block (known around.now).here) tokens.old) result tokens.new }
{
    tokens.open("{", depth)?;
    stmts_inside(alloc, inner, around, tokens, depth - 1)
}

/// `=` and an expression.
#[tactic(auto, unfolding(sw_grammar::specs::Stmts::value))]
pub fn value<I: Inner>(
    alloc: Global,
    inner: &I,
    around: &Around<'_>,
    tokens: &mut Cursor<'_>,
    depth: u32,
) -> Result<Expr, Stop>
    requires { Below I.reads inner.now depth }
    ensures { Gives (read (known around.now) depth (stmts.value (known around.now)) tokens.old)
        result tokens.new }
{
    equals(tokens)?;
    expr(alloc, inner, around, tokens, depth, true)
}
