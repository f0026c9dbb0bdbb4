//! Arms with `let`, each with all that comes after it in its `if`.

ghost use Rattle.std.specs.Prelude.{codes};
ghost use Rattle.sw_grammar_forms.specs.Form.Form.{nest};
ghost use Rattle.sw_grammar_forms.specs.Outcome.{Gives};
ghost use Rattle.sw_grammar_forms.specs.Quotes.{quote};
ghost use Rattle.sw_grammar.specs.Around.{without_break};
ghost use Rattle.sw_grammar.specs.Nests.Nest.{in_if_let};
ghost use Rattle.sw_grammar.specs.Stmts as stmts;
ghost use Rattle.sw_grammar.specs.Reading.{read};
ghost use Rattle.sw_parse_parts.specs.Around.{known};
ghost use Rattle.sw_parse_expr.specs.Below.{Below};

use super::blocks::block;
use std::alloc::Global;
use std::marker::Model;
use sw_grammar_forms::{Cursor, Stop};
use sw_list::ListOf;
use sw_parse_expr::{Inner, expr};
use sw_parse_parts::{Around, equals, new_name};
use sw_sugar::{LetArm, if_let_tree};
use sw_tree::{Block, Expr, Name, Stmt};

/// A variable, the value that it is made of, and the blocks where there is one and where there is
/// none.
#[derive(Drop)]
struct IfLet {
    name: Name,
    subject: Expr,
    chosen: Block,
    otherwise: Block,
}

impl Model for IfLet {
    ghost use Rattle.std.specs.Coded.{codes};
    ghost use Rattle.sw_tree.specs.contracts.expr.Expr as expr;
    ghost use Rattle.sw_tree.specs.contracts.stmt.Block as block;
    ghost use Rattle.sw_grammar.specs.Nests.{IfLet};

    ghost Value = { IfLet };

    ghost coded = { Prim.hlevel (codes, expr.the_row.coded, block.the_row.coded) };

    ghost view = { λ arm. record {
      name = arm.name;
      subject = arm.subject;
      chosen = arm.chosen;
      otherwise = arm.otherwise;
    } };
}

/// A block that no `break` may leave.
fn closed_block<I: Inner>(
    alloc: Global,
    inner: &I,
    around: &Around<'_>,
    tokens: &mut Cursor<'_>,
    depth: u32,
) -> Result<Block, Stop>
    requires { Below I.reads inner.now depth }
    ensures { Gives (read (known around.now) depth
        (stmts.block (without_break (known around.now))) tokens.old) result tokens.new }
{
    let inside = around.without_break();
    block(alloc, inner, &inside, tokens, depth)
}

/// An `if` whose blocks no `break` may leave.
fn closed_if<I: Inner>(
    alloc: Global,
    inner: &I,
    around: &Around<'_>,
    tokens: &mut Cursor<'_>,
    depth: u32,
) -> Result<Stmt, Stop>
    requires { I.reads inner.now depth }
    ensures { Gives (read (known around.now) depth
        (stmts.if_stmt (without_break (known around.now))) tokens.old) result tokens.new }
{
    let inside = around.without_break();
    inner.if_stmt(alloc, &inside, tokens, depth)
}

/// The later arms of the `if` as a block, which is empty where none comes.
#[tactic(auto, unfolding(sw_grammar::specs::Stmts::later_arms))]
fn later_arms<I: Inner>(
    alloc: Global,
    inner: &I,
    around: &Around<'_>,
    tokens: &mut Cursor<'_>,
    depth: u32,
) -> Result<Block, Stop>
    requires here { I.reads inner.now depth }
    requires below { Below I.reads inner.now depth }
    ensures { Gives (read (known around.now) depth (stmts.later_arms (known around.now)) tokens.old)
        result tokens.new }
{
    if !tokens.sees("else") {
        return Ok(Block {
            stmts: ListOf::new(alloc),
        });
    }
    tokens.expect("else")?;
    if tokens.sees("if") {
        let rest = closed_if(alloc, inner, around, tokens, depth)?;
        return Ok(Block {
            stmts: ListOf::one(alloc, rest)?,
        });
    }
    closed_block(alloc, inner, around, tokens, depth)
}

/// What stands after the `let`.
#[tactic(auto, unfolding(sw_grammar::specs::Stmts::if_let_inside))]
fn if_let_inside<I: Inner>(
    alloc: Global,
    inner: &I,
    around: &Around<'_>,
    tokens: &mut Cursor<'_>,
    depth: u32,
) -> Result<IfLet, Stop>
    requires here { I.reads inner.now depth }
    requires below { Below I.reads inner.now depth }
    ensures { Gives (read (known around.now) depth (stmts.if_let_inside (known around.now))
        tokens.old) result tokens.new }
{
    let name = new_name(around, tokens)?;
    equals(tokens)?;
    let subject = expr(alloc, inner, around, tokens, depth, false)?;
    let chosen = closed_block(alloc, inner, around, tokens, depth)?;
    let otherwise = later_arms(alloc, inner, around, tokens, depth)?;
    Ok(IfLet {
        name,
        subject,
        chosen,
        otherwise,
    })
}

/// The `let`, by its position, and what stands after it.
fn let_arm<I: Inner>(
    alloc: Global,
    inner: &I,
    around: &Around<'_>,
    tokens: &mut Cursor<'_>,
    depth: u32,
) -> Result<(u32, IfLet), Stop>
    requires { Below I.reads inner.now depth }
    ensures { Gives (read (known around.now) depth (nest (quote (codes "let"))
        (in_if_let (known around.now).here)) tokens.old) result tokens.new }
{
    let at = tokens.open("let", depth)?;
    let inside = if_let_inside(alloc, inner, around, tokens, depth - 1)?;
    Ok((at, inside))
}

/// An arm with `let` after the `if` at this position, with all that comes after it.
#[tactic(auto, unfolding(sw_grammar::specs::Stmts::if_let))]
pub fn if_let<I: Inner>(
    alloc: Global,
    inner: &I,
    around: &Around<'_>,
    tokens: &mut Cursor<'_>,
    depth: u32,
    at: u32,
) -> Result<Stmt, Stop>
    requires { Below I.reads inner.now depth }
    ensures { Gives (read (known around.now) depth (stmts.if_let (known around.now) at) tokens.old)
        result tokens.new }
{
    let (let_at, inside) = let_arm(alloc, inner, around, tokens, depth)?;
    let form = LetArm {
        some: around.id_of("some"),
        at,
        let_at,
        name: inside.name,
    };
    Ok(if_let_tree(alloc, form, inside.subject, inside.chosen, inside.otherwise)?)
}
