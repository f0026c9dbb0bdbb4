//! Blocks, expressions and types, each where no token follows with which it might go on.

ghost use Rattle.std.specs.Prelude.{◌≡◌, true, option_map};
ghost use Rattle.sw_grammar_forms.specs.Fronts.{ends_before, front};
ghost use Rattle.sw_grammar_forms.specs.Outcome.{Gives};
ghost use Rattle.sw_grammar_forms.specs.Reader.{check};
ghost use Rattle.sw_grammar_forms.specs.Relations.{head};
ghost use Rattle.sw_grammar_forms.specs.Sets.{starts};
ghost use Rattle.sw_grammar.specs.Around.{index_in};
ghost use Rattle.sw_grammar.specs.Tokens.{expr_ext, type_ext};
ghost use Rattle.sw_grammar.specs.Exprs as exprs;
ghost use Rattle.sw_grammar.specs.Types as types;
ghost use Rattle.sw_grammar.specs.Reading.{read};
ghost use Rattle.sw_parse_parts.specs.Around.{known};
ghost use Rattle.sw_grammar.specs.Exprs.{operators};
ghost use Rattle.sw_parse_body.specs.Phrases.{read_phrase, a_block, an_expr, a_type};

use super::parser::Parser;
use std::alloc::Global;
use sw_grammar_forms::{Cursor, Stop};
use sw_parse_parts::Around;
use sw_token::Fixity;
use sw_tree::{Block, Expr, Names, TypeTree};

/// A block, in which each `return` gives an optional of this word where there is one. No token goes
/// on with a block.
pub fn block(
    alloc: Global,
    names: &Names,
    tokens: &mut Cursor<'_>,
    depth: u32,
    word: Option<&str>,
) -> Result<Block, Stop>
    ensures { Gives (read_phrase (a_block (option_map (λ text. text.now) word.entry))
        (index_in names.now) depth tokens.old) result tokens.new }
{
    let outermost = Around::new(names);
    let around = outermost.returning(word);
    sw_parse_stmt::block(alloc, &Parser, &around, tokens, depth)
}

/// Whether the next token is an operator between operands, and none that assigns.
fn sees_infix(tokens: &Cursor<'_>) -> bool
    ensures { result ≡ starts operators (head tokens.now) }
{
    let texts: [&str; 13] = [
        "*", "/", "%", "+", "-", "==", "!=", "<", "<=", ">", ">=", "&&", "||",
    ];
    tokens.sees_operator_of(texts.as_slice(), Fixity::Infix)
}

/// Whether an expression may go on with the next token.
fn goes_on(tokens: &Cursor<'_>) -> bool
    ensures { result ≡ starts expr_ext (head tokens.now) }
{
    if tokens.sees_on_line("(") {
        return true;
    }
    if tokens.sees(".") {
        return true;
    }
    sees_infix(tokens)
}

/// Refuses a token with which an expression may go on.
fn end_expr(tokens: &Cursor<'_>) -> Result<(), Stop>
    ensures { Gives (check (ends_before expr_ext) tokens.now) result tokens.now }
{
    if goes_on(tokens) {
        return Err(tokens.stop());
    }
    Ok(())
}

/// An expression, in which closures may stand, in these surroundings.
fn expr_in(
    alloc: Global,
    around: &Around<'_>,
    tokens: &mut Cursor<'_>,
    depth: u32,
) -> Result<Expr, Stop>
    ensures { Gives (front expr_ext (read (known around.now) depth
        (exprs.expr (known around.now) true)) tokens.old) result tokens.new }
{
    let value = sw_parse_expr::expr(alloc, &Parser, around, tokens, depth, true)?;
    end_expr(tokens)?;
    Ok(value)
}

/// An expression, in which closures may stand.
pub fn expr(alloc: Global, names: &Names, tokens: &mut Cursor<'_>, depth: u32) -> Result<Expr, Stop>
    ensures { Gives (read_phrase an_expr (index_in names.now) depth tokens.old) result tokens.new }
{
    let around = Around::new(names);
    expr_in(alloc, &around, tokens, depth)
}

/// Whether a type may go on with the next token.
fn type_goes_on(tokens: &Cursor<'_>) -> bool
    ensures { result ≡ starts type_ext (head tokens.now) }
{
    let texts: [&str; 3] = ["->", "<", "?"];
    tokens.sees_one_of(texts.as_slice())
}

/// Refuses a token with which a type may go on.
fn end_type(tokens: &Cursor<'_>) -> Result<(), Stop>
    ensures { Gives (check (ends_before type_ext) tokens.now) result tokens.now }
{
    if type_goes_on(tokens) {
        return Err(tokens.stop());
    }
    Ok(())
}

/// A type in these surroundings.
fn type_in(
    alloc: Global,
    around: &Around<'_>,
    tokens: &mut Cursor<'_>,
    depth: u32,
) -> Result<TypeTree, Stop>
    ensures { Gives (front type_ext (read (known around.now) depth (types.type (known around.now)))
        tokens.old) result tokens.new }
{
    let tree = sw_parse_parts::type_tree(alloc, around, tokens, depth)?;
    end_type(tokens)?;
    Ok(tree)
}

/// A type.
pub fn type_tree(
    alloc: Global,
    names: &Names,
    tokens: &mut Cursor<'_>,
    depth: u32,
) -> Result<TypeTree, Stop>
    ensures { Gives (read_phrase a_type (index_in names.now) depth tokens.old) result tokens.new }
{
    let around = Around::new(names);
    type_in(alloc, &around, tokens, depth)
}
