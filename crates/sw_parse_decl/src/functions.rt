//! Functions and their parameters.

ghost use Rattle.std.specs.Prelude.{[], ◌∷◌, codes};
ghost use Rattle.sw_grammar_forms.specs.Outcome.{Gives};
ghost use Rattle.sw_grammar.specs.Decls.{declared, param_type, param, params_inside, params};
ghost use Rattle.sw_grammar.specs.Decls.{sent_result};
ghost use Rattle.sw_grammar.specs.Decls.{func_after, method};
ghost use Rattle.sw_grammar.specs.Around.{returning};
ghost use Rattle.sw_grammar.specs.Stmts.{block};
ghost use Rattle.sw_grammar.specs.Types.{more_of, wanted_of};
ghost use Rattle.sw_grammar.specs.Nests.Nest.{in_params};
ghost use Rattle.sw_grammar.specs.Reading.{read};
ghost use Rattle.sw_grammar_forms.specs.Quotes.{quote};
ghost use Rattle.sw_parse_parts.specs.Around.{known};
ghost use Rattle.sw_parse_parts.specs.Nested.{nested};

use crate::bodies::Bodies;
use crate::isolations::{async_if, concurrent, nonisolated};
use std::alloc::Global;
use sw_grammar_forms::{Cursor, Stop};
use sw_list::ListOf;
use sw_parse_parts::{
    Around, Typed, attribute, sees_attribute, tree_of, type_tree, wanted_of, word, written_type,
};
use sw_tree::{Block, FuncTree, Name, ParamList, ParamTree, Written};

/// The word that a declaration declares.
#[tactic(auto, unfolding(sw_grammar::specs::Decls::declared))]
pub fn declared(around: &Around<'_>, tokens: &mut Cursor<'_>, depth: u32) -> Result<Name, Stop>
    ensures { Gives (read (known around.now) depth (declared (known around.now)) tokens.old) result
        tokens.new }
{
    word(around, tokens)
}

/// A parameter from its `:` on.
#[tactic(auto, unfolding(sw_grammar::specs::Decls::param_type))]
fn param_type(
    alloc: Global,
    around: &Around<'_>,
    tokens: &mut Cursor<'_>,
    depth: u32,
    label: Option<Name>,
    name: Name,
) -> Result<ParamTree, Stop>
    ensures { Gives (read (known around.now) depth (param_type (known around.now) label name)
        tokens.old) result tokens.new }
{
    tokens.expect(":")?;
    let sending = tokens.skip("sending");
    tokens.skip("@escaping");
    let ty = type_tree(alloc, around, tokens, depth)?;
    Ok(ParamTree {
        label,
        name,
        sending,
        ty,
    })
}

/// A parameter.
#[tactic(auto, unfolding(sw_grammar::specs::Decls::param))]
fn param(
    alloc: Global,
    around: &Around<'_>,
    tokens: &mut Cursor<'_>,
    depth: u32,
) -> Result<ParamTree, Stop>
    ensures { Gives (read (known around.now) depth (param (known around.now)) tokens.old) result
        tokens.new }
{
    if tokens.sees_word() {
        let first = declared(around, tokens, depth)?;
        if tokens.sees_word() {
            let name = declared(around, tokens, depth)?;
            return param_type(alloc, around, tokens, depth, Some(first), name);
        }
        return param_type(alloc, around, tokens, depth, Some(first), first);
    }
    tokens.expect("_")?;
    let name = declared(around, tokens, depth)?;
    param_type(alloc, around, tokens, depth, None, name)
}

/// The result of a function, and whether it is `sending`.
#[tactic(auto, unfolding(sw_grammar::specs::Decls::sent_result))]
fn sent_result<'a>(
    alloc: Global,
    around: &Around<'_>,
    tokens: &mut Cursor<'a>,
    depth: u32,
) -> Result<(bool, Option<Typed<'a>>), Stop>
    ensures { Gives (read (known around.now) depth (sent_result (known around.now)) tokens.old)
        result tokens.new }
{
    if tokens.sees("->") {
        tokens.expect("->")?;
        let sends = tokens.skip("sending");
        let ty = written_type(alloc, around, tokens, depth)?;
        return Ok((sends, Some(ty)));
    }
    Ok((false, None))
}

/// The parameters of a function.
#[tactic(auto, unfolding(sw_grammar::specs::Decls::params))]
pub fn params(
    alloc: Global,
    around: &Around<'_>,
    tokens: &mut Cursor<'_>,
    depth: u32,
) -> Result<ParamList, Stop>
    ensures { Gives (read (known around.now) depth (params (known around.now)) tokens.old) result
        tokens.new }
{
    let params = round_params(alloc, around, tokens, depth)?;
    Ok(params)
}

/// What stands in the `(` and `)` of parameters.
fn round_params(
    alloc: Global,
    around: &Around<'_>,
    tokens: &mut Cursor<'_>,
    depth: u32,
) -> Result<ParamList, Stop>
    ensures { Gives (nested (known around.now) depth (quote (codes "(")) in_params tokens.old)
        result
        tokens.new }
{
    tokens.open("(", depth)?;
    params_inside(alloc, &around.outermost(), tokens, depth - 1)
}

/// Parameters up to a `)`.
#[tactic(auto, unfolding(sw_grammar::specs::Decls::params_inside))]
fn params_inside(
    alloc: Global,
    around: &Around<'_>,
    tokens: &mut Cursor<'_>,
    depth: u32,
) -> Result<ParamList, Stop>
    ensures { Gives (read (known around.now) depth (params_inside (known around.now)) tokens.old)
        result tokens.new }
{
    if tokens.skip(")") {
        return Ok(ListOf::new(alloc));
    }
    let first = param(alloc, around, tokens, depth)?;
    let params = more_params(alloc, around, tokens, depth, first)?;
    tokens.expect(")")?;
    Ok(params)
}

/// The parameters after the first, each with a `,` before it.
fn more_params(
    alloc: Global,
    around: &Around<'_>,
    tokens: &mut Cursor<'_>,
    depth: u32,
    first: ParamTree,
) -> Result<ParamList, Stop>
    ensures { Gives (read (known around.now) depth
        (more_of (known around.now) (first ∷ []) (param (known around.now))) tokens.old) result
        tokens.new }
{
    let mut params = Vec::new(alloc);
    params.push(first)?;
    while tokens.sees(",") {
        tokens.expect(",")?;
        params.push(param(alloc, around, tokens, depth)?)?;
    }
    Ok(ListOf::from_vec(params))
}

/// The block of a function, after its result.
fn func_body<B: Bodies>(
    alloc: Global,
    bodies: &B,
    around: &Around<'_>,
    tokens: &mut Cursor<'_>,
    depth: u32,
    ty: &Option<Typed<'_>>,
) -> Result<Block, Stop>
    ensures { Gives (read (known around.now) depth
        (block (returning (known around.now) (wanted_of ty.now))) tokens.old) result tokens.new }
{
    bodies.block(alloc, &around.returning(wanted_of(ty)), tokens, depth)
}

/// A function from its `func` on, after the isolation that is written.
#[tactic(auto, unfolding(sw_grammar::specs::Decls::func_after))]
pub fn func_after<B: Bodies>(
    alloc: Global,
    bodies: &B,
    around: &Around<'_>,
    tokens: &mut Cursor<'_>,
    depth: u32,
    written: Written,
) -> Result<FuncTree, Stop>
    ensures { Gives (read (known around.now) depth (func_after (known around.now) written)
        tokens.old)
        result tokens.new }
{
    tokens.expect("func")?;
    let word = declared(around, tokens, depth)?;
    let params = params(alloc, around, tokens, depth)?;
    let is_async = async_if(around, tokens, depth, &written)?;
    let (sends, result) = sent_result(alloc, around, tokens, depth)?;
    let body = func_body(alloc, bodies, around, tokens, depth, &result)?;
    Ok(FuncTree {
        written,
        word,
        params,
        is_async,
        sends,
        result: tree_of(result),
        body,
    })
}

/// A function of a type.
#[tactic(auto, unfolding(sw_grammar::specs::Decls::method))]
pub fn method<B: Bodies>(
    alloc: Global,
    bodies: &B,
    around: &Around<'_>,
    tokens: &mut Cursor<'_>,
    depth: u32,
) -> Result<FuncTree, Stop>
    ensures { Gives (read (known around.now) depth (method (known around.now)) tokens.old) result
        tokens.new }
{
    if sees_attribute(tokens) {
        let mark = attribute(around, tokens)?;
        return func_after(alloc, bodies, around, tokens, depth, Written::At(mark));
    }
    if tokens.sees("nonisolated") {
        let written = nonisolated(around, tokens, depth)?;
        return func_after(alloc, bodies, around, tokens, depth, written);
    }
    if tokens.sees("@concurrent") {
        let written = concurrent(around, tokens, depth)?;
        return func_after(alloc, bodies, around, tokens, depth, written);
    }
    func_after(alloc, bodies, around, tokens, depth, Written::Absent)
}
