//! What closures and tasks have before their statements.

ghost use Rattle.std.specs.Prelude.{[], ◌∷◌, codes};
ghost use Rattle.sw_grammar_forms.specs.Form.Form.{nest};
ghost use Rattle.sw_grammar_forms.specs.Quotes.{quote};
ghost use Rattle.sw_grammar.specs.Nests.{in_captures, in_closure_params, in_empty};
ghost use Rattle.sw_grammar.specs.Types.{some_of, more_of};
ghost use Rattle.sw_grammar.specs.Closures.{captured, captured_words, captures, captures_if};
ghost use Rattle.sw_grammar.specs.Closures.{closure_param, closure_params, result_if, signature};
ghost use Rattle.sw_grammar.specs.Closures.{signature_if, task_signature, task_signature_if};
ghost use Rattle.sw_grammar_forms.specs.Outcome.{Gives};
ghost use Rattle.sw_grammar.specs.Reading.{read};
ghost use Rattle.sw_parse_parts.specs.Around.{known};

use super::around::Around;
use super::types::{Typed, type_tree, written_type};
use super::words::{new_name, word};
use std::alloc::Global;
use sw_grammar_forms::{Cursor, Stop};
use sw_list::ListOf;
use sw_tree::{ClosureParam, ClosureParamList, Name, NameList};

/// The words of a capture list, in `[` and `]`.
#[tactic(auto, unfolding(sw_grammar::specs::Closures::captures))]
pub fn captures(
    alloc: Global,
    around: &Around<'_>,
    tokens: &mut Cursor<'_>,
    depth: u32,
) -> Result<NameList, Stop>
    ensures { Gives (read (known around.now) depth (captures (known around.now)) tokens.old) result
        tokens.new }
{
    let (_, words) = captured_list(alloc, around, tokens, depth)?;
    Ok(words)
}

/// The words of a capture list, and where its `[` stands.
fn captured_list(
    alloc: Global,
    around: &Around<'_>,
    tokens: &mut Cursor<'_>,
    depth: u32,
) -> Result<(u32, NameList), Stop>
    ensures { Gives (read (known around.now) depth (nest (quote (codes "[")) in_captures)
        tokens.old) result tokens.new }
{
    let at = tokens.open("[", depth)?;
    let inside = captured_words(alloc, around, tokens, depth - 1)?;
    Ok((at, inside))
}

/// The words of a capture list up to its `]`.
#[tactic(auto, unfolding(sw_grammar::specs::Closures::captured_words))]
fn captured_words(
    alloc: Global,
    around: &Around<'_>,
    tokens: &mut Cursor<'_>,
    depth: u32,
) -> Result<NameList, Stop>
    ensures { Gives (read (known around.now) depth (captured_words (known around.now)) tokens.old)
        result tokens.new }
{
    let first = captured(around, tokens, depth)?;
    let words = more_captured(alloc, around, tokens, depth, first)?;
    tokens.expect("]")?;
    Ok(words)
}

/// A word of a capture list.
#[tactic(auto, unfolding(sw_grammar::specs::Closures::captured))]
fn captured(around: &Around<'_>, tokens: &mut Cursor<'_>, depth: u32) -> Result<Name, Stop>
    ensures { Gives (read (known around.now) depth (captured (known around.now)) tokens.old) result
        tokens.new }
{
    word(around, tokens)
}

/// The words of a capture list after the first, each with a `,` before it.
fn more_captured(
    alloc: Global,
    around: &Around<'_>,
    tokens: &mut Cursor<'_>,
    depth: u32,
    first: Name,
) -> Result<NameList, Stop>
    ensures { Gives (read (known around.now) depth (more_of (known around.now) (first ∷ [])
        (captured (known around.now))) tokens.old) result tokens.new }
{
    let mut words = Vec::new(alloc);
    words.push(first)?;
    while tokens.skip(",") {
        words.push(captured(around, tokens, depth)?)?;
    }
    Ok(ListOf::from_vec(words))
}

/// The words of a capture list, where it comes; else none.
#[tactic(auto, unfolding(sw_grammar::specs::Closures::captures_if))]
pub fn captures_if(
    alloc: Global,
    around: &Around<'_>,
    tokens: &mut Cursor<'_>,
    depth: u32,
) -> Result<NameList, Stop>
    ensures { Gives (read (known around.now) depth (captures_if (known around.now)) tokens.old)
        result tokens.new }
{
    if !tokens.sees("[") {
        return Ok(ListOf::new(alloc));
    }
    captures(alloc, around, tokens, depth)
}

/// A parameter of a closure.
#[tactic(auto, unfolding(sw_grammar::specs::Closures::closure_param))]
fn closure_param(
    alloc: Global,
    around: &Around<'_>,
    tokens: &mut Cursor<'_>,
    depth: u32,
) -> Result<ClosureParam, Stop>
    ensures { Gives (read (known around.now) depth (closure_param (known around.now)) tokens.old)
        result tokens.new }
{
    let name = new_name(around, tokens)?;
    tokens.expect(":")?;
    let ty = type_tree(alloc, around, tokens, depth)?;
    Ok(ClosureParam { name, ty })
}

/// The parameters of a closure, and where their `(` stands.
fn closure_params(
    alloc: Global,
    around: &Around<'_>,
    tokens: &mut Cursor<'_>,
    depth: u32,
) -> Result<(u32, ClosureParamList), Stop>
    ensures { Gives (read (known around.now) depth (nest (quote (codes "("))
        (in_closure_params (known around.now).here)) tokens.old) result tokens.new }
{
    let at = tokens.open("(", depth)?;
    let inside = params_inside(alloc, around, tokens, depth - 1)?;
    Ok((at, inside))
}

/// The parameters of a closure up to their `)`; there may be none.
#[tactic(auto, unfolding(sw_grammar::specs::Closures::closure_params))]
fn params_inside(
    alloc: Global,
    around: &Around<'_>,
    tokens: &mut Cursor<'_>,
    depth: u32,
) -> Result<ClosureParamList, Stop>
    ensures { Gives (read (known around.now) depth (closure_params (known around.now)) tokens.old)
        result tokens.new }
{
    if tokens.sees(")") {
        tokens.expect(")")?;
        return Ok(ListOf::new(alloc));
    }
    some_params(alloc, around, tokens, depth)
}

/// One parameter at least, up to a `)`.
fn some_params(
    alloc: Global,
    around: &Around<'_>,
    tokens: &mut Cursor<'_>,
    depth: u32,
) -> Result<ClosureParamList, Stop>
    ensures { Gives (read (known around.now) depth (some_of (known around.now) (codes ")")
        (closure_param (known around.now))) tokens.old) result tokens.new }
{
    let first = closure_param(alloc, around, tokens, depth)?;
    let params = more_params(alloc, around, tokens, depth, first)?;
    tokens.expect(")")?;
    Ok(params)
}

/// The parameters after the first, each with a `,` before it.
fn more_params(
    alloc: Global,
    around: &Around<'_>,
    tokens: &mut Cursor<'_>,
    depth: u32,
    first: ClosureParam,
) -> Result<ClosureParamList, Stop>
    ensures { Gives (read (known around.now) depth (more_of (known around.now) (first ∷ [])
        (closure_param (known around.now))) tokens.old) result tokens.new }
{
    let mut params = Vec::new(alloc);
    params.push(first)?;
    while tokens.skip(",") {
        params.push(closure_param(alloc, around, tokens, depth)?)?;
    }
    Ok(ListOf::from_vec(params))
}

/// `->` and a result type, or nothing.
#[tactic(auto, unfolding(sw_grammar::specs::Closures::result_if))]
fn result_if<'a>(
    alloc: Global,
    around: &Around<'_>,
    tokens: &mut Cursor<'a>,
    depth: u32,
) -> Result<Option<Typed<'a>>, Stop>
    ensures { Gives (read (known around.now) depth (result_if (known around.now)) tokens.old) result
        tokens.new }
{
    if !tokens.sees("->") {
        return Ok(None);
    }
    tokens.expect("->")?;
    Ok(Some(written_type(alloc, around, tokens, depth)?))
}

/// The parameters of a closure, in `(` and `)`, and its result type, where it comes.
#[tactic(auto, unfolding(sw_grammar::specs::Closures::signature))]
pub fn signature<'a>(
    alloc: Global,
    around: &Around<'_>,
    tokens: &mut Cursor<'a>,
    depth: u32,
) -> Result<(ClosureParamList, Option<Typed<'a>>), Stop>
    ensures { Gives (read (known around.now) depth (signature (known around.now)) tokens.old) result
        tokens.new }
{
    let (_, params) = closure_params(alloc, around, tokens, depth)?;
    let result = result_if(alloc, around, tokens, depth)?;
    Ok((params, result))
}

/// The parameters of a closure and its result type, where a `(` comes; else neither.
#[tactic(auto, unfolding(sw_grammar::specs::Closures::signature_if))]
pub fn signature_if<'a>(
    alloc: Global,
    around: &Around<'_>,
    tokens: &mut Cursor<'a>,
    depth: u32,
) -> Result<(ClosureParamList, Option<Typed<'a>>), Stop>
    ensures { Gives (read (known around.now) depth (signature_if (known around.now)) tokens.old)
        result tokens.new }
{
    if !tokens.sees("(") {
        return Ok((ListOf::new(alloc), None));
    }
    signature(alloc, around, tokens, depth)
}

/// The `()` of a task's closure, `async` where it comes, and its result type where it comes. A task
/// has no parameters, so the list is empty.
#[tactic(auto, unfolding(sw_grammar::specs::Closures::task_signature))]
pub fn task_signature<'a>(
    alloc: Global,
    around: &Around<'_>,
    tokens: &mut Cursor<'a>,
    depth: u32,
) -> Result<(ClosureParamList, Option<Typed<'a>>), Stop>
    ensures { Gives (read (known around.now) depth (task_signature (known around.now)) tokens.old)
        result tokens.new }
{
    empty(around, tokens, depth)?;
    tokens.skip("async");
    let result = result_if(alloc, around, tokens, depth)?;
    Ok((ListOf::new(alloc), result))
}

/// Where a `(` comes, the `()` of a task's closure, with `async` and its result type where these
/// come; else no parameters and no result type.
#[tactic(auto, unfolding(sw_grammar::specs::Closures::task_signature_if))]
pub fn task_signature_if<'a>(
    alloc: Global,
    around: &Around<'_>,
    tokens: &mut Cursor<'a>,
    depth: u32,
) -> Result<(ClosureParamList, Option<Typed<'a>>), Stop>
    ensures { Gives (read (known around.now) depth (task_signature_if (known around.now))
        tokens.old) result tokens.new }
{
    if !tokens.sees("(") {
        return Ok((ListOf::new(alloc), None));
    }
    task_signature(alloc, around, tokens, depth)
}

/// `()`; gives where both brackets stand.
#[tactic(auto, unfolding(sw_grammar::specs::Exprs::nothing))]
pub fn empty(around: &Around<'_>, tokens: &mut Cursor<'_>, depth: u32) -> Result<(u32, u32), Stop>
    ensures { Gives (read (known around.now) depth (nest (quote (codes "(")) in_empty) tokens.old)
        result tokens.new }
{
    let at = tokens.open("(", depth)?;
    let inside = tokens.expect(")")?;
    Ok((at, inside))
}
