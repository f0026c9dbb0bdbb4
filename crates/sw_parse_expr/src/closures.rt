//! Closures, and the bodies of tasks.

ghost use Rattle.std.specs.Prelude.{◌≡◌, codes};
ghost use Rattle.sw_grammar_forms.specs.Outcome.{Gives};
ghost use Rattle.sw_grammar_forms.specs.Form.Form.{nest};
ghost use Rattle.sw_grammar_forms.specs.Quotes.{quote};
ghost use Rattle.sw_grammar_forms.specs.Reader.{then_read, pure};
ghost use Rattle.sw_grammar.specs.Exprs as exprs;
ghost use Rattle.sw_grammar.specs.Closures as closures;
ghost use Rattle.sw_grammar.specs.Stmts as stmts;
ghost use Rattle.sw_grammar.specs.Nests.Nest.{in_closure, in_task};
ghost use Rattle.sw_grammar.specs.Reading.{read};
ghost use Rattle.sw_parse_parts.specs.Around.{known};
ghost use Rattle.sw_parse_parts.specs.Nested.{made};
ghost use Rattle.sw_parse_expr.specs.Below.{Below};
ghost use Rattle.sw_parse_expr.specs.Headers.{header_value, closure_of, result_stmts};
ghost use Rattle.sw_parse_expr.specs.Headers.{marked_header};
ghost use Rattle.sw_parse_expr.specs.Headers.{captured_header, signed_header};
ghost use Rattle.sw_parse_expr.specs.Headers.{marked_task_header, captured_task_header};
ghost use Rattle.sw_parse_expr.specs.Headers.{signed_task_header};

use super::blocks::stmts_inside;
use super::inner::Inner;
use std::alloc::Global;
use sw_grammar_forms::{Cursor, Stop};
use sw_list::ListOf;
use sw_parse_parts::{
    Around, Typed, attribute, captures, captures_if, sees_attribute, sendable, signature,
    signature_if, task_signature, task_signature_if, tree_of, wanted_of,
};
use sw_tree::{Block, Closure, ClosureParamList, Name, NameList, StmtList};

/// What a closure has before its statements.
#[derive(Drop)]
pub struct Header<'a> {
    /// `@Sendable`, or a task's global actor.
    pub mark: Option<Name>,
    pub captures: NameList,
    pub params: ClosureParamList,
    pub result: Option<Typed<'a>>,
}

/// The header of a closure, where it comes.
#[tactic(auto, unfolding(sw_grammar::specs::Closures::header))]
fn closure_header<'a>(
    alloc: Global,
    around: &Around<'_>,
    tokens: &mut Cursor<'a>,
    depth: u32,
) -> Result<Header<'a>, Stop>
    ensures { Gives (made header_value (read (known around.now) depth
        (closures.header (known around.now))) tokens.old) result tokens.new }
{
    if tokens.sees("@Sendable") {
        return marked_header(alloc, around, tokens, depth);
    }
    if tokens.sees("[") {
        return captured_header(alloc, around, tokens, depth);
    }
    if tokens.sees("(") {
        return signed_header(alloc, around, tokens, depth);
    }
    Ok(no_header(alloc))
}

/// The header of a task's body, where it comes.
#[tactic(auto, unfolding(sw_grammar::specs::Closures::task_header))]
fn task_header<'a>(
    alloc: Global,
    around: &Around<'_>,
    tokens: &mut Cursor<'a>,
    depth: u32,
) -> Result<Header<'a>, Stop>
    ensures { Gives (made header_value (read (known around.now) depth
        (closures.task_header (known around.now))) tokens.old) result tokens.new }
{
    if sees_attribute(tokens) {
        return marked_task_header(alloc, around, tokens, depth);
    }
    if tokens.sees("[") {
        return captured_task_header(alloc, around, tokens, depth);
    }
    if tokens.sees("(") {
        return signed_task_header(alloc, around, tokens, depth);
    }
    Ok(no_header(alloc))
}

/// The statements of a body with this result type, up to their `}`.
fn result_stmts<I: Inner>(
    alloc: Global,
    inner: &I,
    around: &Around<'_>,
    tokens: &mut Cursor<'_>,
    depth: u32,
    result_type: &Option<Typed<'_>>,
) -> Result<StmtList, Stop>
    requires { I.reads inner.now depth }
    ensures { Gives (result_stmts (known around.now) depth result_type.now tokens.old) result
        tokens.new }
{
    let within = around.returning(wanted_of(result_type));
    stmts_inside(alloc, inner, &within, tokens, depth)
}

/// A closure, from its `{` to its `}`.
pub fn closure<I: Inner>(
    alloc: Global,
    inner: &I,
    around: &Around<'_>,
    tokens: &mut Cursor<'_>,
    depth: u32,
) -> Result<Closure, Stop>
    requires { Below I.reads inner.now depth }
    ensures { Gives (then_read (read (known around.now) depth (nest (quote (codes "{"))
        (in_closure (known around.now).here)))
        (λ x. pure (exprs.closure_at x.0 x.1)) tokens.old) result tokens.new }
{
    let at = tokens.open("{", depth)?;
    closure_inside(alloc, inner, around, tokens, depth - 1, at)
}

/// A closure after its `{`, which stands at this position.
fn closure_inside<I: Inner>(
    alloc: Global,
    inner: &I,
    around: &Around<'_>,
    tokens: &mut Cursor<'_>,
    depth: u32,
    at: u32,
) -> Result<Closure, Stop>
    requires { I.reads inner.now depth }
    ensures { Gives (made (exprs.closure_at at) (read (known around.now) depth
        (stmts.closure_inside (known around.now))) tokens.old) result tokens.new }
{
    let header = closure_header(alloc, around, tokens, depth)?;
    let stmts = result_stmts(alloc, inner, around, tokens, depth, &header.result)?;
    Ok(closure_of(at, header, stmts))
}

/// The body of a task, from its `{` to its `}`.
pub fn task_body<I: Inner>(
    alloc: Global,
    inner: &I,
    around: &Around<'_>,
    tokens: &mut Cursor<'_>,
    depth: u32,
) -> Result<Closure, Stop>
    requires { Below I.reads inner.now depth }
    ensures { Gives (then_read (read (known around.now) depth (nest (quote (codes "{"))
        (in_task (known around.now).here)))
        (λ x. pure (exprs.closure_at x.0 x.1)) tokens.old) result tokens.new }
{
    let at = tokens.open("{", depth)?;
    task_inside(alloc, inner, around, tokens, depth - 1, at)
}

/// The body of a task after its `{`, which stands at this position.
fn task_inside<I: Inner>(
    alloc: Global,
    inner: &I,
    around: &Around<'_>,
    tokens: &mut Cursor<'_>,
    depth: u32,
    at: u32,
) -> Result<Closure, Stop>
    requires { I.reads inner.now depth }
    ensures { Gives (made (exprs.closure_at at) (read (known around.now) depth
        (stmts.task_inside (known around.now))) tokens.old) result tokens.new }
{
    let header = task_header(alloc, around, tokens, depth)?;
    let stmts = result_stmts(alloc, inner, around, tokens, depth, &header.result)?;
    Ok(closure_of(at, header, stmts))
}

/// A closure with these statements.
fn closure_of(at: u32, header: Header<'_>, stmts: StmtList) -> Closure
    ensures { result ≡ closure_of at header.entry stmts }
{
    Closure {
        at,
        mark: header.mark,
        captures: header.captures,
        params: header.params,
        result: tree_of(header.result),
        body: Block { stmts },
    }
}

/// No header.
fn no_header<'a>(alloc: Global) -> Header<'a>
    ensures { result ≡ header_value closures.no_header }
{
    Header {
        mark: None,
        captures: ListOf::new(alloc),
        params: ListOf::new(alloc),
        result: None,
    }
}

/// A closure's header that begins with `@Sendable`.
fn marked_header<'a>(
    alloc: Global,
    around: &Around<'_>,
    tokens: &mut Cursor<'a>,
    depth: u32,
) -> Result<Header<'a>, Stop>
    ensures { Gives (made header_value (read (known around.now) depth
        (marked_header (known around.now)))
        tokens.old) result tokens.new }
{
    let mark = sendable(around, tokens)?;
    let captures = captures_if(alloc, around, tokens, depth)?;
    let (params, result) = signature_if(alloc, around, tokens, depth)?;
    tokens.expect("in")?;
    Ok(Header {
        mark: Some(mark),
        captures,
        params,
        result,
    })
}

/// A closure's header that begins with a capture list.
fn captured_header<'a>(
    alloc: Global,
    around: &Around<'_>,
    tokens: &mut Cursor<'a>,
    depth: u32,
) -> Result<Header<'a>, Stop>
    ensures { Gives (made header_value (read (known around.now) depth
        (captured_header (known around.now)))
        tokens.old) result tokens.new }
{
    let captures = captures(alloc, around, tokens, depth)?;
    let (params, result) = signature_if(alloc, around, tokens, depth)?;
    tokens.expect("in")?;
    Ok(Header {
        mark: None,
        captures,
        params,
        result,
    })
}

/// A closure's header that begins with its parameters.
fn signed_header<'a>(
    alloc: Global,
    around: &Around<'_>,
    tokens: &mut Cursor<'a>,
    depth: u32,
) -> Result<Header<'a>, Stop>
    ensures { Gives (made header_value (read (known around.now) depth
        (signed_header (known around.now)))
        tokens.old) result tokens.new }
{
    let (params, result) = signature(alloc, around, tokens, depth)?;
    tokens.expect("in")?;
    Ok(Header {
        mark: None,
        captures: ListOf::new(alloc),
        params,
        result,
    })
}

/// A task's header that begins with an attribute.
fn marked_task_header<'a>(
    alloc: Global,
    around: &Around<'_>,
    tokens: &mut Cursor<'a>,
    depth: u32,
) -> Result<Header<'a>, Stop>
    ensures { Gives (made header_value (read (known around.now) depth
        (marked_task_header (known around.now)))
        tokens.old) result tokens.new }
{
    let mark = attribute(around, tokens)?;
    let captures = captures_if(alloc, around, tokens, depth)?;
    let (params, result) = task_signature_if(alloc, around, tokens, depth)?;
    tokens.expect("in")?;
    Ok(Header {
        mark: Some(mark),
        captures,
        params,
        result,
    })
}

/// A task's header that begins with a capture list.
fn captured_task_header<'a>(
    alloc: Global,
    around: &Around<'_>,
    tokens: &mut Cursor<'a>,
    depth: u32,
) -> Result<Header<'a>, Stop>
    ensures { Gives (made header_value (read (known around.now) depth
        (captured_task_header (known around.now)))
        tokens.old) result tokens.new }
{
    let captures = captures(alloc, around, tokens, depth)?;
    let (params, result) = task_signature_if(alloc, around, tokens, depth)?;
    tokens.expect("in")?;
    Ok(Header {
        mark: None,
        captures,
        params,
        result,
    })
}

/// A task's header that begins with its brackets.
fn signed_task_header<'a>(
    alloc: Global,
    around: &Around<'_>,
    tokens: &mut Cursor<'a>,
    depth: u32,
) -> Result<Header<'a>, Stop>
    ensures { Gives (made header_value (read (known around.now) depth
        (signed_task_header (known around.now)))
        tokens.old) result tokens.new }
{
    let (params, result) = task_signature(alloc, around, tokens, depth)?;
    tokens.expect("in")?;
    Ok(Header {
        mark: None,
        captures: ListOf::new(alloc),
        params,
        result,
    })
}
