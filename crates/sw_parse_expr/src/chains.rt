//! Chains of operators, by their ranks, and whole expressions.

ghost use Rattle.std.specs.Prelude.{◌≡◌, [], IfOk, codes};
ghost use Rattle.sw_grammar_forms.specs.Outcome.{Gives};
ghost use Rattle.sw_grammar.specs.Exprs as exprs;
ghost use Rattle.sw_grammar.specs.Tokens.{times, plus, infix_op, infix_in};
ghost use Rattle.sw_grammar.specs.Reading.{read};
ghost use Rattle.sw_parse_parts.specs.Around.{known};
ghost use Rattle.sw_parse_expr.specs.Below.{Below};
ghost use Rattle.sw_parse_expr.specs.Parts.{links_after, link_with, other_operand};

use super::calls::after_operand;
use super::inner::Inner;
use super::operands::{negated, other_primary, unary};
use std::alloc::{AllocError, Global};
use sw_grammar_forms::{Cursor, Stop};
use sw_list::{Boxed, ListOf};
use sw_parse_parts::{
    Around, infix_and, infix_compare, infix_or, infix_plus, infix_times, sees_compare, sees_plus,
    sees_prefix, sees_times,
};
use sw_sugar::of_task;
use sw_token::Fixity;
use sw_tree::{Expr, Link, LinkList};

/// The operators `*`, `/` and `%` after the first operand.
#[tactic(auto, unfolding(sw_grammar::specs::Exprs::more_times))]
fn more_times<I: Inner>(
    alloc: Global,
    inner: &I,
    around: &Around<'_>,
    tokens: &mut Cursor<'_>,
    depth: u32,
    closures: bool,
    first: Expr,
) -> Result<Expr, Stop>
    requires { Below I.reads inner.now depth }
    ensures { Gives (read (known around.now) depth (exprs.more_times (known around.now) closures
        first) tokens.old) result tokens.new }
{
    let links = times_links(alloc, inner, around, tokens, depth, closures)?;
    Ok(chained(alloc, first, links)?)
}

/// Operands with `*`, `/` and `%` between them.
#[tactic(auto, unfolding(sw_grammar::specs::Exprs::product))]
fn product<I: Inner>(
    alloc: Global,
    inner: &I,
    around: &Around<'_>,
    tokens: &mut Cursor<'_>,
    depth: u32,
    closures: bool,
) -> Result<Expr, Stop>
    requires { Below I.reads inner.now depth }
    ensures { Gives (read (known around.now) depth (exprs.product (known around.now) closures)
        tokens.old) result tokens.new }
{
    let first = unary(alloc, inner, around, tokens, depth, closures)?;
    more_times(alloc, inner, around, tokens, depth, closures, first)
}

/// The operators `+` and `-` after the first operand.
#[tactic(auto, unfolding(sw_grammar::specs::Exprs::more_plus))]
fn more_plus<I: Inner>(
    alloc: Global,
    inner: &I,
    around: &Around<'_>,
    tokens: &mut Cursor<'_>,
    depth: u32,
    closures: bool,
    first: Expr,
) -> Result<Expr, Stop>
    requires { Below I.reads inner.now depth }
    ensures { Gives (read (known around.now) depth (exprs.more_plus (known around.now) closures
        first)
        tokens.old) result tokens.new }
{
    let links = plus_links(alloc, inner, around, tokens, depth, closures)?;
    Ok(chained(alloc, first, links)?)
}

/// Products with `+` and `-` between them.
#[tactic(auto, unfolding(sw_grammar::specs::Exprs::sum))]
fn sum<I: Inner>(
    alloc: Global,
    inner: &I,
    around: &Around<'_>,
    tokens: &mut Cursor<'_>,
    depth: u32,
    closures: bool,
) -> Result<Expr, Stop>
    requires { Below I.reads inner.now depth }
    ensures { Gives (read (known around.now) depth (exprs.sum (known around.now) closures)
        tokens.old)
        result tokens.new }
{
    let first = product(alloc, inner, around, tokens, depth, closures)?;
    more_plus(alloc, inner, around, tokens, depth, closures, first)
}

/// A comparison after its first operand, where it comes. There is at most one.
#[tactic(auto, unfolding(sw_grammar::specs::Exprs::more_compares))]
fn more_compares<I: Inner>(
    alloc: Global,
    inner: &I,
    around: &Around<'_>,
    tokens: &mut Cursor<'_>,
    depth: u32,
    closures: bool,
    first: Expr,
) -> Result<Expr, Stop>
    requires { Below I.reads inner.now depth }
    ensures { Gives (read (known around.now) depth (exprs.more_compares (known around.now) closures
        first) tokens.old) result tokens.new }
{
    if !sees_compare(tokens) {
        return Ok(first);
    }
    let (op, at) = infix_compare(tokens)?;
    let operand = sum(alloc, inner, around, tokens, depth, closures)?;
    let links = ListOf::one(alloc, Link { op, at, operand })?;
    Ok(chained(alloc, first, links)?)
}

/// A sum, or two with a comparison between them.
#[tactic(auto, unfolding(sw_grammar::specs::Exprs::comparison))]
fn comparison<I: Inner>(
    alloc: Global,
    inner: &I,
    around: &Around<'_>,
    tokens: &mut Cursor<'_>,
    depth: u32,
    closures: bool,
) -> Result<Expr, Stop>
    requires { Below I.reads inner.now depth }
    ensures { Gives (read (known around.now) depth (exprs.comparison (known around.now) closures)
        tokens.old) result tokens.new }
{
    let first = sum(alloc, inner, around, tokens, depth, closures)?;
    more_compares(alloc, inner, around, tokens, depth, closures, first)
}

/// The operators `&&` after the first operand.
#[tactic(auto, unfolding(sw_grammar::specs::Exprs::more_and))]
fn more_and<I: Inner>(
    alloc: Global,
    inner: &I,
    around: &Around<'_>,
    tokens: &mut Cursor<'_>,
    depth: u32,
    closures: bool,
    first: Expr,
) -> Result<Expr, Stop>
    requires { Below I.reads inner.now depth }
    ensures { Gives (read (known around.now) depth (exprs.more_and (known around.now) closures
        first)
        tokens.old) result tokens.new }
{
    let links = and_links(alloc, inner, around, tokens, depth, closures)?;
    Ok(chained(alloc, first, links)?)
}

/// Comparisons with `&&` between them.
#[tactic(auto, unfolding(sw_grammar::specs::Exprs::conjunction))]
fn conjunction<I: Inner>(
    alloc: Global,
    inner: &I,
    around: &Around<'_>,
    tokens: &mut Cursor<'_>,
    depth: u32,
    closures: bool,
) -> Result<Expr, Stop>
    requires { Below I.reads inner.now depth }
    ensures { Gives (read (known around.now) depth (exprs.conjunction (known around.now) closures)
        tokens.old) result tokens.new }
{
    let first = comparison(alloc, inner, around, tokens, depth, closures)?;
    more_and(alloc, inner, around, tokens, depth, closures, first)
}

/// The operators `||` after the first operand.
#[tactic(auto, unfolding(sw_grammar::specs::Exprs::more_or))]
fn more_or<I: Inner>(
    alloc: Global,
    inner: &I,
    around: &Around<'_>,
    tokens: &mut Cursor<'_>,
    depth: u32,
    closures: bool,
    first: Expr,
) -> Result<Expr, Stop>
    requires { Below I.reads inner.now depth }
    ensures { Gives (read (known around.now) depth (exprs.more_or (known around.now) closures first)
        tokens.old) result tokens.new }
{
    let links = or_links(alloc, inner, around, tokens, depth, closures)?;
    Ok(chained(alloc, first, links)?)
}

/// All operators after the first operand, with their right operands.
#[tactic(auto, unfolding(sw_grammar::specs::Exprs::more_operands))]
pub fn more_operands<I: Inner>(
    alloc: Global,
    inner: &I,
    around: &Around<'_>,
    tokens: &mut Cursor<'_>,
    depth: u32,
    closures: bool,
    first: Expr,
) -> Result<Expr, Stop>
    requires { Below I.reads inner.now depth }
    ensures { Gives (read (known around.now) depth (exprs.more_operands (known around.now) closures
        first) tokens.old) result tokens.new }
{
    let product = more_times(alloc, inner, around, tokens, depth, closures, first)?;
    let sum = more_plus(alloc, inner, around, tokens, depth, closures, product)?;
    let comparison = more_compares(alloc, inner, around, tokens, depth, closures, sum)?;
    let conjunction = more_and(alloc, inner, around, tokens, depth, closures, comparison)?;
    more_or(alloc, inner, around, tokens, depth, closures, conjunction)
}

/// `await` and what it covers. Of a word that stands for a task it awaits the value.
#[tactic(auto, unfolding(sw_grammar::specs::Exprs::awaited))]
pub fn awaited<I: Inner>(
    alloc: Global,
    inner: &I,
    around: &Around<'_>,
    tokens: &mut Cursor<'_>,
    depth: u32,
    closures: bool,
) -> Result<Expr, Stop>
    requires { Below I.reads inner.now depth }
    ensures { Gives (read (known around.now) depth (exprs.awaited (known around.now) closures)
        tokens.old) result tokens.new }
{
    let at = tokens.expect_whole("await")?;
    let first = unary(alloc, inner, around, tokens, depth, closures)?;
    let whole = more_operands(alloc, inner, around, tokens, depth, closures, first)?;
    let awaited = of_task(alloc, around.task_ids(), at + 1, whole)?;
    Ok(Expr::Await {
        at,
        inner: Boxed::new(alloc, awaited)?,
    })
}

/// An expression.
#[tactic(auto, unfolding(sw_grammar::specs::Exprs::expr))]
pub fn expr<I: Inner>(
    alloc: Global,
    inner: &I,
    around: &Around<'_>,
    tokens: &mut Cursor<'_>,
    depth: u32,
    closures: bool,
) -> Result<Expr, Stop>
    requires { Below I.reads inner.now depth }
    ensures { Gives (read (known around.now) depth (exprs.expr (known around.now) closures)
        tokens.old) result tokens.new }
{
    if tokens.sees("await") {
        return awaited(alloc, inner, around, tokens, depth, closures);
    }
    let first = unary(alloc, inner, around, tokens, depth, closures)?;
    more_operands(alloc, inner, around, tokens, depth, closures, first)
}

/// An expression that begins with neither a word nor `Task`.
#[tactic(auto, unfolding(sw_grammar::specs::Exprs::other_expr))]
pub fn other_expr<I: Inner>(
    alloc: Global,
    inner: &I,
    around: &Around<'_>,
    tokens: &mut Cursor<'_>,
    depth: u32,
) -> Result<Expr, Stop>
    requires { Below I.reads inner.now depth }
    ensures { Gives (read (known around.now) depth (exprs.other_expr (known around.now)) tokens.old)
        result tokens.new }
{
    if tokens.sees("await") {
        return awaited(alloc, inner, around, tokens, depth, true);
    }
    let first = other_operand(alloc, inner, around, tokens, depth)?;
    more_operands(alloc, inner, around, tokens, depth, true, first)
}

/// An operand that begins with neither a word nor `Task`.
fn other_operand<I: Inner>(
    alloc: Global,
    inner: &I,
    around: &Around<'_>,
    tokens: &mut Cursor<'_>,
    depth: u32,
) -> Result<Expr, Stop>
    requires { Below I.reads inner.now depth }
    ensures { Gives (read (known around.now) depth (other_operand (known around.now)) tokens.old)
        result tokens.new }
{
    if sees_prefix(tokens) {
        return negated(alloc, inner, around, tokens, depth, true);
    }
    let base = other_primary(alloc, inner, around, tokens, depth, true)?;
    after_operand(alloc, inner, around, tokens, depth, base)
}

/// A chain of an operand and what comes after it; the operand alone where nothing does.
fn chained(alloc: Global, first: Expr, links: LinkList) -> Result<Expr, AllocError>
    ensures { IfOk result (λ chain. chain ≡ exprs.chained first links) }
{
    if links.is_empty() {
        return Ok(first);
    }
    Ok(Expr::Chain {
        first: Boxed::new(alloc, first)?,
        rest: links,
    })
}

/// Operators `*`, `/` and `%`, each with its right operand.
fn times_links<I: Inner>(
    alloc: Global,
    inner: &I,
    around: &Around<'_>,
    tokens: &mut Cursor<'_>,
    depth: u32,
    closures: bool,
) -> Result<LinkList, Stop>
    requires { Below I.reads inner.now depth }
    ensures { Gives (read (known around.now) depth (links_after [] (infix_in times (codes "*"))
        (exprs.unary (known around.now) closures)) tokens.old) result tokens.new }
{
    let mut links = Vec::new(alloc);
    while sees_times(tokens) {
        links.push(times_link(alloc, inner, around, tokens, depth, closures)?)?;
    }
    Ok(ListOf::from_vec(links))
}

/// An operator `*`, `/` or `%`, with its right operand.
fn times_link<I: Inner>(
    alloc: Global,
    inner: &I,
    around: &Around<'_>,
    tokens: &mut Cursor<'_>,
    depth: u32,
    closures: bool,
) -> Result<Link, Stop>
    requires { Below I.reads inner.now depth }
    ensures { Gives (link_with (infix_in times (codes "*")) (read (known around.now) depth
        (exprs.unary (known around.now) closures)) tokens.old) result tokens.new }
{
    let (op, at) = infix_times(tokens)?;
    let operand = unary(alloc, inner, around, tokens, depth, closures)?;
    Ok(Link { op, at, operand })
}

/// Operators `+` and `-`, each with its right operand.
fn plus_links<I: Inner>(
    alloc: Global,
    inner: &I,
    around: &Around<'_>,
    tokens: &mut Cursor<'_>,
    depth: u32,
    closures: bool,
) -> Result<LinkList, Stop>
    requires { Below I.reads inner.now depth }
    ensures { Gives (read (known around.now) depth (links_after [] (infix_in plus (codes "+"))
        (exprs.product (known around.now) closures)) tokens.old) result tokens.new }
{
    let mut links = Vec::new(alloc);
    while sees_plus(tokens) {
        links.push(plus_link(alloc, inner, around, tokens, depth, closures)?)?;
    }
    Ok(ListOf::from_vec(links))
}

/// An operator `+` or `-`, with its right operand.
fn plus_link<I: Inner>(
    alloc: Global,
    inner: &I,
    around: &Around<'_>,
    tokens: &mut Cursor<'_>,
    depth: u32,
    closures: bool,
) -> Result<Link, Stop>
    requires { Below I.reads inner.now depth }
    ensures { Gives (link_with (infix_in plus (codes "+")) (read (known around.now) depth
        (exprs.product (known around.now) closures)) tokens.old) result tokens.new }
{
    let (op, at) = infix_plus(tokens)?;
    let operand = product(alloc, inner, around, tokens, depth, closures)?;
    Ok(Link { op, at, operand })
}

/// Operators `&&`, each with its right operand.
fn and_links<I: Inner>(
    alloc: Global,
    inner: &I,
    around: &Around<'_>,
    tokens: &mut Cursor<'_>,
    depth: u32,
    closures: bool,
) -> Result<LinkList, Stop>
    requires { Below I.reads inner.now depth }
    ensures { Gives (read (known around.now) depth (links_after []
        (infix_in (infix_op (codes "&&")) (codes "&&"))
        (exprs.comparison (known around.now) closures)) tokens.old) result tokens.new }
{
    let mut links = Vec::new(alloc);
    while tokens.sees_operator("&&", Fixity::Infix) {
        links.push(and_link(alloc, inner, around, tokens, depth, closures)?)?;
    }
    Ok(ListOf::from_vec(links))
}

/// An operator `&&`, with its right operand.
fn and_link<I: Inner>(
    alloc: Global,
    inner: &I,
    around: &Around<'_>,
    tokens: &mut Cursor<'_>,
    depth: u32,
    closures: bool,
) -> Result<Link, Stop>
    requires { Below I.reads inner.now depth }
    ensures { Gives (link_with (infix_in (infix_op (codes "&&")) (codes "&&"))
        (read (known around.now) depth (exprs.comparison (known around.now) closures)) tokens.old)
        result tokens.new }
{
    let (op, at) = infix_and(tokens)?;
    let operand = comparison(alloc, inner, around, tokens, depth, closures)?;
    Ok(Link { op, at, operand })
}

/// Operators `||`, each with its right operand.
fn or_links<I: Inner>(
    alloc: Global,
    inner: &I,
    around: &Around<'_>,
    tokens: &mut Cursor<'_>,
    depth: u32,
    closures: bool,
) -> Result<LinkList, Stop>
    requires { Below I.reads inner.now depth }
    ensures { Gives (read (known around.now) depth (links_after []
        (infix_in (infix_op (codes "||")) (codes "||"))
        (exprs.conjunction (known around.now) closures)) tokens.old) result tokens.new }
{
    let mut links = Vec::new(alloc);
    while tokens.sees_operator("||", Fixity::Infix) {
        links.push(or_link(alloc, inner, around, tokens, depth, closures)?)?;
    }
    Ok(ListOf::from_vec(links))
}

/// An operator `||`, with its right operand.
fn or_link<I: Inner>(
    alloc: Global,
    inner: &I,
    around: &Around<'_>,
    tokens: &mut Cursor<'_>,
    depth: u32,
    closures: bool,
) -> Result<Link, Stop>
    requires { Below I.reads inner.now depth }
    ensures { Gives (link_with (infix_in (infix_op (codes "||")) (codes "||"))
        (read (known around.now) depth (exprs.conjunction (known around.now) closures)) tokens.old)
        result tokens.new }
{
    let (op, at) = infix_or(tokens)?;
    let operand = conjunction(alloc, inner, around, tokens, depth, closures)?;
    Ok(Link { op, at, operand })
}
