//! `switch` and its arms.

ghost use Rattle.std.specs.Prelude.{◌≡◌, ◌||◌, [], false, codes};
ghost use Rattle.sw_grammar_forms.specs.Outcome.{Gives};
ghost use Rattle.sw_grammar_forms.specs.Quotes.{quote};
ghost use Rattle.sw_grammar_forms.specs.Relations.{head};
ghost use Rattle.sw_grammar_forms.specs.Sets.{quoted, starts};
ghost use Rattle.sw_grammar.specs.Around.{with_break};
ghost use Rattle.sw_grammar.specs.Stmts as stmts;
ghost use Rattle.sw_grammar.specs.Nests.Nest.{in_switch};
ghost use Rattle.sw_grammar.specs.Reading.{read};
ghost use Rattle.sw_grammar.specs.Tokens.{stmt_first};
ghost use Rattle.sw_parse_parts.specs.Around.{known};
ghost use Rattle.sw_parse_parts.specs.Nested.{nested};
ghost use Rattle.sw_parse_expr.specs.Below.{Below};
ghost use Rattle.sw_parse_stmt.specs.Parts.{arm_items, default_if, more_cases, one_case};
ghost use Rattle.sw_parse_stmt.specs.Parts.{one_default};

use std::alloc::Global;
use sw_grammar_forms::{Cursor, Stop};
use sw_list::ListOf;
use sw_parse_expr::{Inner, block_items, expr};
use sw_parse_parts::{Around, patterns_if, sees_stmt, word};
use sw_tree::{Block, CaseArm, CaseArmList, Stmt, StmtList};

/// A `switch`.
#[tactic(auto, unfolding(sw_grammar::specs::Stmts::switch_stmt))]
pub fn switch_stmt<I: Inner>(
    alloc: Global,
    inner: &I,
    around: &Around<'_>,
    tokens: &mut Cursor<'_>,
    depth: u32,
) -> Result<Stmt, Stop>
    requires { Below I.reads inner.now depth }
    ensures { Gives (read (known around.now) depth (stmts.switch_stmt (known around.now))
        tokens.old)
        result tokens.new }
{
    let at = tokens.expect("switch")?;
    let subject = expr(alloc, inner, around, tokens, depth, false)?;
    let (arms, otherwise) = arms(alloc, inner, around, tokens, depth)?;
    Ok(Stmt::Switch {
        at,
        subject,
        arms,
        otherwise,
    })
}

/// The arms of a `switch` and its `default`, in `{` and `}`. A `break` may leave them.
fn arms<I: Inner>(
    alloc: Global,
    inner: &I,
    around: &Around<'_>,
    tokens: &mut Cursor<'_>,
    depth: u32,
) -> Result<(CaseArmList, Option<Block>), Stop>
    requires { Below I.reads inner.now depth }
    ensures { Gives (nested (known around.now) depth (quote (codes "{"))
        (in_switch (with_break (known around.now)).here) tokens.old) result tokens.new }
{
    tokens.open("{", depth)?;
    let inside = around.with_break();
    switch_inside(alloc, inner, &inside, tokens, depth - 1)
}

/// Arms and a `default`, up to their `}`.
#[tactic(auto, unfolding(sw_grammar::specs::Stmts::switch_inside))]
fn switch_inside<I: Inner>(
    alloc: Global,
    inner: &I,
    around: &Around<'_>,
    tokens: &mut Cursor<'_>,
    depth: u32,
) -> Result<(CaseArmList, Option<Block>), Stop>
    requires { I.reads inner.now depth }
    ensures { Gives (read (known around.now) depth
        (stmts.switch_inside (known around.now)) tokens.old) result tokens.new }
{
    let (cases, ended) = cases(alloc, inner, around, tokens, depth)?;
    let otherwise = default_if(alloc, inner, around, tokens, depth, ended)?;
    tokens.expect("}")?;
    Ok((cases, otherwise))
}

/// All arms with a `case`, and whether a `;` ends the last.
fn cases<I: Inner>(
    alloc: Global,
    inner: &I,
    around: &Around<'_>,
    tokens: &mut Cursor<'_>,
    depth: u32,
) -> Result<(CaseArmList, bool), Stop>
    requires { I.reads inner.now depth }
    ensures { Gives (read (known around.now) depth
        (more_cases (known around.now) ([], false)) tokens.old) result tokens.new }
{
    let mut cases = ListOf::new(alloc);
    let mut ended = false;
    while tokens.sees("case") {
        tokens.start(!ended)?;
        (cases, ended) = case_part(alloc, inner, around, tokens, depth, cases)?;
    }
    Ok((cases, ended))
}

/// One more arm after these, and whether a `;` ends it.
fn case_part<I: Inner>(
    alloc: Global,
    inner: &I,
    around: &Around<'_>,
    tokens: &mut Cursor<'_>,
    depth: u32,
    cases: CaseArmList,
) -> Result<(CaseArmList, bool), Stop>
    requires { I.reads inner.now depth }
    ensures { Gives (one_case (known around.now) depth cases tokens.old) result tokens.new }
{
    tokens.expect("case")?;
    tokens.expect(".")?;
    let name = word(around, tokens)?;
    let patterns = patterns_if(alloc, around, tokens, depth)?;
    tokens.expect(":")?;
    let (stmts, ended) = arm_body(alloc, inner, around, tokens, depth)?;
    let mut cases = cases;
    cases.push(CaseArm {
        name,
        patterns,
        body: Block { stmts },
    })?;
    Ok((cases, ended))
}

/// The `default`, where it comes.
fn default_if<I: Inner>(
    alloc: Global,
    inner: &I,
    around: &Around<'_>,
    tokens: &mut Cursor<'_>,
    depth: u32,
    ended: bool,
) -> Result<Option<Block>, Stop>
    requires { I.reads inner.now depth }
    ensures { Gives (read (known around.now) depth (default_if (known around.now) ended) tokens.old)
        result tokens.new }
{
    if !tokens.sees("default") {
        return Ok(None);
    }
    tokens.start(!ended)?;
    default_part(alloc, inner, around, tokens, depth)
}

/// The `default`.
fn default_part<I: Inner>(
    alloc: Global,
    inner: &I,
    around: &Around<'_>,
    tokens: &mut Cursor<'_>,
    depth: u32,
) -> Result<Option<Block>, Stop>
    requires { I.reads inner.now depth }
    ensures { Gives (one_default (known around.now) depth tokens.old) result tokens.new }
{
    tokens.expect("default")?;
    tokens.expect(":")?;
    let (stmts, _) = arm_body(alloc, inner, around, tokens, depth)?;
    Ok(Some(Block { stmts }))
}

/// Whether the next token begins a statement of a block, or an `async let`.
fn sees_item(tokens: &Cursor<'_>) -> bool
    ensures { result ≡ (starts stmt_first (head tokens.now)
        || starts (quoted (codes "async")) (head tokens.now)) }
{
    sees_stmt(tokens) || tokens.sees("async")
}

/// What an arm does, one statement or `async let` at least, and whether a `;` ends the last.
fn arm_body<I: Inner>(
    alloc: Global,
    inner: &I,
    around: &Around<'_>,
    tokens: &mut Cursor<'_>,
    depth: u32,
) -> Result<(StmtList, bool), Stop>
    requires { I.reads inner.now depth }
    ensures { Gives (arm_items (known around.now) depth tokens.old) result tokens.new }
{
    if !sees_item(tokens) {
        return Err(tokens.stop());
    }
    block_items(alloc, inner, around, tokens, depth)
}
