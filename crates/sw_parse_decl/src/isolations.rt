//! The isolation that is written before a declaration.

ghost use Rattle.std.specs.Prelude.{◌≡◌, codes};
ghost use Rattle.sw_grammar_forms.specs.Outcome.{Gives};
ghost use Rattle.sw_grammar.specs.Decls.{isolation_inside, nonisolated, concurrent, async_if};
ghost use Rattle.sw_grammar.specs.Decls.{needs_async};
ghost use Rattle.sw_grammar.specs.Nests.Nest.{in_isolation};
ghost use Rattle.sw_grammar.specs.Reading.{read};
ghost use Rattle.sw_parse_parts.specs.Around.{known};
ghost use Rattle.sw_parse_parts.specs.Nested.{nested};
ghost use Rattle.sw_grammar_forms.specs.Quotes.{quote};

use sw_grammar_forms::{Cursor, Stop};
use sw_parse_parts::Around;
use sw_tree::Written;

/// `nonisolated` or `nonisolated(nonsending)`.
#[tactic(auto, unfolding(sw_grammar::specs::Decls::nonisolated))]
pub fn nonisolated(
    around: &Around<'_>,
    tokens: &mut Cursor<'_>,
    depth: u32,
) -> Result<Written, Stop>
    ensures { Gives (read (known around.now) depth (nonisolated (known around.now)) tokens.old)
        result tokens.new }
{
    tokens.expect("nonisolated")?;
    if tokens.sees("(") {
        round_isolation(around, tokens, depth)?;
        return Ok(Written::Nonsending);
    }
    Ok(Written::Nonisolated)
}

/// What stands in the `(` and `)` of `nonisolated`.
fn round_isolation(around: &Around<'_>, tokens: &mut Cursor<'_>, depth: u32) -> Result<u32, Stop>
    ensures { Gives (nested (known around.now) depth (quote (codes "(")) in_isolation tokens.old)
        result tokens.new }
{
    tokens.open("(", depth)?;
    isolation_inside(&around.outermost(), tokens, depth - 1)
}

/// `nonsending` and the `)`; gives the position of the word.
#[tactic(auto, unfolding(sw_grammar::specs::Decls::isolation_inside))]
fn isolation_inside(around: &Around<'_>, tokens: &mut Cursor<'_>, depth: u32) -> Result<u32, Stop>
    ensures { Gives (read (known around.now) depth (isolation_inside (known around.now)) tokens.old)
        result tokens.new }
{
    let at = tokens.expect("nonsending")?;
    tokens.expect(")")?;
    Ok(at)
}

/// `@concurrent`, which a `nonisolated` may follow.
#[tactic(auto, unfolding(sw_grammar::specs::Decls::concurrent))]
pub fn concurrent(around: &Around<'_>, tokens: &mut Cursor<'_>, depth: u32) -> Result<Written, Stop>
    ensures { Gives (read (known around.now) depth (concurrent (known around.now)) tokens.old)
        result
        tokens.new }
{
    tokens.expect("@concurrent")?;
    tokens.skip("nonisolated");
    Ok(Written::Concurrent)
}

/// Whether a function with this isolation has to be `async`.
fn needs_async(written: &Written) -> bool
    ensures { result ≡ needs_async written.now }
{
    match written {
        Written::Absent => false,
        Written::At(_) => false,
        Written::Nonisolated => false,
        Written::Concurrent => true,
        Written::Nonsending => true,
    }
}

/// Whether `async` comes, which it has to where the isolation asks for it.
#[tactic(auto, unfolding(sw_grammar::specs::Decls::async_if))]
pub fn async_if(
    around: &Around<'_>,
    tokens: &mut Cursor<'_>,
    depth: u32,
    written: &Written,
) -> Result<bool, Stop>
    ensures { Gives (read (known around.now) depth (async_if (known around.now) written.now)
        tokens.old) result tokens.new }
{
    if tokens.sees("async") {
        tokens.expect("async")?;
        return Ok(true);
    }
    if needs_async(written) {
        return Err(tokens.stop());
    }
    Ok(false)
}
