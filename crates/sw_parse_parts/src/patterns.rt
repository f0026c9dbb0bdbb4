//! Patterns of the arms of a `switch`.

ghost use Rattle.std.specs.Prelude.{[], ◌∷◌, codes};
ghost use Rattle.sw_grammar_forms.specs.Form.Form.{nest};
ghost use Rattle.sw_grammar_forms.specs.Quotes.{quote};
ghost use Rattle.sw_grammar.specs.Nests.{in_patterns};
ghost use Rattle.sw_grammar.specs.Types.{more_of};
ghost use Rattle.sw_grammar.specs.Stmts.{pattern, patterns_inside, patterns_if};
ghost use Rattle.sw_grammar_forms.specs.Outcome.{Gives};
ghost use Rattle.sw_grammar.specs.Reading.{read};
ghost use Rattle.sw_parse_parts.specs.Around.{known};

use super::around::Around;
use super::words::new_name;
use std::alloc::Global;
use sw_grammar_forms::{Cursor, Stop};
use sw_list::ListOf;
use sw_tree::{Pattern, PatternList};

/// The patterns of an arm, in `(` and `)`, where they come; else none.
#[tactic(auto, unfolding(sw_grammar::specs::Stmts::patterns_if))]
pub fn patterns_if(
    alloc: Global,
    around: &Around<'_>,
    tokens: &mut Cursor<'_>,
    depth: u32,
) -> Result<PatternList, Stop>
    ensures { Gives (read (known around.now) depth (patterns_if (known around.now)) tokens.old)
        result tokens.new }
{
    if !tokens.sees("(") {
        return Ok(ListOf::new(alloc));
    }
    let (_, patterns) = patterns(alloc, around, tokens, depth)?;
    Ok(patterns)
}

/// The patterns of an arm, and where their `(` stands.
fn patterns(
    alloc: Global,
    around: &Around<'_>,
    tokens: &mut Cursor<'_>,
    depth: u32,
) -> Result<(u32, PatternList), Stop>
    ensures { Gives (read (known around.now) depth (nest (quote (codes "("))
        (in_patterns (known around.now).here)) tokens.old) result tokens.new }
{
    let at = tokens.open("(", depth)?;
    let inside = patterns_inside(alloc, around, tokens, depth - 1)?;
    Ok((at, inside))
}

/// Patterns up to a `)`.
#[tactic(auto, unfolding(sw_grammar::specs::Stmts::patterns_inside))]
fn patterns_inside(
    alloc: Global,
    around: &Around<'_>,
    tokens: &mut Cursor<'_>,
    depth: u32,
) -> Result<PatternList, Stop>
    ensures { Gives (read (known around.now) depth (patterns_inside (known around.now)) tokens.old)
        result tokens.new }
{
    let first = pattern(around, tokens, depth)?;
    let patterns = more_patterns(alloc, around, tokens, depth, first)?;
    tokens.expect(")")?;
    Ok(patterns)
}

/// The patterns after the first, each with a `,` before it.
fn more_patterns(
    alloc: Global,
    around: &Around<'_>,
    tokens: &mut Cursor<'_>,
    depth: u32,
    first: Pattern,
) -> Result<PatternList, Stop>
    ensures { Gives (read (known around.now) depth (more_of (known around.now) (first ∷ []) (pattern
        (known around.now))) tokens.old) result tokens.new }
{
    let mut patterns = Vec::new(alloc);
    patterns.push(first)?;
    while tokens.skip(",") {
        patterns.push(pattern(around, tokens, depth)?)?;
    }
    Ok(ListOf::from_vec(patterns))
}

/// A pattern.
#[tactic(auto, unfolding(sw_grammar::specs::Stmts::pattern))]
fn pattern(around: &Around<'_>, tokens: &mut Cursor<'_>, depth: u32) -> Result<Pattern, Stop>
    ensures { Gives (read (known around.now) depth (pattern (known around.now)) tokens.old) result
        tokens.new }
{
    if tokens.sees("_") {
        return Ok(Pattern::Skip {
            at: tokens.expect("_")?,
        });
    }
    tokens.expect("let")?;
    Ok(Pattern::Let {
        name: new_name(around, tokens)?,
    })
}
