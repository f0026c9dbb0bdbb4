//! The entry of a program, and global actors.

ghost use Rattle.std.specs.Prelude.{codes};
ghost use Rattle.sw_grammar_forms.specs.Outcome.{Gives};
ghost use Rattle.sw_grammar.specs.Decls.{entry_inside, global_actor_inside, entry, global_actor};
ghost use Rattle.sw_grammar.specs.Nests.Nest.{in_entry, in_global_actor};
ghost use Rattle.sw_grammar.specs.Reading.{read};
ghost use Rattle.sw_grammar_forms.specs.Quotes.{quote};
ghost use Rattle.sw_parse_parts.specs.Around.{known};
ghost use Rattle.sw_parse_parts.specs.Nested.{made, nested};
ghost use Rattle.sw_parse_decl.specs.Entries.{main_isolation, main_of};

use crate::bodies::Bodies;
use crate::functions::declared;
use std::alloc::Global;
use sw_grammar_forms::{Cursor, Stop};
use sw_parse_parts::{Around, attribute, empty, equals, sees_attribute};
use sw_tree::{Block, Decl, Name, Written};

/// What an entry has beside its word.
#[derive(Drop)]
struct Main {
    written: Written,
    /// Where the word `main` stands.
    at: u32,
    is_async: bool,
    body: Block,
}

/// The isolation of `main`.
fn main_isolation(around: &Around<'_>, tokens: &mut Cursor<'_>, depth: u32) -> Result<Written, Stop>
    ensures { Gives (read (known around.now) depth (main_isolation (known around.now)) tokens.old)
        result tokens.new }
{
    if sees_attribute(tokens) {
        return Ok(Written::At(attribute(around, tokens)?));
    }
    if tokens.sees("nonisolated") {
        tokens.expect("nonisolated")?;
        return Ok(Written::Nonisolated);
    }
    Ok(Written::Absent)
}

/// `static func main()`, its block and the `}` of the entry.
#[tactic(auto, unfolding(sw_grammar::specs::Decls::entry_inside))]
fn entry_inside<B: Bodies>(
    alloc: Global,
    bodies: &B,
    around: &Around<'_>,
    tokens: &mut Cursor<'_>,
    depth: u32,
) -> Result<Main, Stop>
    ensures { Gives (made main_of (read (known around.now) depth (entry_inside (known around.now)))
        tokens.old) result tokens.new }
{
    let written = main_isolation(around, tokens, depth)?;
    tokens.expect("static")?;
    tokens.expect("func")?;
    let at = tokens.expect("main")?;
    empty(around, tokens, depth)?;
    let is_async = tokens.skip("async");
    let body = bodies.block(alloc, around, tokens, depth)?;
    tokens.skip(";");
    tokens.expect("}")?;
    Ok(Main {
        written,
        at,
        is_async,
        body,
    })
}

/// `static let shared = made()` and the `}` of the global actor; gives the word `made`.
#[tactic(auto, unfolding(sw_grammar::specs::Decls::global_actor_inside))]
fn global_actor_inside(
    around: &Around<'_>,
    tokens: &mut Cursor<'_>,
    depth: u32,
) -> Result<Name, Stop>
    ensures { Gives (read (known around.now) depth (global_actor_inside (known around.now))
        tokens.old) result tokens.new }
{
    tokens.expect("static")?;
    tokens.expect("let")?;
    tokens.expect("shared")?;
    equals(tokens)?;
    let made = declared(around, tokens, depth)?;
    empty(around, tokens, depth)?;
    tokens.skip(";");
    tokens.expect("}")?;
    Ok(made)
}

/// The entry of a program, after its `@main`.
#[tactic(auto, unfolding(sw_grammar::specs::Decls::entry))]
pub fn entry<B: Bodies>(
    alloc: Global,
    bodies: &B,
    around: &Around<'_>,
    tokens: &mut Cursor<'_>,
    depth: u32,
) -> Result<Decl, Stop>
    ensures { Gives (read (known around.now) depth (entry (known around.now)) tokens.old) result
        tokens.new }
{
    tokens.expect("struct")?;
    let word = declared(around, tokens, depth)?;
    let main = entry_body(alloc, bodies, around, tokens, depth)?;
    Ok(Decl::Entry {
        word,
        written: main.written,
        at: main.at,
        is_async: main.is_async,
        body: main.body,
    })
}

/// A global actor, after its `@globalActor`.
#[tactic(auto, unfolding(sw_grammar::specs::Decls::global_actor))]
pub fn global_actor(around: &Around<'_>, tokens: &mut Cursor<'_>, depth: u32) -> Result<Decl, Stop>
    ensures { Gives (read (known around.now) depth (global_actor (known around.now)) tokens.old)
        result tokens.new }
{
    tokens.expect("actor")?;
    let word = declared(around, tokens, depth)?;
    let made = global_actor_body(around, tokens, depth)?;
    Ok(Decl::GlobalActor { word, made })
}

/// What stands in the `{` and `}` of an entry.
fn entry_body<B: Bodies>(
    alloc: Global,
    bodies: &B,
    around: &Around<'_>,
    tokens: &mut Cursor<'_>,
    depth: u32,
) -> Result<Main, Stop>
    ensures { Gives (made main_of (nested (known around.now) depth (quote (codes "{")) in_entry)
        tokens.old) result tokens.new }
{
    tokens.open("{", depth)?;
    entry_inside(alloc, bodies, &around.outermost(), tokens, depth - 1)
}

/// What stands in the `{` and `}` of a global actor.
fn global_actor_body(around: &Around<'_>, tokens: &mut Cursor<'_>, depth: u32) -> Result<Name, Stop>
    ensures { Gives (nested (known around.now) depth (quote (codes "{")) in_global_actor tokens.old)
        result tokens.new }
{
    tokens.open("{", depth)?;
    global_actor_inside(&around.outermost(), tokens, depth - 1)
}
