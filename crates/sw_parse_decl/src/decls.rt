//! Declarations at top level.

ghost use Rattle.std.specs.Prelude.{◌≡◌, codes};
ghost use Rattle.sw_grammar_forms.specs.Outcome.{Gives};
ghost use Rattle.sw_grammar_forms.specs.Reader.{next};
ghost use Rattle.sw_grammar_forms.specs.Relations.{head};
ghost use Rattle.sw_grammar_forms.specs.Sets.{starts, quoted};
ghost use Rattle.sw_grammar.specs.Tokens.{plain_at_word, at_in};
ghost use Rattle.sw_grammar.specs.Decls.{func_decl, global_value, global_after, annotated, decl};
ghost use Rattle.sw_grammar.specs.Decls.{decl_first};
ghost use Rattle.sw_grammar.specs.Reading.{read};
ghost use Rattle.sw_parse_parts.specs.Around.{known};
ghost use Rattle.sw_parse_decl.specs.Parts.{after_main, after_global_actor, other_decl, decls_of};

use crate::bodies::Bodies;
use crate::entry::{entry, global_actor};
use crate::functions::{declared, func_after};
use crate::isolations::{concurrent, nonisolated};
use crate::types::{actor_decl, class_after, enum_decl, struct_decl};
use std::alloc::Global;
use sw_grammar_forms::{Cursor, Stop};
use sw_list::ListOf;
use sw_parse_parts::{Around, attribute, sees_attribute, tree_of, type_if, wanted_of};
use sw_tree::{Decl, DeclList, Name, PropTree, Written};

/// A function, after the isolation that is written.
#[tactic(auto, unfolding(sw_grammar::specs::Decls::func_decl))]
fn func_decl<B: Bodies>(
    alloc: Global,
    bodies: &B,
    around: &Around<'_>,
    tokens: &mut Cursor<'_>,
    depth: u32,
    written: Written,
) -> Result<Decl, Stop>
    ensures { Gives (read (known around.now) depth (func_decl (known around.now) written)
        tokens.old)
        result tokens.new }
{
    Ok(Decl::Func(func_after(alloc, bodies, around, tokens, depth, written)?))
}

/// A variable, after its `let` or `var`.
#[tactic(auto, unfolding(sw_grammar::specs::Decls::global_value))]
fn global_value<B: Bodies>(
    alloc: Global,
    bodies: &B,
    around: &Around<'_>,
    tokens: &mut Cursor<'_>,
    depth: u32,
    written: Written,
    mutable: bool,
) -> Result<Decl, Stop>
    ensures { Gives (read (known around.now) depth
        (global_value (known around.now) written mutable) tokens.old) result tokens.new }
{
    let word = declared(around, tokens, depth)?;
    let ty = type_if(alloc, around, tokens, depth)?;
    let value = bodies.value_for(alloc, around, tokens, depth, wanted_of(&ty))?;
    Ok(Decl::Global(PropTree {
        written,
        mutable,
        word,
        ty: tree_of(ty),
        value: Some(value),
    }))
}

/// A variable, after the isolation that is written.
#[tactic(auto, unfolding(sw_grammar::specs::Decls::global_after))]
fn global_after<B: Bodies>(
    alloc: Global,
    bodies: &B,
    around: &Around<'_>,
    tokens: &mut Cursor<'_>,
    depth: u32,
    written: Written,
) -> Result<Decl, Stop>
    ensures { Gives (read (known around.now) depth (global_after (known around.now) written)
        tokens.old) result tokens.new }
{
    if tokens.skip("let") {
        return global_value(alloc, bodies, around, tokens, depth, written, false);
    }
    tokens.expect("var")?;
    global_value(alloc, bodies, around, tokens, depth, written, true)
}

/// A class, a function or a variable, after the isolation that is written.
#[tactic(auto, unfolding(sw_grammar::specs::Decls::annotated))]
fn annotated<B: Bodies>(
    alloc: Global,
    bodies: &B,
    around: &Around<'_>,
    tokens: &mut Cursor<'_>,
    depth: u32,
    written: Written,
) -> Result<Decl, Stop>
    ensures { Gives (read (known around.now) depth (annotated (known around.now) written)
        tokens.old)
        result tokens.new }
{
    if tokens.sees("final") {
        return class_after(alloc, bodies, around, tokens, depth, written);
    }
    if tokens.sees("func") {
        return func_decl(alloc, bodies, around, tokens, depth, written);
    }
    global_after(alloc, bodies, around, tokens, depth, written)
}

/// The attribute `@main`.
fn main_mark(around: &Around<'_>, tokens: &mut Cursor<'_>) -> Result<Name, Stop>
    ensures { Gives (next (at_in (known around.now) (quoted (codes "@main")) (codes "@main"))
        tokens.old) result tokens.new }
{
    if !tokens.sees("@main") {
        return Err(tokens.stop());
    }
    attribute(around, tokens)
}

/// The attribute `@globalActor`.
fn global_actor_mark(around: &Around<'_>, tokens: &mut Cursor<'_>) -> Result<Name, Stop>
    ensures { Gives (next (at_in (known around.now) (quoted (codes "@globalActor"))
        (codes "@globalActor")) tokens.old) result tokens.new }
{
    if !tokens.sees("@globalActor") {
        return Err(tokens.stop());
    }
    attribute(around, tokens)
}

/// Whether the next token is an attribute other than `@main`, `@globalActor` and `@concurrent`.
fn sees_plain_mark(tokens: &Cursor<'_>) -> bool
    ensures { result ≡ starts plain_at_word (head tokens.now) }
{
    sees_attribute(tokens) && !tokens.sees_one_of(&["@main", "@globalActor"])
}

/// Takes an attribute other than these three.
fn plain_mark(around: &Around<'_>, tokens: &mut Cursor<'_>) -> Result<Name, Stop>
    ensures { Gives (next (at_in (known around.now) plain_at_word (codes "@Sendable")) tokens.old)
        result tokens.new }
{
    if !sees_plain_mark(tokens) {
        return Err(tokens.stop());
    }
    attribute(around, tokens)
}

/// A declaration at top level.
#[tactic(auto, unfolding(sw_grammar::specs::Decls::decl))]
fn decl<B: Bodies>(
    alloc: Global,
    bodies: &B,
    around: &Around<'_>,
    tokens: &mut Cursor<'_>,
    depth: u32,
) -> Result<Decl, Stop>
    ensures { Gives (read (known around.now) depth (decl (known around.now)) tokens.old) result
        tokens.new }
{
    if tokens.sees("@main") {
        return after_main(alloc, bodies, around, tokens, depth);
    }
    if tokens.sees("@globalActor") {
        return after_global_actor(alloc, bodies, around, tokens, depth);
    }
    if sees_plain_mark(tokens) {
        let mark = plain_mark(around, tokens)?;
        return annotated(alloc, bodies, around, tokens, depth, Written::At(mark));
    }
    other_decl(alloc, bodies, around, tokens, depth)
}

/// A declaration with the attribute `@main`.
fn after_main<B: Bodies>(
    alloc: Global,
    bodies: &B,
    around: &Around<'_>,
    tokens: &mut Cursor<'_>,
    depth: u32,
) -> Result<Decl, Stop>
    ensures { Gives (read (known around.now) depth (after_main (known around.now)) tokens.old)
        result
        tokens.new }
{
    let mark = main_mark(around, tokens)?;
    if tokens.sees("struct") {
        return entry(alloc, bodies, around, tokens, depth);
    }
    annotated(alloc, bodies, around, tokens, depth, Written::At(mark))
}

/// A declaration with the attribute `@globalActor`.
fn after_global_actor<B: Bodies>(
    alloc: Global,
    bodies: &B,
    around: &Around<'_>,
    tokens: &mut Cursor<'_>,
    depth: u32,
) -> Result<Decl, Stop>
    ensures { Gives (read (known around.now) depth (after_global_actor (known around.now))
        tokens.old)
        result tokens.new }
{
    let mark = global_actor_mark(around, tokens)?;
    if tokens.sees("actor") {
        return global_actor(around, tokens, depth);
    }
    annotated(alloc, bodies, around, tokens, depth, Written::At(mark))
}

/// A declaration without an attribute that names an actor.
fn other_decl<B: Bodies>(
    alloc: Global,
    bodies: &B,
    around: &Around<'_>,
    tokens: &mut Cursor<'_>,
    depth: u32,
) -> Result<Decl, Stop>
    ensures { Gives (read (known around.now) depth (other_decl (known around.now)) tokens.old)
        result
        tokens.new }
{
    if tokens.sees("nonisolated") {
        let written = nonisolated(around, tokens, depth)?;
        return func_decl(alloc, bodies, around, tokens, depth, written);
    }
    if tokens.sees("@concurrent") {
        let written = concurrent(around, tokens, depth)?;
        return func_decl(alloc, bodies, around, tokens, depth, written);
    }
    if tokens.sees("struct") {
        return struct_decl(alloc, bodies, around, tokens, depth);
    }
    if tokens.sees("enum") {
        return enum_decl(alloc, bodies, around, tokens, depth);
    }
    if tokens.sees("actor") {
        return actor_decl(alloc, bodies, around, tokens, depth);
    }
    annotated(alloc, bodies, around, tokens, depth, Written::Absent)
}

/// Whether a declaration begins with the next token.
fn sees_decl(tokens: &Cursor<'_>) -> bool
    ensures { result ≡ starts decl_first (head tokens.now) }
{
    sees_attribute(tokens)
        || tokens.sees_one_of(&[
            "nonisolated",
            "@concurrent",
            "struct",
            "enum",
            "actor",
            "final",
            "func",
            "let",
            "var",
        ])
}

/// The declarations of a program, up to a token that begins none.
pub fn decls<B: Bodies>(
    alloc: Global,
    bodies: &B,
    around: &Around<'_>,
    tokens: &mut Cursor<'_>,
    depth: u32,
) -> Result<DeclList, Stop>
    ensures { Gives (decls_of (known around.now) depth tokens.old) result tokens.new }
{
    let mut decls = Vec::new(alloc);
    let mut ended = true;
    while sees_decl(tokens) {
        tokens.start(!ended)?;
        decls.push(decl(alloc, bodies, around, tokens, depth)?)?;
        ended = tokens.skip(";");
    }
    Ok(ListOf::from_vec(decls))
}
