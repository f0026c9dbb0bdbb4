//! Written types.

ghost use Rattle.std.specs.Prelude.{◌≡◌, ◌<◌, [], ◌∷◌, length, codes, option_map, IfOk};
ghost use Rattle.sw_grammar_forms.specs.Form.Form.{nest};
ghost use Rattle.sw_grammar_forms.specs.Outcome.{Gives};
ghost use Rattle.sw_grammar_forms.specs.Quotes.{quote};
ghost use Rattle.sw_grammar_forms.specs.Reader.{next};
ghost use Rattle.sw_grammar_forms.specs.Sets.{quoted};
ghost use Rattle.sw_grammar.specs.Tokens.{value_word};
ghost use Rattle.sw_grammar.specs.Nests.{in_types, in_result, in_task_type};
ghost use Rattle.sw_grammar.specs.Types as types;
ghost use Rattle.sw_grammar.specs.Stmts as stmts;
ghost use Rattle.sw_grammar.specs.Reading.{read};
ghost use Rattle.sw_parse_parts.specs.Around.{known};
ghost use Rattle.sw_parse_parts.specs.Taking.{TakesAs};

use super::around::Around;
use super::words::{sees_value_word, sendable};
use std::alloc::{AllocError, Global};
use std::marker::Model;
use sw_grammar_forms::{Cursor, Stop};
use sw_list::{Boxed, ListOf};
use sw_tree::{Name, TypeTree, TypeTreeList};

/// A written type, and the word `T` where it is the optional `T?`.
#[derive(Drop)]
pub struct Typed<'a> {
    tree: TypeTree,
    wanted: Option<&'a str>,
}

impl<'a> Model for Typed<'a> {
    ghost use Rattle.std.specs.Prelude.{option_map};
    ghost use Rattle.sw_tree.specs.contracts.type_tree.TypeTree as type_tree;
    ghost use Rattle.sw_grammar.specs.Types.{Typed};
    ghost use Rattle.sw_parse_parts.specs.Typed.{typed_code};

    ghost Value = { Typed };

    ghost coded = { typed_code type_tree.the_row.coded };

    ghost view = { λ t. record { tree = t.tree; wanted = option_map (λ text. text.now) t.wanted } };
}

impl<'a> Typed<'a> {
    pub fn tree(self) -> TypeTree
        ensures { result ≡ self.entry.tree }
    {
        self.tree
    }

    /// The word `T` where the type is `T?`.
    pub fn wanted(&self) -> Option<&'a str>
        ensures { option_map (λ text. text.now) result ≡ self.now.wanted }
    {
        self.wanted
    }
}

/// What there is of a type that may be left out.
pub fn tree_of(typed: Option<Typed<'_>>) -> Option<TypeTree>
    ensures { result ≡ types.tree_of typed.entry }
{
    match typed {
        Some(typed) => Some(typed.tree()),
        None => None,
    }
}

/// The word `T` where there is a type and it is `T?`.
pub fn wanted_of<'a>(typed: &Option<Typed<'a>>) -> Option<&'a str>
    ensures { option_map (λ text. text.now) result ≡ types.wanted_of typed.now }
{
    match typed {
        Some(typed) => typed.wanted(),
        None => None,
    }
}

/// A word of a type: its name, its text, and the id of its text with `?`.
#[derive(Drop)]
struct TypeWord<'a> {
    name: Name,
    text: &'a str,
    optional: u32,
}

impl<'a> Model for TypeWord<'a> {
    ghost use Rattle.sw_grammar.specs.Types.{TypeWord};

    ghost Value = { TypeWord };

    ghost view = { λ w. record { name = w.name; text = w.text.now; optional = w.optional } };
}

/// Takes the next token as a word of a type.
fn take_type_word<'a>(
    alloc: Global,
    around: &Around<'_>,
    tokens: &mut Cursor<'a>,
) -> Result<TypeWord<'a>, AllocError>
    requires { 0 < length tokens.old }
    ensures { IfOk result (λ word. TakesAs (types.type_word_of (known around.now)) tokens.old word
        tokens.new) }
{
    let text = tokens.text();
    let id = around.id_of(text);
    let optional = around.part_id(alloc, text)?;
    let at = tokens.take();
    Ok(TypeWord {
        name: Name { at, id },
        text,
        optional,
    })
}

/// Takes a word of a type other than `Task`.
fn named_type_word<'a>(
    alloc: Global,
    around: &Around<'_>,
    tokens: &mut Cursor<'a>,
) -> Result<TypeWord<'a>, Stop>
    ensures { Gives (next (types.type_word (known around.now) value_word (codes "print"))
        tokens.old) result tokens.new }
{
    if !sees_value_word(tokens) {
        return Err(tokens.stop());
    }
    Ok(take_type_word(alloc, around, tokens)?)
}

/// Takes the word `Task` of a type.
fn task_type_word<'a>(
    alloc: Global,
    around: &Around<'_>,
    tokens: &mut Cursor<'a>,
) -> Result<TypeWord<'a>, Stop>
    ensures { Gives (next (types.type_word (known around.now) (quoted (codes "Task"))
        (codes "Task")) tokens.old) result tokens.new }
{
    if !tokens.sees("Task") {
        return Err(tokens.stop());
    }
    Ok(take_type_word(alloc, around, tokens)?)
}

/// A type that is no optional.
fn plain_type<'a>(tree: TypeTree) -> Typed<'a>
    ensures { result ≡ types.typed tree }
{
    Typed { tree, wanted: None }
}

/// The type that a word names, or its optional.
fn named<'a>(word: TypeWord<'a>, marked: bool) -> Typed<'a>
    ensures { result ≡ types.named word.entry marked }
{
    if !marked {
        return plain_type(TypeTree::Named { name: word.name });
    }
    let name = Name {
        at: word.name.at,
        id: word.optional,
    };
    Typed {
        tree: TypeTree::Named { name },
        wanted: Some(word.text),
    }
}

/// A type: a word with or without `?`, `()`, a function type or that of a task.
#[cycle(types)]
pub fn type_tree(
    alloc: Global,
    around: &Around<'_>,
    tokens: &mut Cursor<'_>,
    depth: u32,
) -> Result<TypeTree, Stop>
    ensures { Gives (read (known around.now) depth (types.type (known around.now)) tokens.old)
        result tokens.new }
{
    let written = written_type(alloc, around, tokens, depth)?;
    Ok(written.tree())
}

/// The same, and the word of which it is the optional where it is one.
#[cycle(types)]
#[tactic(auto, unfolding(sw_grammar::specs::Types::written_type))]
pub fn written_type<'a>(
    alloc: Global,
    around: &Around<'_>,
    tokens: &mut Cursor<'a>,
    depth: u32,
) -> Result<Typed<'a>, Stop>
    ensures { Gives (read (known around.now) depth (types.written_type (known around.now))
        tokens.old) result tokens.new }
{
    if tokens.sees("@Sendable") {
        return Ok(plain_type(marked_type(alloc, around, tokens, depth)?));
    }
    if tokens.sees("(") {
        return Ok(plain_type(round_type(alloc, around, tokens, depth)?));
    }
    if tokens.sees("Task") {
        return task_type(alloc, around, tokens, depth);
    }
    named_type(alloc, around, tokens, depth)
}

/// A word with or without `?`.
#[tactic(auto, unfolding(sw_grammar::specs::Types::named_type))]
fn named_type<'a>(
    alloc: Global,
    around: &Around<'_>,
    tokens: &mut Cursor<'a>,
    depth: u32,
) -> Result<Typed<'a>, Stop>
    ensures { Gives (read (known around.now) depth (types.named_type (known around.now)) tokens.old)
        result tokens.new }
{
    let word = named_type_word(alloc, around, tokens)?;
    let marked = tokens.skip("?");
    Ok(named(word, marked))
}

/// `@Sendable` and a function type.
#[cycle(types)]
#[tactic(auto, unfolding(sw_grammar::specs::Types::marked_type))]
fn marked_type(
    alloc: Global,
    around: &Around<'_>,
    tokens: &mut Cursor<'_>,
    depth: u32,
) -> Result<TypeTree, Stop>
    ensures { Gives (read (known around.now) depth (types.marked_type (known around.now))
        tokens.old) result tokens.new }
{
    let mark = sendable(around, tokens)?;
    let (at, params) = params(alloc, around, tokens, depth)?;
    let (_, result) = result(alloc, around, tokens, depth)?;
    Ok(TypeTree::Arrow {
        at,
        mark: Some(mark),
        params,
        result: Boxed::new(alloc, result)?,
    })
}

/// A function type, or `()`.
#[cycle(types)]
#[tactic(auto, unfolding(sw_grammar::specs::Types::round_type))]
fn round_type(
    alloc: Global,
    around: &Around<'_>,
    tokens: &mut Cursor<'_>,
    depth: u32,
) -> Result<TypeTree, Stop>
    ensures { Gives (read (known around.now) depth (types.round_type (known around.now)) tokens.old)
        result tokens.new }
{
    let (at, params) = params(alloc, around, tokens, depth)?;
    if tokens.sees("->") {
        let (_, result) = result(alloc, around, tokens, depth)?;
        return Ok(TypeTree::Arrow {
            at,
            mark: None,
            params,
            result: Boxed::new(alloc, result)?,
        });
    }
    if !params.is_empty() {
        return Err(tokens.stop());
    }
    Ok(TypeTree::Unit { at })
}

/// The types in brackets, and where their `(` stands.
#[cycle(types)]
fn params(
    alloc: Global,
    around: &Around<'_>,
    tokens: &mut Cursor<'_>,
    depth: u32,
) -> Result<(u32, TypeTreeList), Stop>
    ensures { Gives (read (known around.now) depth (nest (quote (codes "(")) in_types) tokens.old)
        result tokens.new }
{
    let at = tokens.open("(", depth)?;
    let inside = types(alloc, around, tokens, depth - 1)?;
    Ok((at, inside))
}

/// The result of a function type, and where its `->` stands.
#[cycle(types)]
fn result(
    alloc: Global,
    around: &Around<'_>,
    tokens: &mut Cursor<'_>,
    depth: u32,
) -> Result<(u32, TypeTree), Stop>
    ensures { Gives (read (known around.now) depth (nest (quote (codes "->")) in_result)
        tokens.old) result tokens.new }
{
    let at = tokens.open("->", depth)?;
    let inside = type_tree(alloc, around, tokens, depth - 1)?;
    Ok((at, inside))
}

/// `Task<T, Never>`, or the type with the name `Task`, or the optional of it.
#[cycle(types)]
#[tactic(auto, unfolding(sw_grammar::specs::Types::task_type))]
fn task_type<'a>(
    alloc: Global,
    around: &Around<'_>,
    tokens: &mut Cursor<'a>,
    depth: u32,
) -> Result<Typed<'a>, Stop>
    ensures { Gives (read (known around.now) depth (types.task_type (known around.now)) tokens.old)
        result tokens.new }
{
    let word = task_type_word(alloc, around, tokens)?;
    if tokens.sees("<") {
        let (_, inner) = task_result(alloc, around, tokens, depth)?;
        return Ok(plain_type(TypeTree::TaskOf {
            at: word.name.at,
            inner: Boxed::new(alloc, inner)?,
        }));
    }
    let marked = tokens.skip("?");
    Ok(named(word, marked))
}

/// The result type of a task, and where its `<` stands.
#[cycle(types)]
fn task_result(
    alloc: Global,
    around: &Around<'_>,
    tokens: &mut Cursor<'_>,
    depth: u32,
) -> Result<(u32, TypeTree), Stop>
    ensures { Gives (read (known around.now) depth (nest (quote (codes "<")) in_task_type)
        tokens.old) result tokens.new }
{
    let at = tokens.open("<", depth)?;
    let inside = task_inner(alloc, around, tokens, depth - 1)?;
    Ok((at, inside))
}

/// The result type of a task, after its `<`, up to its `>`.
#[cycle(types)]
#[tactic(auto, unfolding(sw_grammar::specs::Types::task_inner))]
fn task_inner(
    alloc: Global,
    around: &Around<'_>,
    tokens: &mut Cursor<'_>,
    depth: u32,
) -> Result<TypeTree, Stop>
    ensures { Gives (read (known around.now) depth (types.task_inner (known around.now)) tokens.old)
        result tokens.new }
{
    let inner = type_tree(alloc, around, tokens, depth)?;
    tokens.expect(",")?;
    tokens.expect("Never")?;
    tokens.expect(">")?;
    Ok(inner)
}

/// Types and the `)` after them; there may be none.
#[cycle(types)]
#[tactic(auto, unfolding(sw_grammar::specs::Types::types, sw_grammar::specs::Types::payload))]
fn types(
    alloc: Global,
    around: &Around<'_>,
    tokens: &mut Cursor<'_>,
    depth: u32,
) -> Result<TypeTreeList, Stop>
    ensures { Gives (read (known around.now) depth (types.types (known around.now)) tokens.old)
        result tokens.new }
{
    if tokens.sees(")") {
        tokens.expect(")")?;
        return Ok(ListOf::new(alloc));
    }
    some_types(alloc, around, tokens, depth)
}

/// One type at least, each after the first with a `,` before it, and the `)` after them.
#[cycle(types)]
#[tactic(auto, unfolding(sw_grammar::specs::Types::payload))]
pub fn some_types(
    alloc: Global,
    around: &Around<'_>,
    tokens: &mut Cursor<'_>,
    depth: u32,
) -> Result<TypeTreeList, Stop>
    ensures { Gives (read (known around.now) depth (types.payload (known around.now)) tokens.old)
        result tokens.new }
{
    let first = type_tree(alloc, around, tokens, depth)?;
    let types = more_types(alloc, around, tokens, depth, first)?;
    tokens.expect(")")?;
    Ok(types)
}

/// The types of a list after the first, each with a `,` before it.
#[cycle(types)]
fn more_types(
    alloc: Global,
    around: &Around<'_>,
    tokens: &mut Cursor<'_>,
    depth: u32,
    first: TypeTree,
) -> Result<TypeTreeList, Stop>
    ensures { Gives (read (known around.now) depth (types.more_of (known around.now) (first ∷ [])
        (types.type (known around.now))) tokens.old) result tokens.new }
{
    let mut types = Vec::new(alloc);
    types.push(first)?;
    while tokens.skip(",") {
        types.push(type_tree(alloc, around, tokens, depth)?)?;
    }
    Ok(ListOf::from_vec(types))
}

/// `:` and a type, where they come.
#[tactic(auto, unfolding(sw_grammar::specs::Stmts::type_if))]
pub fn type_if<'a>(
    alloc: Global,
    around: &Around<'_>,
    tokens: &mut Cursor<'a>,
    depth: u32,
) -> Result<Option<Typed<'a>>, Stop>
    ensures { Gives (read (known around.now) depth (stmts.type_if (known around.now)) tokens.old)
        result tokens.new }
{
    if !tokens.sees(":") {
        return Ok(None);
    }
    tokens.expect(":")?;
    Ok(Some(written_type(alloc, around, tokens, depth)?))
}
