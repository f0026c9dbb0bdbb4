//! Variables: `let` and `var`.

ghost use Rattle.std.specs.Prelude.{◌≡◌, ◌<◌, IfOk};
ghost use Rattle.sw_grammar_forms.specs.Outcome.{Gives};
ghost use Rattle.sw_grammar.specs.Around.{index_in};
ghost use Rattle.sw_grammar.specs.Stmts as stmts;
ghost use Rattle.sw_grammar.specs.Reading.{read};
ghost use Rattle.sw_sugar.specs.Calls as sugar;
ghost use Rattle.sw_parse_parts.specs.Around.{known};
ghost use Rattle.sw_parse_expr.specs.Below.{Below};
ghost use Rattle.sw_parse_stmt.specs.Parts.{with_type};

use super::blocks::value;
use std::alloc::{AllocError, Global};
use std::marker::Model;
use sw_grammar_forms::{Cursor, Stop};
use sw_list::ListOf;
use sw_parse_expr::{Inner, value_in};
use sw_parse_parts::{Around, DeclaredWord, a_literal, equals, new_word, written_type};
use sw_sugar::{Declared, OrLiteral, or_literal_stmts};
use sw_tree::{Stmt, StmtList};

/// `let` or `var` and its word. The positions inside of the `let` or `var` don't wrap.
#[derive(Drop)]
struct Binding<'a> {
    mutable: bool,
    let_at: u32,
    word: DeclaredWord<'a>,
}

impl<'a> Model for Binding<'a> {
    ghost use Rattle.std.specs.Prelude.{◌<◌};
    ghost use Rattle.sw_grammar.specs.Stmts.{Binding};

    ghost Value = { Binding };

    ghost view = { λ b. record { mutable = b.mutable; let_at = b.let_at; word = b.word } };

    ghost invariant = { λ b. b.let_at < 4294967294 };
}

/// Where the tokens of a variable with `??` stand, and the ids of the texts made of its word.
fn or_literal<'a>(
    alloc: Global,
    around: &Around<'_>,
    binding: &Binding<'a>,
    colon_at: u32,
    eq_at: u32,
    op_at: u32,
) -> Result<OrLiteral, AllocError>
    ensures form { IfOk result (λ form. form ≡ sugar.or_literal_form (index_in around.now.texts)
        binding.now.word.text binding.now.mutable binding.now.word.name binding.now.let_at colon_at
        eq_at op_at) }
    ensures room { IfOk result (λ form. form.let_at < 4294967294) }
{
    let text = binding.word.text();
    let word = Declared {
        name: binding.word.name(),
        part: around.part_id(alloc, text)?,
        whole: around.whole_id(alloc, text)?,
    };
    Ok(OrLiteral {
        mutable: binding.mutable,
        word,
        some: around.id_of("some"),
        let_at: binding.let_at,
        colon_at,
        eq_at,
        op_at,
    })
}

/// `:`, a type, `=` and a value, with `??` and a literal where they come after an expression.
#[tactic(auto, unfolding(sw_grammar::specs::Stmts::typed_binding, sw_grammar::specs::Stmts::literal_if))]
fn with_type<'a, I: Inner>(
    alloc: Global,
    inner: &I,
    around: &Around<'_>,
    tokens: &mut Cursor<'_>,
    depth: u32,
    binding: Binding<'a>,
) -> Result<StmtList, Stop>
    requires { Below I.reads inner.now depth }
    ensures { Gives (read (known around.now) depth (with_type (known around.now) binding.entry)
        tokens.old) result tokens.new }
{
    let colon_at = tokens.expect(":")?;
    let written = written_type(alloc, around, tokens, depth)?;
    let eq_at = equals(tokens)?;
    let given = value_in(alloc, inner, around, tokens, depth, written.wanted())?;
    if given.is_plain() && tokens.sees("??") {
        let op_at = tokens.expect_whole("??")?;
        let other = a_literal(around, tokens, depth)?;
        let form = or_literal(alloc, around, &binding, colon_at, eq_at, op_at)?;
        return Ok(or_literal_stmts(alloc, form, written.tree(), given.value(), other)?);
    }
    let bind = Stmt::Bind {
        mutable: binding.mutable,
        name: binding.word.name(),
        ty: Some(written.tree()),
        value: given.value(),
    };
    Ok(ListOf::one(alloc, bind)?)
}

/// What comes after the word of a variable.
#[tactic(auto, unfolding(sw_grammar::specs::Stmts::after_binding))]
fn after_binding<'a, I: Inner>(
    alloc: Global,
    inner: &I,
    around: &Around<'_>,
    tokens: &mut Cursor<'_>,
    depth: u32,
    binding: Binding<'a>,
) -> Result<StmtList, Stop>
    requires { Below I.reads inner.now depth }
    ensures { Gives (read (known around.now) depth
        (stmts.after_binding (known around.now) binding.entry) tokens.old) result tokens.new }
{
    if tokens.sees(":") {
        return with_type(alloc, inner, around, tokens, depth, binding);
    }
    let value = value(alloc, inner, around, tokens, depth)?;
    let bind = Stmt::Bind {
        mutable: binding.mutable,
        name: binding.word.name(),
        ty: None,
        value,
    };
    Ok(ListOf::one(alloc, bind)?)
}

/// A variable after its `let` or `var`, which stands at this position, as the statements that it
/// stands for.
#[tactic(auto, unfolding(sw_grammar::specs::Stmts::binding))]
fn variable<I: Inner>(
    alloc: Global,
    inner: &I,
    around: &Around<'_>,
    tokens: &mut Cursor<'_>,
    depth: u32,
    mutable: bool,
    let_at: u32,
) -> Result<StmtList, Stop>
    requires below { Below I.reads inner.now depth }
    requires room { let_at < 4294967294 }
    ensures { Gives (read (known around.now) depth
        (stmts.binding (known around.now) mutable let_at) tokens.old) result tokens.new }
{
    let word = new_word(around, tokens)?;
    let binding = Binding {
        mutable,
        let_at,
        word,
    };
    after_binding(alloc, inner, around, tokens, depth, binding)
}

/// A variable, as the statements that it stands for.
#[tactic(auto, unfolding(sw_grammar::specs::Stmts::bind))]
pub fn bind<I: Inner>(
    alloc: Global,
    inner: &I,
    around: &Around<'_>,
    tokens: &mut Cursor<'_>,
    depth: u32,
) -> Result<StmtList, Stop>
    requires { Below I.reads inner.now depth }
    ensures { Gives (read (known around.now) depth (stmts.bind (known around.now)) tokens.old)
        result tokens.new }
{
    if tokens.sees("let") {
        let at = tokens.expect_whole("let")?;
        return variable(alloc, inner, around, tokens, depth, false, at);
    }
    let at = tokens.expect_whole("var")?;
    variable(alloc, inner, around, tokens, depth, true, at)
}
