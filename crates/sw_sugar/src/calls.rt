//! The trees of the forms, and the texts that these trees name, which are interned with them.

ghost use Rattle.std.specs.Prelude.{◌≡◌, ◌<◌, codes, length, string_bytes, IfOk, OnOk};
ghost use Rattle.sw_tree.specs.Names.{id_in, with_text, with_texts};
ghost use Rattle.sw_tree.specs.declared.stmt.Block.{out-Block};
ghost use Rattle.sw_sugar.specs.AsyncLet.{async_let_stmts};
ghost use Rattle.sw_sugar.specs.Calls.{declared_as, declared_texts, enum_texts, or_literal_form};
ghost use Rattle.sw_sugar.specs.Calls.{or_literal_texts, part_text, text_of, whole_text};
ghost use Rattle.sw_sugar.specs.Optionals.{block_of, if_let_tree, none_tree, optional_enum_tree};
ghost use Rattle.sw_sugar.specs.Optionals.{or_literal_stmts, some_tree};

use crate::optionals::{if_let_tree, none_tree, optional_enum_tree, or_literal_stmts, some_tree};
use crate::tasks::async_let_stmts;
use crate::texts::{part_text, whole_text};
use crate::types::copied_type;
use crate::words::{Declared, LetArm, OrLiteral};
use std::alloc::{AllocError, Global};
use sw_tree::{Block, Decl, Expr, Name, Names, Stmt, TypeTree};

/// `nil` at a position, where `of` is the number of the text `T?`.
pub fn none_of(alloc: Global, names: &mut Names, of: u32, at: u32) -> Result<Expr, AllocError>
    requires room { length names.old < 4294967280 }
    requires within { at < 4294967295 }
    ensures tree { IfOk result (λ tree. tree ≡ none_tree (id_in names.new (codes "none")) of at) }
    ensures names { OnOk result (names.new ≡ with_text names.old (codes "none")) }
{
    names.intern("none")?;
    none_tree(alloc, names.id_of("none"), of, at)
}

/// `Optional(value)` at a position, where `of` is the number of the text `T?`.
pub fn some_of(
    alloc: Global,
    names: &mut Names,
    of: u32,
    at: u32,
    value: Expr,
) -> Result<Expr, AllocError>
    requires room { length names.old < 4294967280 }
    requires within { at < 4294967295 }
    ensures tree { IfOk result (λ tree. tree
        ≡ some_tree (id_in names.new (codes "some")) of at value) }
    ensures names { OnOk result (names.new ≡ with_text names.old (codes "some")) }
{
    names.intern("some")?;
    some_tree(alloc, names.id_of("some"), of, at, value)
}

/// `if let name = subject chosen`, and what comes otherwise. `at` is where its `if` stands, `let_at`
/// where its `let` does.
pub fn if_let(
    alloc: Global,
    names: &mut Names,
    at: u32,
    let_at: u32,
    name: Name,
    subject: Expr,
    chosen: Block,
    otherwise: Block,
) -> Result<Stmt, AllocError>
    requires { length names.old < 4294967280 }
    ensures tree { IfOk result (λ tree. tree ≡ if_let_tree (id_in names.new (codes "some")) at let_at
        name subject chosen otherwise) }
    ensures names { OnOk result (names.new ≡ with_text names.old (codes "some")) }
{
    names.intern("some")?;
    let form = LetArm {
        some: names.id_of("some"),
        at,
        let_at,
        name,
    };
    if_let_tree(alloc, form, subject, chosen, otherwise)
}

/// The text with this id, with `?`.
#[tactic(auto, using(crate::proofs::NameTexts::text_is))]
fn part_of(alloc: Global, names: &Names, id: u32) -> Result<String, AllocError>
    requires { id < length names.now }
    ensures { IfOk result (λ made. string_bytes made ≡ part_text (text_of names.now id)) }
{
    part_text(alloc, names.text(id))
}

/// The text with this id, with `??`.
#[tactic(auto, using(crate::proofs::NameTexts::text_is))]
fn whole_of(alloc: Global, names: &Names, id: u32) -> Result<String, AllocError>
    requires { id < length names.now }
    ensures { IfOk result (λ made. string_bytes made ≡ whole_text (text_of names.now id)) }
{
    whole_text(alloc, names.text(id))
}

/// A word that is declared by a form with `??`.
#[tactic(auto, using(crate::proofs::NameTexts::longer), unfolding(sw_tree::specs::Names::with_texts))]
pub fn declare(alloc: Global, names: &mut Names, name: Name) -> Result<Declared, AllocError>
    requires room { length names.old < 4294967280 }
    requires known { name.id < length names.old }
    ensures word { IfOk result (λ word. word
        ≡ declared_as (id_in names.new) (text_of names.old name.id) name) }
    ensures names { OnOk result (names.new
        ≡ with_texts names.old (declared_texts (text_of names.old name.id))) }
{
    let part = part_of(alloc, names, name.id)?;
    let whole = whole_of(alloc, names, name.id)?;
    names.intern(part.as_str())?;
    names.intern(whole.as_str())?;
    Ok(Declared {
        name,
        part: names.id_of(part.as_str()),
        whole: names.id_of(whole.as_str()),
    })
}

/// `let name: ty = value ?? literal`, or `var`, with the places of its tokens.
#[tactic(auto, using(crate::proofs::NameTexts::longer), unfolding(sw_tree::specs::Names::with_texts))]
pub fn or_literal(
    alloc: Global,
    names: &mut Names,
    mutable: bool,
    let_at: u32,
    name: Name,
    colon_at: u32,
    ty: &TypeTree,
    eq_at: u32,
    value: Expr,
    op_at: u32,
    literal: Expr,
) -> Result<Block, AllocError>
    requires room { length names.old < 4294967280 }
    requires known { name.id < length names.old }
    requires let_room { let_at < 4294967294 }
    requires op_room { op_at < 4294967295 }
    ensures tree { IfOk result (λ block. block ≡ block_of (or_literal_stmts
        (or_literal_form (id_in names.new) (text_of names.old name.id) mutable name let_at colon_at
        eq_at op_at) ty.now value literal)) }
    ensures names { OnOk result (names.new
        ≡ with_texts names.old (or_literal_texts (text_of names.old name.id))) }
{
    let word = declare(alloc, names, name)?;
    names.intern("some")?;
    let form = OrLiteral {
        mutable,
        word,
        some: names.id_of("some"),
        let_at,
        colon_at,
        eq_at,
        op_at,
    };
    let ty = copied_type(alloc, ty)?;
    Ok(Block {
        stmts: or_literal_stmts(alloc, form, ty, value, literal)?,
    })
}

/// `async let name = value` with the statements after it. `at` is where its `async` stands, `eq_at`
/// where its `=` does.
pub fn async_let(
    alloc: Global,
    at: u32,
    name: Name,
    eq_at: u32,
    value: Expr,
    rest: Block,
) -> Result<Block, AllocError>
    requires { at < 4294967295 }
    ensures { IfOk result (λ block. block
        ≡ block_of (async_let_stmts at name eq_at value (out-Block rest).stmts)) }
{
    Ok(Block {
        stmts: async_let_stmts(alloc, at, name, eq_at, value, rest.stmts)?,
    })
}

/// The enum of a type `T?`, where `of` is the word `T` and `mark_at` the position of its `?`.
#[tactic(auto, using(crate::proofs::NameTexts::longer), unfolding(sw_tree::specs::Names::with_texts))]
pub fn optional_enum(
    alloc: Global,
    names: &mut Names,
    of: Name,
    mark_at: u32,
) -> Result<Decl, AllocError>
    requires room { length names.old < 4294967280 }
    requires known { of.id < length names.old }
    ensures tree { IfOk result (λ tree. tree ≡ optional_enum_tree (id_in names.new (codes "none"))
        (id_in names.new (codes "some"))
        (id_in names.new (part_text (text_of names.old of.id))) of mark_at) }
    ensures names { OnOk result (names.new
        ≡ with_texts names.old (enum_texts (text_of names.old of.id))) }
{
    let optional = part_of(alloc, names, of.id)?;
    names.intern(optional.as_str())?;
    names.intern("none")?;
    names.intern("some")?;
    let none = names.id_of("none");
    let some = names.id_of("some");
    optional_enum_tree(
        alloc,
        none,
        some,
        names.id_of(optional.as_str()),
        of,
        mark_at,
    )
}
