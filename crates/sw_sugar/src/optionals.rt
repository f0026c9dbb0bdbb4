//! The trees of the forms with optionals, by the ids of the texts that they name.

ghost use Rattle.std.specs.Prelude.{◌≡◌, ◌<◌, IfOk};
ghost use Rattle.sw_sugar.specs.Optionals.{begun, declared, if_let_tree, if_some};
ghost use Rattle.sw_sugar.specs.Optionals.{none_tree, optional_enum_tree, or_literal_stmts};
ghost use Rattle.sw_sugar.specs.Optionals.{or_switch, some_arm, some_tree, taken, use_at};

use crate::types::copied_type;
use crate::words::{LetArm, OrLiteral};
use std::alloc::{AllocError, Global};
use sw_list::{Boxed, ListOf};
use sw_tree::{
    Arg, AssignOp, Block, CaseArm, CaseTree, Decl, Expr, Name, Pattern, Stmt, StmtList, TypeTree,
};

/// A use of a name.
fn use_at(at: u32, id: u32) -> Expr
    ensures { result ≡ use_at at id }
{
    Expr::Use {
        name: Name { at, id },
    }
}

/// `nil` at a position: `none` is the id of that text, `of` that of `T?`.
pub fn none_tree(alloc: Global, none: u32, of: u32, at: u32) -> Result<Expr, AllocError>
    requires { at < 4294967295 }
    ensures { IfOk result (λ tree. tree ≡ none_tree none of at) }
{
    Ok(Expr::Member {
        base: Boxed::new(alloc, use_at(at + 1, of))?,
        name: Name { at, id: none },
    })
}

/// `Optional(value)` at a position: `some` is the id of that text, `of` that of `T?`.
pub fn some_tree(
    alloc: Global,
    some: u32,
    of: u32,
    at: u32,
    value: Expr,
) -> Result<Expr, AllocError>
    requires { at < 4294967295 }
    ensures { IfOk result (λ tree. tree ≡ some_tree some of at value) }
{
    let base = Boxed::new(alloc, use_at(at + 1, of))?;
    let args = ListOf::one(alloc, Arg { label: None, value })?;
    Ok(Expr::Method {
        base,
        name: Name { at, id: some },
        args,
    })
}

/// The arm for a value that is there.
fn some_arm(
    alloc: Global,
    some: u32,
    at: u32,
    name: Name,
    body: Block,
) -> Result<CaseArm, AllocError>
    ensures { IfOk result (λ arm. arm ≡ some_arm some at name body) }
{
    let patterns = ListOf::one(alloc, Pattern::Let { name })?;
    Ok(CaseArm {
        name: Name { at, id: some },
        patterns,
        body,
    })
}

/// A choice by whether a value is there.
fn if_some(
    alloc: Global,
    at: u32,
    subject: Expr,
    arm: CaseArm,
    otherwise: Block,
) -> Result<Stmt, AllocError>
    ensures { IfOk result (λ tree. tree ≡ if_some at subject arm otherwise) }
{
    Ok(Stmt::Switch {
        at,
        subject,
        arms: ListOf::one(alloc, arm)?,
        otherwise: Some(otherwise),
    })
}

/// `if let name = subject chosen`, and what comes otherwise.
pub fn if_let_tree(
    alloc: Global,
    form: LetArm,
    subject: Expr,
    chosen: Block,
    otherwise: Block,
) -> Result<Stmt, AllocError>
    ensures { IfOk result (λ tree. tree
        ≡ if_let_tree form.some form.at form.let_at form.name subject chosen otherwise) }
{
    let arm = some_arm(alloc, form.some, form.let_at, form.name, chosen)?;
    if_some(alloc, form.at, subject, arm, otherwise)
}

/// The whole is the literal at first.
fn begun(form: OrLiteral, ty: TypeTree, literal: Expr) -> Stmt
    ensures { result ≡ begun form ty literal }
{
    Stmt::Bind {
        mutable: true,
        name: Name {
            at: form.op_at,
            id: form.word.whole,
        },
        ty: Some(ty),
        value: literal,
    }
}

/// The value of the optional is taken for the whole.
fn taken(form: OrLiteral) -> Stmt
    requires let_room { form.let_at < 4294967294 }
    requires op_room { form.op_at < 4294967295 }
    ensures { result ≡ taken form }
{
    Stmt::Assign {
        at: form.let_at,
        op: AssignOp::Set,
        place: use_at(form.op_at + 1, form.word.whole),
        value: use_at(form.let_at + 1, form.word.part),
    }
}

/// Where the optional has a value, it is taken.
fn or_switch(alloc: Global, form: OrLiteral, value: Expr) -> Result<Stmt, AllocError>
    requires let_room { form.let_at < 4294967294 }
    requires op_room { form.op_at < 4294967295 }
    ensures { IfOk result (λ tree. tree ≡ or_switch form value) }
{
    let stmts = ListOf::one(alloc, taken(form))?;
    let name = Name {
        at: form.colon_at,
        id: form.word.part,
    };
    let arm = some_arm(alloc, form.some, form.colon_at, name, Block { stmts })?;
    let otherwise = Block {
        stmts: ListOf::new(alloc),
    };
    if_some(alloc, form.eq_at, value, arm, otherwise)
}

/// The word is the whole from then on.
fn declared(form: OrLiteral, ty: TypeTree) -> Stmt
    requires { form.let_at < 4294967294 }
    ensures { result ≡ declared form ty }
{
    Stmt::Bind {
        mutable: form.mutable,
        name: form.word.name,
        ty: Some(ty),
        value: use_at(form.let_at + 2, form.word.whole),
    }
}

/// The statements of `let x: T = value ?? literal`, also with `var`.
pub fn or_literal_stmts(
    alloc: Global,
    form: OrLiteral,
    ty: TypeTree,
    value: Expr,
    literal: Expr,
) -> Result<StmtList, AllocError>
    requires let_room { form.let_at < 4294967294 }
    requires op_room { form.op_at < 4294967295 }
    ensures { IfOk result (λ stmts. stmts ≡ or_literal_stmts form ty value literal) }
{
    let again = copied_type(alloc, &ty)?;
    let switch = or_switch(alloc, form, value)?;
    let mut stmts = ListOf::two(alloc, begun(form, ty, literal), switch)?;
    stmts.push(declared(form, again))?;
    Ok(stmts)
}

/// The enum of a type `T?`, where `of` is the word `T`, `mark_at` the position of its `?` and
/// `optional` the id of `T?`.
pub fn optional_enum_tree(
    alloc: Global,
    none: u32,
    some: u32,
    optional: u32,
    of: Name,
    mark_at: u32,
) -> Result<Decl, AllocError>
    ensures { IfOk result (λ tree. tree ≡ optional_enum_tree none some optional of mark_at) }
{
    let empty = CaseTree {
        word: Name {
            at: mark_at,
            id: none,
        },
        types: ListOf::new(alloc),
    };
    let full = CaseTree {
        word: Name {
            at: mark_at,
            id: some,
        },
        types: ListOf::one(alloc, TypeTree::Named { name: of })?,
    };
    Ok(Decl::Enum {
        word: Name {
            at: mark_at,
            id: optional,
        },
        conforms: false,
        cases: ListOf::two(alloc, empty, full)?,
        funcs: ListOf::new(alloc),
    })
}
