//! Properties of classes and actors that have no value.
ghost use Rattle.std.specs.Prelude.{◌≡◌, ◌++◌, nat_eq, IfOk, OnOk};
ghost use Rattle.indexmap.specs.IndexMap.{get};
ghost use Rattle.sw_decl_values.specs.Values.{has_value, is_me, own_property, set_by, set_first, set_in};
ghost use Rattle.sw_decl_values.specs.Values.{set_place, without_value};

use std::alloc::{AllocError, Global};
use sw_decl_names::Places;
use sw_decl_words::Placed;
use sw_list::ListOf;
use sw_tree::{AssignOp, Expr, InitTree, Name, NameList, PropTree, Stmt};

/// Whether an expression is `self`.
fn is_me(expr: &Expr) -> bool
    ensures { result ≡ is_me expr.now }
{
    match expr {
        Expr::Me { .. } => true,
        Expr::Int { .. }
        | Expr::Bool { .. }
        | Expr::Use { .. }
        | Expr::Member { .. }
        | Expr::Call { .. }
        | Expr::Method { .. }
        | Expr::Chain { .. }
        | Expr::Prefix { .. }
        | Expr::Await { .. }
        | Expr::Fun(_)
        | Expr::Spawn { .. }
        | Expr::Yield { .. } => false,
    }
}

/// The property `p` of a place `self.p`.
fn own_property(place: &Expr) -> Option<Name>
    ensures { result ≡ own_property place.now }
{
    match place {
        Expr::Member { base, name } => { if is_me(base.get()) { Some(*name) } else { None } }
        Expr::Int { .. }
        | Expr::Bool { .. }
        | Expr::Use { .. }
        | Expr::Me { .. }
        | Expr::Call { .. }
        | Expr::Method { .. }
        | Expr::Chain { .. }
        | Expr::Prefix { .. }
        | Expr::Await { .. }
        | Expr::Fun(_)
        | Expr::Spawn { .. }
        | Expr::Yield { .. } => None,
    }
}

/// The property that an assignment with this operator gives a value.
fn set_place(op: AssignOp, place: &Expr) -> Option<Name>
    ensures { result ≡ set_place op place.now }
{
    match op {
        AssignOp::Set => own_property(place),
        AssignOp::Add
        | AssignOp::Subtract
        | AssignOp::Multiply
        | AssignOp::Divide
        | AssignOp::Remainder => None,
    }
}

/// The property that a statement gives a value.
pub fn set_by(stmt: &Stmt) -> Option<Name>
    ensures { result ≡ set_by stmt.now }
{
    match stmt {
        Stmt::Assign { op, place, .. } => set_place(*op, place),
        Stmt::Bind { .. }
        | Stmt::Discard { .. }
        | Stmt::If { .. }
        | Stmt::While { .. }
        | Stmt::Switch { .. }
        | Stmt::Return { .. }
        | Stmt::Break { .. }
        | Stmt::Continue { .. }
        | Stmt::Plain(_) => None,
    }
}

/// The properties that statements give values.
pub fn set_in(alloc: Global, stmts: &[Stmt]) -> Result<NameList, AllocError>
    ensures { IfOk result (λ names. names ≡ set_in stmts.now) }
{
    let mut names = ListOf::new(alloc);
    for stmt in stmts {
        if let Some(name) = set_by(stmt) {
            names.push(name)?;
        }
    }
    Ok(names)
}

/// The properties that the first initialiser gives a value.
fn set_first(alloc: Global, inits: &[InitTree]) -> Result<NameList, AllocError>
    ensures { IfOk result (λ names. names ≡ set_first inits.now) }
{
    match inits.split_first() {
        None => Ok(ListOf::new(alloc)),
        Some((init, _)) => set_in(alloc, init.body.stmts.as_slice()),
    }
}

/// Whether a property has a first value or is among those that are given one.
fn has_value(places: &Places, prop: &PropTree) -> bool
    ensures { result ≡ has_value (get nat_eq places.now.places) prop.now }
{
    prop.value.is_some() || places.has(prop.word.id)
}

/// Adds the properties of a class or an actor that have no value.
pub fn add_without_value(
    alloc: Global,
    props: &[PropTree],
    inits: &[InitTree],
    found: &mut ListOf<Placed>,
) -> Result<(), AllocError>
    ensures { OnOk result (found.new ≡ found.old ++ without_value props.now inits.now) }
{
    let names = set_first(alloc, inits)?;
    let places = Places::of(alloc, names.as_slice())?;
    for prop in props {
        if !has_value(&places, prop) {
            found.push(Placed {
                at: prop.word.at,
                code: 305,
            })?;
        }
    }
    Ok(())
}
