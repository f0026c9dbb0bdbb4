//! Closures and tasks.
ghost use Rattle.std.specs.Prelude.{◌≡◌, ◌++◌, ◌||◌, map, take, IfOk, OnOk};
ghost use Rattle.std.specs.Option.{option_copied};
ghost use Rattle.sw_tree.specs.declared.expr.ClosureParam.{ClosureParam};
ghost use Rattle.sw_decl_words.specs.TypeWords.{type_of};
ghost use Rattle.sw_typing_rules.specs.Expressions.{fun_types, task_types};
ghost use Rattle.sw_typing_rules.specs.Statements.{are_captured, body_result, capture_rows};
ghost use Rattle.sw_typing_rules.specs.Statements.{captured, is_captured, is_result, lacks_result};
ghost use Rattle.sw_typing_rules.specs.Statements.{param_var, result_wanted};
ghost use Rattle.sw_typing_rules.specs.Verdicts.{ill_if};
ghost use Rattle.sw_typing_rules.specs.Worlds.{world_of};
ghost use Rattle.sw_typing_steps.specs.Closures.{captured_vars, captures_rows, closed_after};
ghost use Rattle.sw_typing_steps.specs.Closures.{opened, opening};
ghost use Rattle.sw_typing_steps.specs.Steps.{decided_since, left_since};
ghost use Rattle.sw_typing_steps.specs.Variables.{with_variables};

use crate::bodies::{has_result, lacks_result};
use crate::codes::{NO_RESULT, NO_VALUE};
use crate::declare::declare;
use crate::known::{Enclosed, Went};
use crate::rows::Rows;
use crate::table::Table;
use std::alloc::{AllocError, Global};
use std::mem::replace;
use sw_decl_words::type_of;
use sw_decls::Decls;
use sw_list::{Boxed, ListOf};
use sw_tree::{Closure, ClosureParam, Name, TypeTree};
use sw_types::{Ty, TyList};
use sw_typing_rules::{Meaning, Returned, Var, Verdict};
use sw_typing_words::{Scope, copy_if};

/// What is kept of what stands around a closure, and what is known of the closure, while its body
/// is judged.
#[derive(Drop)]
pub struct Opened {
    /// How many variables are visible outside.
    pub depth: usize,
    /// How many rows there are before those of the body.
    pub start: usize,
    /// Whether each word of the capture list means a variable that has a type.
    pub captured: bool,
    pub params: TyList,
    /// What is known of the result of the body around.
    pub outer: Returned,
}

/// Whether a word means a variable that has a type.
fn is_captured(found: Option<&Var>) -> bool
    ensures { result ≡ is_captured (option_copied found.entry) }
{
    match found {
        None => false,
        Some(var) => var.ty.is_some(),
    }
}

/// Whether each word of a capture list means a variable that has a type.
fn are_captured(vars: &Scope, words: &[Name]) -> bool
    ensures { result ≡ are_captured vars.now words.now }
{
    for word in words {
        if !is_captured(vars.find(word.id)) {
            return false;
        }
    }
    true
}

/// Adds what a word of a capture list means, if it means a variable, which can't be assigned then.
fn add_captured(
    alloc: Global,
    found: Option<&Var>,
    made: &mut ListOf<Var>,
) -> Result<(), AllocError>
    ensures { OnOk result (made.new ≡ made.old ++ captured (option_copied found.entry)) }
{
    match found {
        None => Ok(()),
        Some(var) => {
            let ty = copy_if(alloc, &var.ty)?;
            made.push(Var {
                name: var.name,
                at: var.at,
                mutable: false,
                ty,
            })
        }
    }
}

/// The variables that the words of a capture list mean.
fn captured_vars(alloc: Global, vars: &Scope, words: &[Name]) -> Result<ListOf<Var>, AllocError>
    ensures { IfOk result (λ made. made ≡ captured_vars vars.now words.now) }
{
    let mut made = ListOf::new(alloc);
    for word in words {
        add_captured(alloc, vars.find(word.id), &mut made)?;
    }
    Ok(made)
}

/// Notes a word of a capture list: what it means, or that it means no variable.
fn note_captured(
    alloc: Global,
    word: Name,
    found: Option<&Var>,
    rows: &mut Rows,
) -> Result<(), AllocError>
    ensures { OnOk result (rows.new ≡ rows.old
        ++ capture_rows word (option_copied found.entry)) }
{
    match found {
        None => rows.note_ill(true, word.at, NO_VALUE),
        Some(var) => {
            rows.note_meaning(word.at, Some(Meaning::Local(var.at)))?;
            rows.note_type(alloc, word.at, &var.ty)
        }
    }
}

/// Notes the words of a capture list.
fn note_captures(
    alloc: Global,
    vars: &Scope,
    words: &[Name],
    rows: &mut Rows,
) -> Result<(), AllocError>
    ensures { OnOk result (rows.new ≡ rows.old ++ captures_rows vars.now words.now) }
{
    for word in words {
        note_captured(alloc, *word, vars.find(word.id), rows)?;
    }
    Ok(())
}

/// The types of parameters in order.
fn param_types(alloc: Global, world: &Decls, params: &[ClosureParam]) -> Result<TyList, AllocError>
    ensures { IfOk result (λ made. made ≡ map
        (λ (param : ClosureParam). type_of (world_of world.now).known.top param.ty) params.now) }
{
    let mut made = ListOf::new(alloc);
    for param in params {
        made.push(type_of(alloc, &world.words, &param.ty)?)?;
    }
    Ok(made)
}

/// Makes parameters visible, and notes them.
#[tactic(auto, using(crate::proofs::TableLemmas::one_more))]
fn declare_params(
    alloc: Global,
    world: &Decls,
    params: &[ClosureParam],
    table: &mut Table,
) -> Result<(), AllocError>
    ensures { OnOk result (table.new
        ≡ with_variables table.old (map (param_var (world_of world.now)) params.now)) }
{
    for param in params {
        let ty = type_of(alloc, &world.words, &param.ty)?;
        declare(alloc, param.name, false, Some(ty), table)?;
    }
    Ok(())
}

/// Makes variables visible.
fn declare_all(vars: ListOf<Var>, scope: &mut Scope) -> Result<(), AllocError>
    ensures { OnOk result (scope.new ≡ scope.old ++ vars) }
{
    for var in vars.into_vec() {
        scope.declare(var)?;
    }
    Ok(())
}

/// What is known at first of the result of a closure, by its written type.
fn result_wanted(
    alloc: Global,
    world: &Decls,
    ty: &Option<TypeTree>,
) -> Result<Returned, AllocError>
    ensures { IfOk result (λ returned. returned ≡ result_wanted (world_of world.now) ty.now) }
{
    match ty {
        None => Ok(Returned::Open(ListOf::new(alloc))),
        Some(tree) => Ok(Returned::Wants(type_of(alloc, &world.words, tree)?)),
    }
}

/// Begins a closure or the body of a task: notes its capture list and its parameters, and makes
/// them visible.
pub fn open_closure(
    alloc: Global,
    world: &Decls,
    closure: &Closure,
    table: &mut Table,
) -> Result<Opened, AllocError>
    ensures opened { IfOk result (λ made. made
        ≡ opened (world_of world.now) closure.now table.old) }
    ensures opening { OnOk result (table.new
        ≡ opening (world_of world.now) closure.now table.old) }
{
    let depth = table.vars.len();
    let words = closure.captures.as_slice();
    let captured = are_captured(&table.vars, words);
    let vars = captured_vars(alloc, &table.vars, words)?;
    note_captures(alloc, &table.vars, words, &mut table.rows)?;
    let params = param_types(alloc, world, closure.params.as_slice())?;
    declare_params(alloc, world, closure.params.as_slice(), table)?;
    declare_all(vars, &mut table.vars)?;
    let wanted = result_wanted(alloc, world, &closure.result)?;
    Ok(Opened {
        depth,
        start: table.rows.len(),
        captured,
        params,
        outer: replace(&mut table.returned, wanted),
    })
}

/// The result of a body, as far as its statements tell.
fn body_result(returned: Returned) -> Option<Ty>
    ensures { result ≡ body_result returned }
{
    match returned {
        Returned::Wants(ty) => Some(ty),
        Returned::Open(_) => Some(Ty::Unit),
        Returned::Gives(ty) => ty,
    }
}

/// Ends a closure or the body of a task, whose statements went like this, and decides what is in
/// doubt in it.
pub fn close_closure(
    at: u32,
    mark: Option<Name>,
    opened: Opened,
    went: Went,
    table: &mut Table,
) -> Result<Enclosed, AllocError>
    ensures enclosed { IfOk result (λ made. made
        ≡ closed_after at mark opened (left_since went opened.start table.old)) }
    ensures vars { OnOk result (table.new.vars ≡ take opened.depth table.old.vars) }
    ensures rows { OnOk result (table.new.rows ≡ decided_since opened.start
        (is_result (body_result table.old.returned))
        (table.old.rows ++ ill_if (lacks_result (left_since went opened.start table.old)) at 406)) }
    ensures returned { OnOk result (table.new.returned ≡ opened.outer) }
{
    let lacks = lacks_result(opened.start, went, table);
    table.rows.note_ill(lacks, at, NO_RESULT)?;
    let valued = has_result(&table.returned);
    table.rows.decide(opened.start, valued);
    table.vars.truncate(opened.depth);
    let returned = replace(&mut table.returned, opened.outer);
    let whole = opened.captured && (went.fine && !lacks);
    Ok(Enclosed {
        at,
        params: opened.params,
        marked: mark.is_some(),
        result: if whole { body_result(returned) } else { None },
    })
}

/// The type of a closure.
pub fn fun_types(alloc: Global, expected: bool, closed: Enclosed) -> Result<Verdict, AllocError>
    ensures { IfOk result (λ verdict. verdict
        ≡ fun_types (closed.marked || expected) closed.params closed.result) }
{
    let Enclosed {
        params,
        marked,
        result,
        ..
    } = closed;
    match result {
        None => Ok(Verdict::Held),
        Some(ty) => Ok(Verdict::Has(Ty::Func {
            sendable: marked || expected,
            params,
            result: Boxed::new(alloc, ty)?,
        })),
    }
}

/// The type of a task.
pub fn task_types(alloc: Global, inner: Option<Ty>) -> Result<Verdict, AllocError>
    ensures { IfOk result (λ verdict. verdict ≡ task_types inner) }
{
    match inner {
        None => Ok(Verdict::Held),
        Some(ty) => Ok(Verdict::Has(Ty::Task(Boxed::new(alloc, ty)?))),
    }
}
