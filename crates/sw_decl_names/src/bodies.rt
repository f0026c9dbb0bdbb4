//! The breaches of names and written types in bodies.
ghost use Rattle.std.specs.Prelude.{◌≡◌, ◌++◌, map, flat_map, nat_eq, option_map, IfOk, OnOk};
ghost use Rattle.indexmap.specs.IndexMap.{get};
ghost use Rattle.sw_tree.specs.Folds.{fold_arg, fold_block, fold_case_arm, fold_closure, fold_expr};
ghost use Rattle.sw_tree.specs.Folds.{fold_if_arm, fold_link, fold_stmt};
ghost use Rattle.sw_decl_names.specs.Bodies.{all_found, bad_attribute, bad_mark, bad_type, body_steps};
ghost use Rattle.sw_decl_names.specs.Bodies.{in_body, otherwise_found, params_found};
ghost use Rattle.sw_decl_names.specs.Bodies.{pattern_names, scope_found};

use crate::repeats::add_repeats;
use std::alloc::{AllocError, Global};
use sw_decl_words::{Meaning, Placed, Words, bad_words};
use sw_list::ListOf;
use sw_tree::{
    Arg, Block, CaseArm, Closure, ClosureParam, Expr, IfArm, Link, Name, NameList, Pattern, Stmt,
    TypeTree,
};

/// Adds an attribute that names no global actor.
pub fn bad_attribute(
    words: &Words,
    name: Name,
    found: &mut ListOf<Placed>,
) -> Result<(), AllocError>
    ensures { OnOk result (found.new
        ≡ found.old ++ bad_attribute (get nat_eq words.now.meanings) name) }
{
    match words.get(name.id) {
        Some(Meaning::GlobalActor(_)) => Ok(()),
        Some(Meaning::Shape { .. } | Meaning::Func(_) | Meaning::Global(_) | Meaning::Entry)
        | None => found.push(Placed {
            at: name.at,
            code: 302,
        }),
    }
}

/// Adds what is written on a task's closure, where it names no global actor.
fn bad_mark(words: &Words, mark: Option<Name>, found: &mut ListOf<Placed>) -> Result<(), AllocError>
    ensures { OnOk result (found.new ≡ found.old ++ bad_mark (get nat_eq words.now.meanings) mark) }
{
    match mark {
        None => Ok(()),
        Some(name) => bad_attribute(words, name, found),
    }
}

/// Adds the words of a written type, where there is one, that name no type.
pub fn bad_type(
    words: &Words,
    tree: &Option<TypeTree>,
    found: &mut ListOf<Placed>,
) -> Result<(), AllocError>
    ensures { OnOk result (found.new
        ≡ found.old ++ bad_type (get nat_eq words.now.meanings) tree.now) }
{
    match tree {
        None => Ok(()),
        Some(tree) => bad_words(words, tree, found),
    }
}

/// Adds the breaches of a closure's parameters.
#[tactic(auto, unfolding(crate::specs::Bodies::params_found))]
fn closure_params(
    alloc: Global,
    words: &Words,
    params: &[ClosureParam],
    found: &mut ListOf<Placed>,
) -> Result<(), AllocError>
    ensures { OnOk result (found.new
        ≡ found.old ++ params_found (get nat_eq words.now.meanings) params.now) }
{
    let mut names = ListOf::new(alloc);
    for param in params {
        bad_words(words, &param.ty, found)?;
        names.push(param.name)?;
    }
    add_repeats(alloc, names.as_slice(), found)
}

/// The names that the patterns of an arm declare.
fn names_of_patterns(alloc: Global, patterns: &[Pattern]) -> Result<NameList, AllocError>
    ensures { IfOk result (λ names. names ≡ flat_map pattern_names patterns.now) }
{
    let mut names = ListOf::new(alloc);
    for pattern in patterns {
        match pattern {
            Pattern::Skip { .. } => {}
            Pattern::Let { name } => names.push(*name)?,
        }
    }
    Ok(names)
}

/// Adds the breaches inside an expression.
#[cycle(bodies)]
pub fn in_expr(
    alloc: Global,
    words: &Words,
    expr: &Expr,
    found: &mut ListOf<Placed>,
) -> Result<(), AllocError>
    ensures { OnOk result (found.new
        ≡ found.old ++ fold_expr (body_steps (get nat_eq words.now.meanings)) expr.now) }
{
    match expr {
        Expr::Int { .. }
        | Expr::Bool { .. }
        | Expr::Use { .. }
        | Expr::Me { .. }
        | Expr::Yield { .. } => Ok(()),
        Expr::Member { base, .. } => in_expr(alloc, words, base.get(), found),
        Expr::Call { args, .. } => in_args(alloc, words, args.as_slice(), found),
        Expr::Method { base, args, .. } => {
            in_expr(alloc, words, base.get(), found)?;
            in_args(alloc, words, args.as_slice(), found)
        }
        Expr::Chain { first, rest } => {
            in_expr(alloc, words, first.get(), found)?;
            in_links(alloc, words, rest.as_slice(), found)
        }
        Expr::Prefix { inner, .. } | Expr::Await { inner, .. } => {
            in_expr(alloc, words, inner.get(), found)
        }
        Expr::Fun(closure) => in_closure(alloc, words, closure.get(), found),
        Expr::Spawn { body, .. } => {
            bad_mark(words, body.get().mark, found)?;
            in_closure(alloc, words, body.get(), found)
        }
    }
}

/// Adds the breaches inside arguments.
#[cycle(bodies)]
fn in_args(
    alloc: Global,
    words: &Words,
    args: &[Arg],
    found: &mut ListOf<Placed>,
) -> Result<(), AllocError>
    ensures { OnOk result (found.new ≡ found.old
        ++ all_found (map (fold_arg (body_steps (get nat_eq words.now.meanings))) args.now)) }
{
    for arg in args {
        in_expr(alloc, words, &arg.value, found)?;
    }
    Ok(())
}

/// Adds the breaches inside the operands of a chain.
#[cycle(bodies)]
fn in_links(
    alloc: Global,
    words: &Words,
    links: &[Link],
    found: &mut ListOf<Placed>,
) -> Result<(), AllocError>
    ensures { OnOk result (found.new ≡ found.old
        ++ all_found (map (fold_link (body_steps (get nat_eq words.now.meanings))) links.now)) }
{
    for link in links {
        in_expr(alloc, words, &link.operand, found)?;
    }
    Ok(())
}

/// Adds the breaches inside a closure.
#[cycle(bodies)]
fn in_closure(
    alloc: Global,
    words: &Words,
    closure: &Closure,
    found: &mut ListOf<Placed>,
) -> Result<(), AllocError>
    ensures { OnOk result (found.new ≡ found.old
        ++ (fold_closure (body_steps (get nat_eq words.now.meanings)) closure.now).found) }
{
    closure_params(alloc, words, closure.params.as_slice(), found)?;
    bad_type(words, &closure.result, found)?;
    in_block(alloc, words, &closure.body, ListOf::new(alloc), found)
}

/// Adds the breaches of a block whose scope has these names already.
#[cycle(bodies)]
fn in_block(
    alloc: Global,
    words: &Words,
    block: &Block,
    names: NameList,
    found: &mut ListOf<Placed>,
) -> Result<(), AllocError>
    ensures { OnOk result (found.new ≡ found.old
        ++ scope_found names (fold_block (body_steps (get nat_eq words.now.meanings)) block.now)) }
{
    let mut names = names;
    for stmt in block.stmts.as_slice() {
        if let Stmt::Bind { name, .. } = stmt {
            names.push(*name)?;
        }
        in_stmt(alloc, words, stmt, found)?;
    }
    add_repeats(alloc, names.as_slice(), found)
}

/// Adds the breaches of the block after `else` or `default`, where there is one.
#[cycle(bodies)]
fn in_otherwise(
    alloc: Global,
    words: &Words,
    block: &Option<Block>,
    found: &mut ListOf<Placed>,
) -> Result<(), AllocError>
    ensures { OnOk result (found.new ≡ found.old ++ otherwise_found
        (option_map (fold_block (body_steps (get nat_eq words.now.meanings))) block.now)) }
{
    match block {
        None => Ok(()),
        Some(block) => in_block(alloc, words, block, ListOf::new(alloc), found),
    }
}

/// Adds the breaches inside the arms of an `if`.
#[cycle(bodies)]
fn in_if_arms(
    alloc: Global,
    words: &Words,
    arms: &[IfArm],
    found: &mut ListOf<Placed>,
) -> Result<(), AllocError>
    ensures { OnOk result (found.new ≡ found.old
        ++ all_found (map (fold_if_arm (body_steps (get nat_eq words.now.meanings))) arms.now)) }
{
    for arm in arms {
        in_expr(alloc, words, &arm.cond, found)?;
        in_block(alloc, words, &arm.body, ListOf::new(alloc), found)?;
    }
    Ok(())
}

/// Adds the breaches inside the arms of a `switch`.
#[cycle(bodies)]
fn in_case_arms(
    alloc: Global,
    words: &Words,
    arms: &[CaseArm],
    found: &mut ListOf<Placed>,
) -> Result<(), AllocError>
    ensures { OnOk result (found.new ≡ found.old
        ++ all_found (map (fold_case_arm (body_steps (get nat_eq words.now.meanings))) arms.now)) }
{
    for arm in arms {
        let names = names_of_patterns(alloc, arm.patterns.as_slice())?;
        in_block(alloc, words, &arm.body, names, found)?;
    }
    Ok(())
}

/// Adds the breaches inside a statement.
#[cycle(bodies)]
fn in_stmt(
    alloc: Global,
    words: &Words,
    stmt: &Stmt,
    found: &mut ListOf<Placed>,
) -> Result<(), AllocError>
    ensures { OnOk result (found.new ≡ found.old
        ++ (fold_stmt (body_steps (get nat_eq words.now.meanings)) stmt.now).found) }
{
    match stmt {
        Stmt::Bind { ty, value, .. } => {
            bad_type(words, ty, found)?;
            in_expr(alloc, words, value, found)
        }
        Stmt::Assign { place, value, .. } => {
            in_expr(alloc, words, place, found)?;
            in_expr(alloc, words, value, found)
        }
        Stmt::Discard { value, .. } | Stmt::Plain(value) => in_expr(alloc, words, value, found),
        Stmt::If { arms, otherwise } => {
            in_if_arms(alloc, words, arms.as_slice(), found)?;
            in_otherwise(alloc, words, otherwise, found)
        }
        Stmt::While { cond, body, .. } => {
            in_expr(alloc, words, cond, found)?;
            in_block(alloc, words, body, ListOf::new(alloc), found)
        }
        Stmt::Switch {
            subject,
            arms,
            otherwise,
            ..
        } => {
            in_expr(alloc, words, subject, found)?;
            in_case_arms(alloc, words, arms.as_slice(), found)?;
            in_otherwise(alloc, words, otherwise, found)
        }
        Stmt::Return { value, .. } => match value {
            None => Ok(()),
            Some(value) => in_expr(alloc, words, value, found),
        },
        Stmt::Break { .. } | Stmt::Continue { .. } => Ok(()),
    }
}

/// Adds the breaches of a body.
pub fn in_body(
    alloc: Global,
    words: &Words,
    body: &Block,
    found: &mut ListOf<Placed>,
) -> Result<(), AllocError>
    ensures { OnOk result (found.new
        ≡ found.old ++ in_body (get nat_eq words.now.meanings) body.now) }
{
    in_block(alloc, words, body, ListOf::new(alloc), found)
}
