//! The bodies of closures and tasks, at any depth.
ghost use Rattle.std.specs.Prelude.{◌≡◌, ◌++◌, ◌∷◌, [], OnOk};
ghost use Rattle.sw_lower_bodies.specs.Inside.{args_inside, block_inside, cases_inside};
ghost use Rattle.sw_lower_bodies.specs.Inside.{expr_inside, fun_inside, ifs_inside, links_inside};
ghost use Rattle.sw_lower_bodies.specs.Inside.{other_inside, stmt_inside, task_inside};
ghost use Rattle.sw_lower_bodies.specs.Trees.{bodies_by, body_by, known_body};
ghost use Rattle.sw_lower_known.specs.Knowledge.{tables_by};
ghost use Rattle.sw_lower_rules.specs.Expressions.{is_async_of, iso_of};

use crate::body_tree::{BodyForm, BodyTree};
use std::alloc::AllocError;
use sw_isolation_rules::BodyIso;
use sw_list::ListOf;
use sw_lower_known::Known;
use sw_tree::{Arg, Block, CaseArm, Closure, Expr, IfArm, Link, Stmt};
use sw_types::Iso;

/// Bodies in some order.
pub type BodyList<'a> = ListOf<BodyTree<'a>>;

/// Adds a body to others.
#[tactic(auto, unfolding(crate::specs::Trees::bodies_by))]
pub fn add<'a>(
    known: &Known<'_>,
    body: BodyTree<'a>,
    bodies: &mut BodyList<'a>,
) -> Result<(), AllocError>
    ensures { OnOk result (bodies_by (tables_by known.now) bodies.new
        ≡ bodies_by (tables_by known.now) bodies.old ++ body_by (tables_by known.now) body.entry
        ∷ []) }
{
    bodies.push(body)
}

/// The isolation of a body.
fn iso_of(body: Option<BodyIso>) -> Iso
    ensures { result ≡ iso_of body }
{
    match body {
        None => Iso::Free,
        Some(body) => body.iso,
    }
}

/// Whether a body is asynchronous.
fn is_async_of(body: Option<BodyIso>) -> bool
    ensures { result ≡ is_async_of body }
{
    match body {
        None => false,
        Some(body) => body.is_async,
    }
}

/// Adds the body with this key, a getter or not, isolated as is known.
pub fn add_known<'a>(
    known: &Known<'_>,
    key: u32,
    getter: bool,
    form: BodyForm<'a>,
    bodies: &mut BodyList<'a>,
) -> Result<(), AllocError>
    ensures { OnOk result (bodies_by (tables_by known.now) bodies.new
        ≡ bodies_by (tables_by known.now) bodies.old
        ++ known_body (tables_by known.now) key getter form.entry ∷ []) }
{
    let isolation = known.body_at(key);
    let body = BodyTree {
        key,
        getter,
        iso: iso_of(isolation),
        is_async: is_async_of(isolation),
        form,
    };
    add(known, body, bodies)
}

/// Adds the bodies in an expression in a member of the type `owner`.
#[cycle(walk)]
#[tactic(auto, unfolding(crate::specs::Inside::expr_inside, crate::specs::Trees::closure_code, sw_lower_rules::specs::Statements::expr_code))]
pub fn expr<'a>(
    known: &Known<'_>,
    owner: Option<u32>,
    tree: &'a Expr,
    bodies: &mut BodyList<'a>,
) -> Result<(), AllocError>
    ensures { OnOk result (bodies_by (tables_by known.now) bodies.new
        ≡ bodies_by (tables_by known.now) bodies.old
        ++ expr_inside (tables_by known.now) owner tree.now) }
{
    match tree {
        Expr::Int { .. }
        | Expr::Bool { .. }
        | Expr::Use { .. }
        | Expr::Me { .. }
        | Expr::Yield { .. } => Ok(()),
        Expr::Member { base, .. } => expr(known, owner, base.get(), bodies),
        Expr::Call { args, .. } => arguments(known, owner, args.as_slice(), bodies),
        Expr::Method { base, args, .. } => {
            expr(known, owner, base.get(), bodies)?;
            arguments(known, owner, args.as_slice(), bodies)
        }
        Expr::Chain { first, rest } => {
            expr(known, owner, first.get(), bodies)?;
            links(known, owner, rest.as_slice(), bodies)
        }
        Expr::Prefix { inner, .. } | Expr::Await { inner, .. } => {
            expr(known, owner, inner.get(), bodies)
        }
        Expr::Fun(closure) => fun(known, owner, closure.get(), bodies),
        Expr::Spawn { at, body, .. } => task(known, owner, *at, body.get(), bodies),
    }
}

/// Adds the bodies in the arguments of a call.
#[cycle(walk)]
#[tactic(auto, unfolding(crate::specs::Inside::expr_inside, sw_lower_rules::specs::Statements::expr_code))]
fn arguments<'a>(
    known: &Known<'_>,
    owner: Option<u32>,
    args: &'a [Arg],
    bodies: &mut BodyList<'a>,
) -> Result<(), AllocError>
    ensures { OnOk result (bodies_by (tables_by known.now) bodies.new
        ≡ bodies_by (tables_by known.now) bodies.old
        ++ args_inside (tables_by known.now) owner args.now) }
{
    for arg in args {
        expr(known, owner, &arg.value, bodies)?;
    }
    Ok(())
}

/// Adds the bodies in the right operands of a chain.
#[cycle(walk)]
#[tactic(auto, unfolding(crate::specs::Inside::expr_inside, sw_lower_rules::specs::Statements::expr_code))]
fn links<'a>(
    known: &Known<'_>,
    owner: Option<u32>,
    links: &'a [Link],
    bodies: &mut BodyList<'a>,
) -> Result<(), AllocError>
    ensures { OnOk result (bodies_by (tables_by known.now) bodies.new
        ≡ bodies_by (tables_by known.now) bodies.old
        ++ links_inside (tables_by known.now) owner links.now) }
{
    for link in links {
        expr(known, owner, &link.operand, bodies)?;
    }
    Ok(())
}

/// Adds the body of a closure, and those in it.
#[cycle(walk)]
#[tactic(auto, unfolding(crate::specs::Inside::block_inside, crate::specs::Trees::closure_code, sw_lower_rules::specs::Expressions::closure_body, sw_lower_rules::specs::Statements::block_code))]
fn fun<'a>(
    known: &Known<'_>,
    owner: Option<u32>,
    closure: &'a Closure,
    bodies: &mut BodyList<'a>,
) -> Result<(), AllocError>
    ensures { OnOk result (bodies_by (tables_by known.now) bodies.new
        ≡ bodies_by (tables_by known.now) bodies.old
        ++ fun_inside (tables_by known.now) owner closure.now) }
{
    add_known(
        known,
        closure.at,
        false,
        BodyForm::Closure { owner, closure },
        bodies,
    )?;
    block(known, owner, &closure.body, bodies)
}

/// Adds the body of a task whose word stands at `at`, and those in it.
#[cycle(walk)]
#[tactic(auto, unfolding(crate::specs::Inside::block_inside, crate::specs::Trees::closure_code, sw_lower_rules::specs::Expressions::closure_body, sw_lower_rules::specs::Statements::block_code))]
fn task<'a>(
    known: &Known<'_>,
    owner: Option<u32>,
    at: u32,
    closure: &'a Closure,
    bodies: &mut BodyList<'a>,
) -> Result<(), AllocError>
    ensures { OnOk result (bodies_by (tables_by known.now) bodies.new
        ≡ bodies_by (tables_by known.now) bodies.old
        ++ task_inside (tables_by known.now) owner at closure.now) }
{
    let form = BodyForm::Task { owner, at, closure };
    add_known(known, closure.at, false, form, bodies)?;
    block(known, owner, &closure.body, bodies)
}

/// Adds the bodies in a block.
#[cycle(walk)]
#[tactic(auto, unfolding(crate::specs::Inside::stmt_inside, crate::specs::Inside::expr_inside, crate::specs::Inside::block_inside, sw_lower_rules::specs::Statements::stmt_code, sw_lower_rules::specs::Statements::expr_code, sw_lower_rules::specs::Statements::block_code))]
pub fn block<'a>(
    known: &Known<'_>,
    owner: Option<u32>,
    tree: &'a Block,
    bodies: &mut BodyList<'a>,
) -> Result<(), AllocError>
    ensures { OnOk result (bodies_by (tables_by known.now) bodies.new
        ≡ bodies_by (tables_by known.now) bodies.old
        ++ block_inside (tables_by known.now) owner tree.now) }
{
    for stmt in tree.stmts.as_slice() {
        statement(known, owner, stmt, bodies)?;
    }
    Ok(())
}

/// Adds the bodies in the block of an `else` or of a `default`, where there is one.
#[cycle(walk)]
#[tactic(auto, unfolding(crate::specs::Inside::stmt_inside, crate::specs::Inside::expr_inside, crate::specs::Inside::block_inside, sw_lower_rules::specs::Statements::stmt_code, sw_lower_rules::specs::Statements::expr_code, sw_lower_rules::specs::Statements::block_code))]
fn other_block<'a>(
    known: &Known<'_>,
    owner: Option<u32>,
    tree: &'a Option<Block>,
    bodies: &mut BodyList<'a>,
) -> Result<(), AllocError>
    ensures { OnOk result (bodies_by (tables_by known.now) bodies.new
        ≡ bodies_by (tables_by known.now) bodies.old
        ++ other_inside (tables_by known.now) owner tree.now) }
{
    match tree {
        None => Ok(()),
        Some(tree) => block(known, owner, tree, bodies),
    }
}

/// Adds the bodies in the arms of an `if`.
#[cycle(walk)]
#[tactic(auto, unfolding(crate::specs::Inside::stmt_inside, crate::specs::Inside::expr_inside, crate::specs::Inside::block_inside, sw_lower_rules::specs::Statements::stmt_code, sw_lower_rules::specs::Statements::expr_code, sw_lower_rules::specs::Statements::block_code))]
fn if_arms<'a>(
    known: &Known<'_>,
    owner: Option<u32>,
    arms: &'a [IfArm],
    bodies: &mut BodyList<'a>,
) -> Result<(), AllocError>
    ensures { OnOk result (bodies_by (tables_by known.now) bodies.new
        ≡ bodies_by (tables_by known.now) bodies.old
        ++ ifs_inside (tables_by known.now) owner arms.now) }
{
    for arm in arms {
        expr(known, owner, &arm.cond, bodies)?;
        block(known, owner, &arm.body, bodies)?;
    }
    Ok(())
}

/// Adds the bodies in the arms of a `switch`.
#[cycle(walk)]
#[tactic(auto, unfolding(crate::specs::Inside::stmt_inside, crate::specs::Inside::expr_inside, crate::specs::Inside::block_inside, sw_lower_rules::specs::Statements::stmt_code, sw_lower_rules::specs::Statements::expr_code, sw_lower_rules::specs::Statements::block_code))]
fn case_arms<'a>(
    known: &Known<'_>,
    owner: Option<u32>,
    arms: &'a [CaseArm],
    bodies: &mut BodyList<'a>,
) -> Result<(), AllocError>
    ensures { OnOk result (bodies_by (tables_by known.now) bodies.new
        ≡ bodies_by (tables_by known.now) bodies.old
        ++ cases_inside (tables_by known.now) owner arms.now) }
{
    for arm in arms {
        block(known, owner, &arm.body, bodies)?;
    }
    Ok(())
}

/// Adds the bodies in a statement.
#[cycle(walk)]
#[tactic(auto, unfolding(crate::specs::Inside::stmt_inside, crate::specs::Inside::expr_inside, crate::specs::Inside::block_inside, sw_lower_rules::specs::Statements::stmt_code, sw_lower_rules::specs::Statements::expr_code, sw_lower_rules::specs::Statements::block_code))]
fn statement<'a>(
    known: &Known<'_>,
    owner: Option<u32>,
    tree: &'a Stmt,
    bodies: &mut BodyList<'a>,
) -> Result<(), AllocError>
    ensures { OnOk result (bodies_by (tables_by known.now) bodies.new
        ≡ bodies_by (tables_by known.now) bodies.old
        ++ stmt_inside (tables_by known.now) owner tree.now) }
{
    match tree {
        Stmt::Bind { value, .. } | Stmt::Discard { value, .. } | Stmt::Plain(value) => {
            expr(known, owner, value, bodies)
        }
        Stmt::Assign { place, value, .. } => {
            expr(known, owner, place, bodies)?;
            expr(known, owner, value, bodies)
        }
        Stmt::If { arms, otherwise } => {
            if_arms(known, owner, arms.as_slice(), bodies)?;
            other_block(known, owner, otherwise, bodies)
        }
        Stmt::While { cond, body, .. } => {
            expr(known, owner, cond, bodies)?;
            block(known, owner, body, bodies)
        }
        Stmt::Switch {
            subject,
            arms,
            otherwise,
            ..
        } => {
            expr(known, owner, subject, bodies)?;
            case_arms(known, owner, arms.as_slice(), bodies)?;
            other_block(known, owner, otherwise, bodies)
        }
        Stmt::Return { value: None, .. } | Stmt::Break { .. } | Stmt::Continue { .. } => Ok(()),
        Stmt::Return {
            value: Some(value),
            ..
        } => expr(known, owner, value, bodies),
    }
}
