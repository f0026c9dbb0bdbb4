//! Expressions and statements at any depth.
ghost use Rattle.std.specs.Prelude.{◌≡◌, ◌++◌, OnOk};
ghost use Rattle.sw_isolation_table.specs.Known.{answers_of};
ghost use Rattle.sw_isolation_rules.specs.Noting.{block_notes, fun_notes, in_await, in_closure};
ghost use Rattle.sw_isolation_rules.specs.Noting.{place_notes, see, stmt_notes, task_notes};
ghost use Rattle.sw_isolation_rules.specs.Noting.{var_notes};
ghost use Rattle.sw_isolation_walk.specs.Walked.{args_noted, before_place, case_arms_noted};
ghost use Rattle.sw_isolation_walk.specs.Walked.{closure_seen, if_arm_noted, if_arms_noted, is_set};
ghost use Rattle.sw_isolation_walk.specs.Walked.{links_noted, otherwise_noted, stmts_noted};
ghost use Rattle.sw_isolation_walk.specs.Walked.{written_place};
ghost use Rattle.sw_typing_rules.specs.Worlds.{world_of};

use crate::places::{base_at, written};
use std::alloc::{AllocError, Global};
use sw_decls::Decls;
use sw_isolation_captures::{Listed, close, list_words, mention_list, mention_self, mention_word};
use sw_isolation_rules::{Context, Note};
use sw_isolation_steps::{
    await_notes, closure_iso, member_notes, note_body, task_iso, task_races, word_notes,
};
use sw_list::ListOf;
use sw_tree::{Arg, AssignOp, Block, CaseArm, Closure, Expr, IfArm, Link, Stmt};
use sw_types::Iso;
use sw_typing_table::Typed;

/// What an `await` covers.
fn in_await(context: Context) -> Context
    ensures { result ≡ in_await context }
{
    Context {
        awaited: true,
        ..context
    }
}

/// The body of a closure or a task: no `await` outside covers it.
fn in_closure(context: Context, iso: Iso, is_async: bool) -> Context
    ensures { result ≡ in_closure context iso is_async }
{
    Context {
        iso,
        is_async,
        awaited: false,
        ..context
    }
}

/// Notes the declaration of a variable by `var`.
fn var_notes(mutable: bool, at: u32, notes: &mut ListOf<Note>) -> Result<(), AllocError>
    ensures { OnOk result (notes.new ≡ notes.old ++ var_notes mutable at) }
{
    if mutable {
        notes.push(Note::Var(at))?;
    }
    Ok(())
}

/// Whether it is `=`.
fn is_set(op: AssignOp) -> bool
    ensures { result ≡ is_set op }
{
    match op {
        AssignOp::Set => true,
        AssignOp::Add
        | AssignOp::Subtract
        | AssignOp::Multiply
        | AssignOp::Divide
        | AssignOp::Remainder => false,
    }
}

/// Notes an expression. `listed` has the variables that the closures around list, and has the same
/// again at the end.
#[cycle(walk)]
#[tactic(auto, unfolding(sw_isolation_rules::specs::Noting::see))]
pub fn expr(
    alloc: Global,
    world: &Decls,
    typed: &Typed,
    context: Context,
    tree: &Expr,
    listed: &mut Listed,
    notes: &mut ListOf<Note>,
) -> Result<(), AllocError>
    ensures notes { OnOk result (notes.new ≡ notes.old
        ++ (see (world_of world.now) (answers_of typed.now) tree.now).notes context listed.old) }
    ensures listed { OnOk result (listed.new ≡ listed.old) }
{
    match tree {
        Expr::Int { .. } | Expr::Bool { .. } => Ok(()),
        Expr::Use { name } => word_notes(world, typed, context, name.at, notes),
        Expr::Me { at } => mention_self(world, context.owner, *at, notes),
        Expr::Member { base, name } => {
            let base = base.get();
            expr(alloc, world, typed, context, base, listed, notes)?;
            let known = base_at(typed, base);
            member_notes(world, typed, context, known, name.at, notes)
        }
        Expr::Call { name, args } => {
            word_notes(world, typed, context, name.at, notes)?;
            let args = args.as_slice();
            arguments(alloc, world, typed, context, args, listed, notes)
        }
        Expr::Method { base, name, args } => {
            let base = base.get();
            expr(alloc, world, typed, context, base, listed, notes)?;
            let known = base_at(typed, base);
            member_notes(world, typed, context, known, name.at, notes)?;
            let args = args.as_slice();
            arguments(alloc, world, typed, context, args, listed, notes)
        }
        Expr::Chain { first, rest } => {
            expr(alloc, world, typed, context, first.get(), listed, notes)?;
            links(alloc, world, typed, context, rest.as_slice(), listed, notes)
        }
        Expr::Prefix { inner, .. } => {
            expr(alloc, world, typed, context, inner.get(), listed, notes)
        }
        Expr::Await { inner, .. } => {
            let context = in_await(context);
            expr(alloc, world, typed, context, inner.get(), listed, notes)
        }
        Expr::Fun(tree) => fun(alloc, world, typed, context, tree.get(), listed, notes),
        Expr::Spawn { at, detached, body } => task(
            alloc,
            world,
            typed,
            context,
            *at,
            *detached,
            body.get(),
            listed,
            notes,
        ),
        Expr::Yield { at } => await_notes(context, *at, true, notes),
    }
}

/// Notes the arguments of a call.
#[cycle(walk)]
fn arguments(
    alloc: Global,
    world: &Decls,
    typed: &Typed,
    context: Context,
    args: &[Arg],
    listed: &mut Listed,
    notes: &mut ListOf<Note>,
) -> Result<(), AllocError>
    ensures notes { OnOk result (notes.new ≡ notes.old
        ++ args_noted (world_of world.now) (answers_of typed.now) args.now context listed.old) }
    ensures listed { OnOk result (listed.new ≡ listed.old) }
{
    for arg in args {
        expr(alloc, world, typed, context, &arg.value, listed, notes)?;
    }
    Ok(())
}

/// Notes the right operands of the operators of a chain.
#[cycle(walk)]
fn links(
    alloc: Global,
    world: &Decls,
    typed: &Typed,
    context: Context,
    links: &[Link],
    listed: &mut Listed,
    notes: &mut ListOf<Note>,
) -> Result<(), AllocError>
    ensures notes { OnOk result (notes.new ≡ notes.old
        ++ links_noted (world_of world.now) (answers_of typed.now) links.now context listed.old) }
    ensures listed { OnOk result (listed.new ≡ listed.old) }
{
    for link in links {
        expr(alloc, world, typed, context, &link.operand, listed, notes)?;
    }
    Ok(())
}

/// Notes a closure as a value: its body, and what is noted inside.
#[cycle(walk)]
fn fun(
    alloc: Global,
    world: &Decls,
    typed: &Typed,
    context: Context,
    tree: &Closure,
    listed: &mut Listed,
    notes: &mut ListOf<Note>,
) -> Result<(), AllocError>
    ensures notes { OnOk result (notes.new ≡ notes.old
        ++ fun_notes (world_of world.now) (answers_of typed.now)
        (closure_seen (world_of world.now) (answers_of typed.now) tree.now) context listed.old) }
    ensures listed { OnOk result (listed.new ≡ listed.old) }
{
    let iso = closure_iso(typed, tree.at, context.iso);
    note_body(tree.at, iso, false, notes)?;
    let inside = in_closure(context, iso, false);
    closure(alloc, world, typed, inside, tree, listed, notes)
}

/// Notes a task whose word stands at `at`: its body, whether its result may cross, and what is
/// noted inside.
#[cycle(walk)]
fn task(
    alloc: Global,
    world: &Decls,
    typed: &Typed,
    context: Context,
    at: u32,
    detached: bool,
    tree: &Closure,
    listed: &mut Listed,
    notes: &mut ListOf<Note>,
) -> Result<(), AllocError>
    ensures notes { OnOk result (notes.new ≡ notes.old
        ++ task_notes (world_of world.now) (answers_of typed.now) at detached
        (closure_seen (world_of world.now) (answers_of typed.now) tree.now) context listed.old) }
    ensures listed { OnOk result (listed.new ≡ listed.old) }
{
    let iso = task_iso(world, tree.mark, detached, context.iso);
    note_body(tree.at, iso, true, notes)?;
    task_races(world, typed, at, notes)?;
    let inside = in_closure(context, iso, true);
    closure(alloc, world, typed, inside, tree, listed, notes)
}

/// Notes what is inside a closure or a task whose body has this context, and what it captures.
#[cycle(walk)]
fn closure(
    alloc: Global,
    world: &Decls,
    typed: &Typed,
    context: Context,
    tree: &Closure,
    listed: &mut Listed,
    notes: &mut ListOf<Note>,
) -> Result<(), AllocError>
    ensures notes { OnOk result (notes.new ≡ notes.old
        ++ (closure_seen (world_of world.now) (answers_of typed.now) tree.now).inside
        context listed.old) }
    ensures listed { OnOk result (listed.new ≡ listed.old) }
{
    let depth = listed.len();
    let words = tree.captures.as_slice();
    let mut inner = ListOf::new(alloc);
    mention_list(world, typed, context.owner, words, &mut inner)?;
    list_words(world, typed, context.owner, words, listed)?;
    block(alloc, world, typed, context, &tree.body, listed, &mut inner)?;
    close(alloc, world, context, tree.at, listed, inner, notes)?;
    listed.truncate(depth);
    Ok(())
}

/// Notes what stands before the last word of a place that is assigned by `=`. It is read; the place
/// itself isn't.
#[cycle(walk)]
#[tactic(auto, unfolding(crate::specs::Walked::before_place, sw_isolation_rules::specs::Noting::see))]
fn before(
    alloc: Global,
    world: &Decls,
    typed: &Typed,
    context: Context,
    tree: &Expr,
    listed: &mut Listed,
    notes: &mut ListOf<Note>,
) -> Result<(), AllocError>
    ensures notes { OnOk result (notes.new ≡ notes.old
        ++ before_place (world_of world.now) (answers_of typed.now) tree.now context listed.old) }
    ensures listed { OnOk result (listed.new ≡ listed.old) }
{
    match tree {
        Expr::Use { name } => mention_word(world, typed, context.owner, name.at, notes),
        Expr::Me { at } => mention_self(world, context.owner, *at, notes),
        Expr::Member { base, .. } => {
            expr(alloc, world, typed, context, base.get(), listed, notes)
        }
        Expr::Int { .. }
        | Expr::Bool { .. }
        | Expr::Call { .. }
        | Expr::Method { .. }
        | Expr::Chain { .. }
        | Expr::Prefix { .. }
        | Expr::Await { .. }
        | Expr::Fun(_)
        | Expr::Spawn { .. }
        | Expr::Yield { .. } => Ok(()),
    }
}

/// Notes a place that is assigned by `=`.
#[cycle(walk)]
fn assigned(
    alloc: Global,
    world: &Decls,
    typed: &Typed,
    context: Context,
    tree: &Expr,
    listed: &mut Listed,
    notes: &mut ListOf<Note>,
) -> Result<(), AllocError>
    ensures notes { OnOk result (notes.new ≡ notes.old
        ++ (before_place (world_of world.now) (answers_of typed.now) tree.now context listed.old
        ++ written_place (world_of world.now) (answers_of typed.now) tree.now context)) }
    ensures listed { OnOk result (listed.new ≡ listed.old) }
{
    before(alloc, world, typed, context, tree, listed, notes)?;
    written(world, typed, context, tree, notes)
}

/// Notes a place that is assigned by another operator, which reads it first.
#[cycle(walk)]
fn changed(
    alloc: Global,
    world: &Decls,
    typed: &Typed,
    context: Context,
    tree: &Expr,
    listed: &mut Listed,
    notes: &mut ListOf<Note>,
) -> Result<(), AllocError>
    ensures notes { OnOk result (notes.new ≡ notes.old
        ++ ((see (world_of world.now) (answers_of typed.now) tree.now).notes context listed.old
        ++ written_place (world_of world.now) (answers_of typed.now) tree.now context)) }
    ensures listed { OnOk result (listed.new ≡ listed.old) }
{
    expr(alloc, world, typed, context, tree, listed, notes)?;
    written(world, typed, context, tree, notes)
}

/// Notes a place that is assigned by this operator.
#[cycle(walk)]
#[tactic(auto, using(crate::proofs::Wholes::set_place, crate::proofs::Wholes::changed_place))]
fn place(
    alloc: Global,
    world: &Decls,
    typed: &Typed,
    context: Context,
    op: AssignOp,
    tree: &Expr,
    listed: &mut Listed,
    notes: &mut ListOf<Note>,
) -> Result<(), AllocError>
    ensures notes { OnOk result (notes.new ≡ notes.old
        ++ place_notes (world_of world.now) (answers_of typed.now) op
        (see (world_of world.now) (answers_of typed.now) tree.now) context listed.old) }
    ensures listed { OnOk result (listed.new ≡ listed.old) }
{
    if is_set(op) {
        assigned(alloc, world, typed, context, tree, listed, notes)
    } else {
        changed(alloc, world, typed, context, tree, listed, notes)
    }
}

/// Notes the statements of a block.
#[cycle(walk)]
pub fn block(
    alloc: Global,
    world: &Decls,
    typed: &Typed,
    context: Context,
    tree: &Block,
    listed: &mut Listed,
    notes: &mut ListOf<Note>,
) -> Result<(), AllocError>
    ensures notes { OnOk result (notes.new ≡ notes.old
        ++ block_notes (world_of world.now) (answers_of typed.now) tree.now context listed.old) }
    ensures listed { OnOk result (listed.new ≡ listed.old) }
{
    let trees = tree.stmts.as_slice();
    stmts(alloc, world, typed, context, trees, listed, notes)
}

/// Notes statements in order.
#[cycle(walk)]
fn stmts(
    alloc: Global,
    world: &Decls,
    typed: &Typed,
    context: Context,
    trees: &[Stmt],
    listed: &mut Listed,
    notes: &mut ListOf<Note>,
) -> Result<(), AllocError>
    ensures notes { OnOk result (notes.new ≡ notes.old
        ++ stmts_noted (world_of world.now) (answers_of typed.now) trees.now context listed.old) }
    ensures listed { OnOk result (listed.new ≡ listed.old) }
{
    for tree in trees {
        stmt(alloc, world, typed, context, tree, listed, notes)?;
    }
    Ok(())
}

/// Notes the arms of an `if`.
#[cycle(walk)]
fn if_arms(
    alloc: Global,
    world: &Decls,
    typed: &Typed,
    context: Context,
    trees: &[IfArm],
    listed: &mut Listed,
    notes: &mut ListOf<Note>,
) -> Result<(), AllocError>
    ensures notes { OnOk result (notes.new ≡ notes.old
        ++ if_arms_noted (world_of world.now) (answers_of typed.now) trees.now
        context listed.old) }
    ensures listed { OnOk result (listed.new ≡ listed.old) }
{
    for tree in trees {
        if_arm(alloc, world, typed, context, tree, listed, notes)?;
    }
    Ok(())
}

/// Notes an arm of an `if`.
#[cycle(walk)]
fn if_arm(
    alloc: Global,
    world: &Decls,
    typed: &Typed,
    context: Context,
    tree: &IfArm,
    listed: &mut Listed,
    notes: &mut ListOf<Note>,
) -> Result<(), AllocError>
    ensures notes { OnOk result (notes.new ≡ notes.old
        ++ if_arm_noted (world_of world.now) (answers_of typed.now) tree.now context listed.old) }
    ensures listed { OnOk result (listed.new ≡ listed.old) }
{
    expr(alloc, world, typed, context, &tree.cond, listed, notes)?;
    block(alloc, world, typed, context, &tree.body, listed, notes)
}

/// Notes the block after `else` or `default`, where there is one.
#[cycle(walk)]
fn otherwise(
    alloc: Global,
    world: &Decls,
    typed: &Typed,
    context: Context,
    tree: &Option<Block>,
    listed: &mut Listed,
    notes: &mut ListOf<Note>,
) -> Result<(), AllocError>
    ensures notes { OnOk result (notes.new ≡ notes.old
        ++ otherwise_noted (world_of world.now) (answers_of typed.now) tree.now
        context listed.old) }
    ensures listed { OnOk result (listed.new ≡ listed.old) }
{
    match tree {
        None => Ok(()),
        Some(tree) => block(alloc, world, typed, context, tree, listed, notes),
    }
}

/// Notes the arms of a `switch`.
#[cycle(walk)]
fn case_arms(
    alloc: Global,
    world: &Decls,
    typed: &Typed,
    context: Context,
    trees: &[CaseArm],
    listed: &mut Listed,
    notes: &mut ListOf<Note>,
) -> Result<(), AllocError>
    ensures notes { OnOk result (notes.new ≡ notes.old
        ++ case_arms_noted (world_of world.now) (answers_of typed.now) trees.now
        context listed.old) }
    ensures listed { OnOk result (listed.new ≡ listed.old) }
{
    for tree in trees {
        block(alloc, world, typed, context, &tree.body, listed, notes)?;
    }
    Ok(())
}

/// Notes a statement.
#[cycle(walk)]
#[tactic(auto, unfolding(sw_isolation_rules::specs::Noting::stmt_notes))]
fn stmt(
    alloc: Global,
    world: &Decls,
    typed: &Typed,
    context: Context,
    tree: &Stmt,
    listed: &mut Listed,
    notes: &mut ListOf<Note>,
) -> Result<(), AllocError>
    ensures notes { OnOk result (notes.new ≡ notes.old
        ++ stmt_notes (world_of world.now) (answers_of typed.now) tree.now context listed.old) }
    ensures listed { OnOk result (listed.new ≡ listed.old) }
{
    match tree {
        Stmt::Bind {
            mutable,
            name,
            value,
            ..
        } => {
            var_notes(*mutable, name.at, notes)?;
            expr(alloc, world, typed, context, value, listed, notes)
        }
        Stmt::Assign {
            op,
            place: left,
            value,
            ..
        } => {
            place(alloc, world, typed, context, *op, left, listed, notes)?;
            expr(alloc, world, typed, context, value, listed, notes)
        }
        Stmt::Discard { value, .. } => expr(alloc, world, typed, context, value, listed, notes),
        Stmt::If {
            arms,
            otherwise: last,
        } => {
            let arms = arms.as_slice();
            if_arms(alloc, world, typed, context, arms, listed, notes)?;
            otherwise(alloc, world, typed, context, last, listed, notes)
        }
        Stmt::While { cond, body, .. } => {
            expr(alloc, world, typed, context, cond, listed, notes)?;
            block(alloc, world, typed, context, body, listed, notes)
        }
        Stmt::Switch {
            subject,
            arms,
            otherwise: last,
            ..
        } => {
            let arms = arms.as_slice();
            expr(alloc, world, typed, context, subject, listed, notes)?;
            case_arms(alloc, world, typed, context, arms, listed, notes)?;
            otherwise(alloc, world, typed, context, last, listed, notes)
        }
        Stmt::Return { value, .. } => match value {
            None => Ok(()),
            Some(value) => expr(alloc, world, typed, context, value, listed, notes),
        },
        Stmt::Break { .. } | Stmt::Continue { .. } => Ok(()),
        Stmt::Plain(value) => expr(alloc, world, typed, context, value, listed, notes),
    }
}
