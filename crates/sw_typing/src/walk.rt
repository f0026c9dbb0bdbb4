//! Expressions and statements at any depth.
ghost use Rattle.std.specs.Prelude.{◌≡◌, ◌≤◌, ◌++◌, false, length, take, IfOk, OnOk};
ghost use Rattle.std.specs.Option.{option_copied};
ghost use Rattle.sw_typing_rules.specs.Calls.{slots_of};
ghost use Rattle.sw_typing_rules.specs.Expressions.{base_rows};
ghost use Rattle.sw_typing_rules.specs.Worlds.{world_of};
ghost use Rattle.sw_typing_words.specs.Callees.{as_callee};
ghost use Rattle.sw_typing_steps.specs.Steps.{enclosed_of, judged_since, known_of, setting_in};
ghost use Rattle.sw_typing_steps.specs.Steps.{state_of, went_of};
ghost use Rattle.sw_typing.specs.Walked.{args_passed, block_left, case_arm_left, case_arms_left};
ghost use Rattle.sw_typing.specs.Walked.{called_member, closure_known, expr_known, if_arm_left};
ghost use Rattle.sw_typing.specs.Walked.{if_arms_left, links_known, otherwise_left, stmt_left};
ghost use Rattle.sw_typing.specs.Walked.{stmts_left};

use crate::settings::{beside, in_body, in_branch, in_loop, in_switch, is_one, then, with_only};
use crate::steps::{note_fun, note_task};
use std::alloc::{AllocError, Global};
use sw_decls::{Decls, label_id};
use sw_list::ListOf;
use sw_tree::{Arg, Block, CaseArm, Closure, Expr, IfArm, Link, Name, Stmt};
use sw_types::{CaseList, Ty};
use sw_typing_rules::{Given, Inside, Verdict};
use sw_typing_steps::{
    Enclosed, Known, Table, Went, assign, assign_place, awaited, bind, break_out, call,
    callee_by_member, callee_by_word, close_closure, condition, continue_on, declare_patterns,
    expects, forget_enum, infix, literal_bool, marked_result, member, note, open_closure, plain,
    prefix, return_value, return_void, switch_end, word,
};
use sw_typing_words::{Callee, cases_of, is_marked_at, marked_type, me_types, written};

/// An expression, where a `@Sendable` function is `expected` or not.
#[cycle(walk)]
#[tactic(auto, using(crate::proofs::Since::rows_after, crate::proofs::Since::member_rows, crate::proofs::Since::chain_is, crate::proofs::Forms::fun_is, crate::proofs::Forms::spawn_is, crate::proofs::Forms::method_is))]
pub fn expr(
    alloc: Global,
    world: &Decls,
    owner: Option<u32>,
    expected: bool,
    tree: &Expr,
    table: &mut Table,
) -> Result<Known, AllocError>
    ensures known { IfOk result (λ known. known ≡ known_of
        (expr_known (world_of world.now) tree.now (setting_in owner table.old) expected)) }
    ensures rows { OnOk result (table.new.rows ≡ table.old.rows ++
        (expr_known (world_of world.now) tree.now (setting_in owner table.old) expected).rows) }
    ensures vars { OnOk result (table.new.vars ≡ table.old.vars) }
    ensures returned { OnOk result (table.new.returned ≡ table.old.returned) }
{
    match tree {
        Expr::Int { at, .. } => note(alloc, *at, Verdict::Has(Ty::Int), table),
        Expr::Bool { at, value } => literal_bool(*at, *value, table),
        Expr::Use { name } => word(alloc, world, owner, *name, table),
        Expr::Me { at } => note(alloc, *at, me_types(owner), table),
        Expr::Member { base, name } => {
            let start = table.rows.len();
            let base = expr(alloc, world, owner, false, base.get(), table)?;
            member(alloc, world, start, base, *name, table)
        }
        Expr::Call { name, args } => {
            let callee = callee_by_word(alloc, world, owner, *name, table)?;
            let given = pass(alloc, world, owner, &callee, args.as_slice(), table)?;
            call(alloc, world, callee, name.at, given, table)
        }
        Expr::Method { base, name, args } => {
            let callee = callee_of(alloc, world, owner, base.get(), *name, table)?;
            let given = pass(alloc, world, owner, &callee, args.as_slice(), table)?;
            call(alloc, world, callee, name.at, given, table)
        }
        Expr::Chain { first, rest } => {
            let start = table.rows.len();
            let first = expr(alloc, world, owner, false, first.get(), table)?;
            links(alloc, world, owner, start, first, rest.as_slice(), table)
        }
        Expr::Prefix { op, at, inner } => {
            let inner = expr(alloc, world, owner, false, inner.get(), table)?;
            prefix(alloc, *op, *at, inner, table)
        }
        Expr::Await { at, inner } => {
            let inner = expr(alloc, world, owner, false, inner.get(), table)?;
            awaited(alloc, *at, inner, table)
        }
        Expr::Fun(tree) => {
            let closed = closure(alloc, world, owner, tree.get(), table)?;
            note_fun(alloc, expected, closed, table)
        }
        Expr::Spawn { at, body, .. } => {
            let closed = closure(alloc, world, owner, body.get(), table)?;
            note_task(alloc, *at, closed, table)
        }
        Expr::Yield { at } => note(alloc, *at, Verdict::Has(Ty::Unit), table),
    }
}

/// What a call of a member of `base` calls.
#[cycle(walk)]
#[tactic(auto, using(crate::proofs::Since::base_rows_since), unfolding(crate::specs::Walked::called_member))]
fn callee_of(
    alloc: Global,
    world: &Decls,
    owner: Option<u32>,
    base: &Expr,
    name: Name,
    table: &mut Table,
) -> Result<Callee, AllocError>
    ensures callee { IfOk result (λ callee. as_callee (world_of world.now) callee
        ≡ called_member (world_of world.now) base.now (setting_in owner table.old) name) }
    ensures rows { OnOk result (table.new.rows ≡ table.old.rows ++ base_rows
        (expr_known (world_of world.now) base.now (setting_in owner table.old) false)) }
    ensures vars { OnOk result (table.new.vars ≡ table.old.vars) }
    ensures returned { OnOk result (table.new.returned ≡ table.old.returned) }
{
    let start = table.rows.len();
    let base = expr(alloc, world, owner, false, base, table)?;
    forget_enum(start, &base, table);
    callee_by_member(alloc, world, &base, name)
}

/// The arguments of a call, each with the parameter that takes it.
#[cycle(walk)]
#[tactic(auto, using(crate::proofs::Walking::later_drop, crate::proofs::Since::rows_after, crate::proofs::Since::given_after))]
fn pass(
    alloc: Global,
    world: &Decls,
    owner: Option<u32>,
    callee: &Callee,
    args: &[Arg],
    table: &mut Table,
) -> Result<ListOf<Given>, AllocError>
    ensures given { IfOk result (λ given. given
        ≡ (args_passed (world_of world.now) args.now (setting_in owner table.old)
        (slots_of (as_callee (world_of world.now) callee.now))).given) }
    ensures rows { OnOk result (table.new.rows ≡ table.old.rows ++
        (args_passed (world_of world.now) args.now (setting_in owner table.old)
        (slots_of (as_callee (world_of world.now) callee.now))).rows) }
    ensures vars { OnOk result (table.new.vars ≡ table.old.vars) }
    ensures returned { OnOk result (table.new.returned ≡ table.old.returned) }
{
    let mut given = ListOf::new(alloc);
    for (index, arg) in args.iter().enumerate() {
        let marked = is_marked_at(world, callee, index);
        let value = expr(alloc, world, owner, marked, &arg.value, table)?;
        given.push(Given {
            label: label_id(arg.label),
            ty: value.ty,
        })?;
    }
    Ok(given)
}

/// The operators of a chain, after what stands before them, which was judged since the table had
/// `start` rows.
#[cycle(walk)]
fn links(
    alloc: Global,
    world: &Decls,
    owner: Option<u32>,
    start: usize,
    first: Known,
    links: &[Link],
    table: &mut Table,
) -> Result<Known, AllocError>
    requires { start ≤ length table.old.rows }
    ensures known { IfOk result
        (λ known. known ≡ known_of (links_known (world_of world.now) links.now
        (setting_in owner table.old) (judged_since first start table.old))) }
    ensures rows { OnOk result (table.new.rows ≡ take start table.old.rows ++
        (links_known (world_of world.now) links.now
        (setting_in owner table.old) (judged_since first start table.old)).rows) }
    ensures vars { OnOk result (table.new.vars ≡ table.old.vars) }
    ensures returned { OnOk result (table.new.returned ≡ table.old.returned) }
{
    let mut left = first;
    for link in links {
        let right = expr(alloc, world, owner, false, &link.operand, table)?;
        left = infix(alloc, link.op, link.at, left, right, table)?;
    }
    Ok(left)
}

/// A closure or the body of a task.
#[cycle(walk)]
#[tactic(auto, using(crate::proofs::Since::rows_after), unfolding(crate::specs::Walked::closure_known))]
fn closure(
    alloc: Global,
    world: &Decls,
    owner: Option<u32>,
    tree: &Closure,
    table: &mut Table,
) -> Result<Enclosed, AllocError>
    ensures enclosed { IfOk result
        (λ closed. closed ≡ enclosed_of (closure_known (world_of world.now) tree.now
        (setting_in owner table.old))) }
    ensures rows { OnOk result (table.new.rows ≡ table.old.rows ++
        (closure_known (world_of world.now) tree.now
        (setting_in owner table.old)).rows) }
    ensures vars { OnOk result (table.new.vars ≡ table.old.vars) }
    ensures returned { OnOk result (table.new.returned ≡ table.old.returned) }
{
    let opened = open_closure(alloc, world, tree, table)?;
    let went = block(alloc, world, in_body(owner, false), &tree.body, table)?;
    close_closure(tree.at, tree.mark, opened, went, table)
}

/// A block: its variables are visible in it alone.
#[cycle(walk)]
#[tactic(auto, using(crate::proofs::Walking::block_is, crate::proofs::Keeping::stmts_keep, crate::proofs::Since::state_vars, crate::proofs::Since::state_returned))]
pub fn block(
    alloc: Global,
    world: &Decls,
    inside: Inside,
    tree: &Block,
    table: &mut Table,
) -> Result<Went, AllocError>
    ensures went { IfOk result (λ went. went ≡ went_of
        (block_left (world_of world.now) tree.now inside (state_of table.old))) }
    ensures rows { OnOk result (table.new.rows ≡ table.old.rows ++
        (block_left (world_of world.now) tree.now inside (state_of table.old)).rows) }
    ensures vars { OnOk result (table.new.vars ≡ table.old.vars) }
    ensures returned { OnOk result (table.new.returned ≡
        (block_left (world_of world.now) tree.now inside (state_of table.old)).state.returned) }
{
    let depth = table.vars.len();
    let inside = with_only(inside, is_one(tree.stmts.as_slice()));
    let went = stmts(alloc, world, inside, tree.stmts.as_slice(), table)?;
    table.vars.truncate(depth);
    Ok(went)
}

/// Statements in order.
#[cycle(walk)]
#[tactic(auto, using(crate::proofs::Loops::or_after, crate::proofs::Loops::and_after, crate::proofs::Since::rows_after))]
fn stmts(
    alloc: Global,
    world: &Decls,
    inside: Inside,
    trees: &[Stmt],
    table: &mut Table,
) -> Result<Went, AllocError>
    ensures went { IfOk result (λ went. went ≡ went_of
        (stmts_left (world_of world.now) trees.now inside (state_of table.old))) }
    ensures rows { OnOk result (table.new.rows ≡ table.old.rows ++
        (stmts_left (world_of world.now) trees.now inside (state_of table.old)).rows) }
    ensures state { OnOk result (state_of table.new ≡
        (stmts_left (world_of world.now) trees.now inside (state_of table.old)).state) }
{
    let mut went = Went {
        fine: true,
        ends: false,
        breaks: false,
    };
    for tree in trees {
        let one = stmt(alloc, world, inside, tree, table)?;
        went = then(went, one);
    }
    Ok(went)
}

/// The arms of an `if`.
#[cycle(walk)]
fn if_arms(
    alloc: Global,
    world: &Decls,
    inside: Inside,
    trees: &[IfArm],
    table: &mut Table,
) -> Result<Went, AllocError>
    ensures went { IfOk result (λ went. went ≡ went_of
        (if_arms_left (world_of world.now) trees.now inside (state_of table.old))) }
    ensures rows { OnOk result (table.new.rows ≡ table.old.rows ++
        (if_arms_left (world_of world.now) trees.now inside (state_of table.old)).rows) }
    ensures state { OnOk result (state_of table.new ≡
        (if_arms_left (world_of world.now) trees.now inside (state_of table.old)).state) }
{
    let mut went = Went {
        fine: true,
        ends: true,
        breaks: false,
    };
    for tree in trees {
        let one = if_arm(alloc, world, inside, tree, table)?;
        went = beside(went, one);
    }
    Ok(went)
}

/// An arm of an `if`.
#[cycle(walk)]
fn if_arm(
    alloc: Global,
    world: &Decls,
    inside: Inside,
    tree: &IfArm,
    table: &mut Table,
) -> Result<Went, AllocError>
    ensures went { IfOk result (λ went. went ≡ went_of
        (if_arm_left (world_of world.now) tree.now inside (state_of table.old))) }
    ensures rows { OnOk result (table.new.rows ≡ table.old.rows ++
        (if_arm_left (world_of world.now) tree.now inside (state_of table.old)).rows) }
    ensures state { OnOk result (state_of table.new ≡
        (if_arm_left (world_of world.now) tree.now inside (state_of table.old)).state) }
{
    let cond = expr(alloc, world, inside.owner, false, &tree.cond, table)?;
    let is = condition(&cond, table)?;
    let body = block(alloc, world, in_branch(inside), &tree.body, table)?;
    Ok(Went {
        fine: is && body.fine,
        ends: body.ends,
        breaks: body.breaks,
    })
}

/// The block after `else` or `default`; whether the ways end where there is none.
#[cycle(walk)]
#[tactic(auto, using(sw_typing_rules::proofs::Complete::otherwise_some))]
fn otherwise(
    alloc: Global,
    world: &Decls,
    inside: Inside,
    ends: bool,
    tree: &Option<Block>,
    table: &mut Table,
) -> Result<Went, AllocError>
    ensures went { IfOk result (λ went. went ≡ went_of
        (otherwise_left (world_of world.now) tree.now ends inside (state_of table.old))) }
    ensures rows { OnOk result (table.new.rows ≡ table.old.rows ++
        (otherwise_left (world_of world.now) tree.now ends inside (state_of table.old)).rows) }
    ensures state { OnOk result (state_of table.new ≡
        (otherwise_left (world_of world.now) tree.now ends inside (state_of table.old)).state) }
{
    match tree {
        None => Ok(Went {
            fine: true,
            ends,
            breaks: false,
        }),
        Some(tree) => block(alloc, world, in_branch(inside), tree, table),
    }
}

/// The arms of a `switch` over these cases.
#[cycle(walk)]
fn case_arms(
    alloc: Global,
    world: &Decls,
    inside: Inside,
    cases: Option<&CaseList>,
    trees: &[CaseArm],
    table: &mut Table,
) -> Result<Went, AllocError>
    ensures went { IfOk result (λ went. went ≡ went_of
        (case_arms_left (world_of world.now) trees.now (option_copied cases.entry) inside
        (state_of table.old)).left) }
    ensures rows { OnOk result (table.new.rows ≡ table.old.rows ++
        (case_arms_left (world_of world.now) trees.now (option_copied cases.entry) inside
        (state_of table.old)).left.rows) }
    ensures state { OnOk result (state_of table.new ≡
        (case_arms_left (world_of world.now) trees.now (option_copied cases.entry) inside
        (state_of table.old)).left.state) }
{
    let mut went = Went {
        fine: true,
        ends: true,
        breaks: false,
    };
    for tree in trees {
        let one = case_arm(alloc, world, inside, cases, tree, table)?;
        went = beside(went, one);
    }
    Ok(went)
}

/// An arm of a `switch` over these cases.
#[cycle(walk)]
fn case_arm(
    alloc: Global,
    world: &Decls,
    inside: Inside,
    cases: Option<&CaseList>,
    tree: &CaseArm,
    table: &mut Table,
) -> Result<Went, AllocError>
    ensures went { IfOk result (λ went. went ≡ went_of
        (case_arm_left (world_of world.now) tree.now (option_copied cases.entry) inside
        (state_of table.old))) }
    ensures rows { OnOk result (table.new.rows ≡ table.old.rows ++
        (case_arm_left (world_of world.now) tree.now (option_copied cases.entry) inside
        (state_of table.old)).rows) }
    ensures state { OnOk result (state_of table.new ≡
        (case_arm_left (world_of world.now) tree.now (option_copied cases.entry) inside
        (state_of table.old)).state) }
{
    let depth = table.vars.len();
    let fit = declare_patterns(alloc, cases, tree, table)?;
    let body = block(alloc, world, in_branch(inside), &tree.body, table)?;
    table.vars.truncate(depth);
    Ok(Went {
        fine: fit && body.fine,
        ends: body.ends,
        breaks: body.breaks,
    })
}

/// A statement.
#[cycle(walk)]
#[tactic(auto, using(crate::proofs::Since::rows_after, crate::proofs::Since::return_rows, crate::proofs::Since::plain_rows, crate::proofs::Since::switch_rows, crate::proofs::Walking::heads_are))]
fn stmt(
    alloc: Global,
    world: &Decls,
    inside: Inside,
    tree: &Stmt,
    table: &mut Table,
) -> Result<Went, AllocError>
    ensures went { IfOk result (λ went. went ≡ went_of
        (stmt_left (world_of world.now) tree.now inside (state_of table.old))) }
    ensures rows { OnOk result (table.new.rows ≡ table.old.rows ++
        (stmt_left (world_of world.now) tree.now inside (state_of table.old)).rows) }
    ensures state { OnOk result (state_of table.new ≡
        (stmt_left (world_of world.now) tree.now inside (state_of table.old)).state) }
{
    match tree {
        Stmt::Bind {
            mutable,
            name,
            ty,
            value,
        } => {
            let start = table.rows.len();
            let ty = written(alloc, world, ty)?;
            let value = expr(alloc, world, inside.owner, marked_type(&ty), value, table)?;
            bind(alloc, start, *mutable, *name, ty, value, table)
        }
        Stmt::Assign {
            at,
            op,
            place,
            value,
        } => {
            let place = expr(alloc, world, inside.owner, false, place, table)?;
            let ty = assign_place(inside, place, table)?;
            let value = expr(alloc, world, inside.owner, marked_type(&ty), value, table)?;
            assign(*at, *op, &ty, &value, table)
        }
        Stmt::Discard { value, .. } => {
            let value = expr(alloc, world, inside.owner, false, value, table)?;
            Ok(Went {
                fine: value.ty.is_some(),
                ends: false,
                breaks: false,
            })
        }
        Stmt::If {
            arms,
            otherwise: last,
        } => {
            let one = if_arms(alloc, world, inside, arms.as_slice(), table)?;
            let other = otherwise(alloc, world, inside, false, last, table)?;
            Ok(beside(one, other))
        }
        Stmt::While { cond, body, .. } => {
            let cond = expr(alloc, world, inside.owner, false, cond, table)?;
            let is = condition(&cond, table)?;
            let body = block(alloc, world, in_loop(inside), body, table)?;
            Ok(Went {
                fine: is && body.fine,
                ends: cond.is_true && !body.breaks,
                breaks: false,
            })
        }
        Stmt::Switch {
            at,
            subject,
            arms,
            otherwise: last,
        } => {
            let start = table.rows.len();
            let inside = in_switch(inside);
            let arms = arms.as_slice();
            let subject = expr(alloc, world, inside.owner, false, subject, table)?;
            let cases = cases_of(world, &subject.ty);
            let one = case_arms(alloc, world, inside, cases, arms, table)?;
            let other = otherwise(alloc, world, inside, true, last, table)?;
            let inner = beside(one, other);
            switch_end(
                start,
                *at,
                cases,
                &subject,
                arms,
                last.is_some(),
                inner,
                table,
            )
        }
        Stmt::Return { at, value } => match value {
            None => return_void(*at, table),
            Some(value) => {
                let start = table.rows.len();
                let marked = marked_result(&table.returned);
                let value = expr(alloc, world, inside.owner, marked, value, table)?;
                return_value(start, *at, value, table)
            }
        },
        Stmt::Break { at } => break_out(inside, *at, table),
        Stmt::Continue { at } => continue_on(inside, *at, table),
        Stmt::Plain(value) => {
            let start = table.rows.len();
            let marked = expects(inside.only, table);
            let value = expr(alloc, world, inside.owner, marked, value, table)?;
            plain(start, inside.only, value, table)
        }
    }
}
