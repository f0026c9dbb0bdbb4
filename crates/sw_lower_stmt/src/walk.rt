//! Statements and blocks at any depth.
#![tactic(auto, unfolding(crate::specs::Parts::arm_opened, crate::specs::Parts::case_code, crate::specs::Parts::ended, crate::specs::Parts::if_arm_code, crate::specs::Parts::joined_in, sw_lower_code::specs::Code::andthen, sw_lower_code::specs::Code::block_for, sw_lower_code::specs::Code::close, sw_lower_code::specs::Code::done, sw_lower_code::specs::Code::resume, sw_lower_code::specs::Code::scope, sw_lower_rules::specs::Statements::block_code, sw_lower_rules::specs::Statements::expr_code, sw_lower_rules::specs::Statements::stmt_code))]

ghost use Rattle.sw_lower_draft.specs.Drafts.{GivesAsRun, making_of};
ghost use Rattle.sw_lower_code.specs.Code.{all, each};
ghost use Rattle.sw_lower_known.specs.Knowledge.{tables_by};
ghost use Rattle.sw_lower_stmt.specs.Parts.{arm_inside, arm_opened, case_code, if_arm_code};
ghost use Rattle.sw_lower_stmt.specs.Parts.{if_codes, joined_all, joined_in, numbered};
ghost use Rattle.sw_lower_stmt.specs.Parts.{otherwise_code, stmt_codes, switch_body};
ghost use Rattle.sw_lower_rules.specs.Carriers.{StmtCode};
ghost use Rattle.sw_lower_rules.specs.Statements.{arm_code, block_code, default_code};
ghost use Rattle.sw_lower_rules.specs.Statements.{else_code, expr_code, ignored, stmt_code};
ghost use Rattle.sw_lower_rules.specs.Statements.{while_code};

use crate::cases::{OpenSwitch, open_switch};
use crate::leaving::{give_back, jump, leave};
use crate::places::assign;
use crate::variables::{declare_var, patterns};
use std::alloc::Global;
use sw_graph::{IdList, Last};
use sw_list::ListOf;
use sw_lower_draft::Draft;
use sw_lower_expr::expr;
use sw_lower_known::Known;
use sw_lower_plans::CodeFault;
use sw_lower_rules::Targets;
use sw_tree::{Block, CaseArm, Expr, IfArm, Stmt};

/// Both ways of an arm of an `if` go on in the block with this number.
fn join_in(merge: u32, draft: &mut Draft<'_>) -> Result<(), CodeFault>
    ensures { GivesAsRun ((joined_in merge).run (making_of draft.old)) result draft.new }
{
    jump(merge, draft);
    draft.resume(merge)
}

/// The arms of an `if` join, the last first.
fn join_all(mut merges: IdList, draft: &mut Draft<'_>) -> Result<(), CodeFault>
    ensures { GivesAsRun ((joined_all merges).run (making_of draft.old)) result draft.new }
{
    while let Some(merge) = merges.pop() {
        join_in(merge, draft)?;
    }
    Ok(())
}

/// An expression whose value isn't used.
fn ignored(
    alloc: Global,
    known: &Known<'_>,
    owner: Option<u32>,
    tree: &Expr,
    draft: &mut Draft<'_>,
) -> Result<(), CodeFault>
    ensures { GivesAsRun ((ignored (tables_by known.now)
        (expr_code (tables_by known.now) owner tree.now).read).run
        (making_of draft.old)) result draft.new }
{
    expr(alloc, known, owner, tree, draft)?;
    Ok(())
}

/// The code of a block, in a member of the type with the number `owner`; `targets` says where
/// `break` and `continue` lead. What it declares is seen in it alone.
#[cycle(walk)]
pub fn block(
    alloc: Global,
    known: &Known<'_>,
    owner: Option<u32>,
    targets: Targets,
    tree: &Block,
    draft: &mut Draft<'_>,
) -> Result<(), CodeFault>
    ensures { GivesAsRun (((block_code (tables_by known.now) owner tree.now).code targets).run
        (making_of draft.old)) result draft.new }
{
    let count = draft.var_count();
    stmts(alloc, known, owner, targets, tree.stmts.as_slice(), draft)?;
    draft.forget(count);
    Ok(())
}

/// The code of statements in order.
#[cycle(walk)]
fn stmts(
    alloc: Global,
    known: &Known<'_>,
    owner: Option<u32>,
    targets: Targets,
    trees: &[Stmt],
    draft: &mut Draft<'_>,
) -> Result<(), CodeFault>
    ensures { GivesAsRun ((all (λ (one : StmtCode). one.code targets)
        (stmt_codes (tables_by known.now) owner trees.now)).run
        (making_of draft.old)) result draft.new }
{
    for tree in trees {
        stmt(alloc, known, owner, targets, tree, draft)?;
    }
    Ok(())
}

/// The block after `else`, where there is one.
#[cycle(walk)]
fn otherwise(
    alloc: Global,
    known: &Known<'_>,
    owner: Option<u32>,
    targets: Targets,
    tree: &Option<Block>,
    draft: &mut Draft<'_>,
) -> Result<(), CodeFault>
    ensures { GivesAsRun ((else_code (otherwise_code (tables_by known.now) owner tree.now)
        targets).run
        (making_of draft.old)) result draft.new }
{
    match tree {
        None => Ok(()),
        Some(tree) => block(alloc, known, owner, targets, tree, draft),
    }
}

/// An arm of an `if`. What follows it goes on where its condition is false, until both ways join in
/// the block whose number is given.
#[cycle(walk)]
fn if_arm(
    alloc: Global,
    known: &Known<'_>,
    owner: Option<u32>,
    targets: Targets,
    tree: &IfArm,
    draft: &mut Draft<'_>,
) -> Result<u32, CodeFault>
    ensures { GivesAsRun ((arm_opened targets (if_arm_code
        (tables_by known.now) owner tree.now)).run
        (making_of draft.old)) result draft.new }
{
    let given = expr(alloc, known, owner, &tree.cond, draft)?;
    let yes = draft.block()?;
    let no = draft.block()?;
    let merge = draft.block()?;
    draft.close(Last::Branch {
        condition: given,
        yes,
        no,
    });
    draft.resume(yes)?;
    block(alloc, known, owner, targets, &tree.body, draft)?;
    jump(merge, draft);
    draft.resume(no)?;
    Ok(merge)
}

/// The arms of an `if`, each where the condition before it is false, and the blocks in which they
/// join.
#[cycle(walk)]
fn if_arms(
    alloc: Global,
    known: &Known<'_>,
    owner: Option<u32>,
    targets: Targets,
    trees: &[IfArm],
    draft: &mut Draft<'_>,
) -> Result<IdList, CodeFault>
    ensures { GivesAsRun ((each (arm_opened targets)
        (if_codes (tables_by known.now) owner trees.now)).run
        (making_of draft.old)) result draft.new }
{
    let mut merges = ListOf::new(alloc);
    for tree in trees {
        merges.push(if_arm(alloc, known, owner, targets, tree, draft)?)?;
    }
    Ok(merges)
}

/// A `while`, with a block for its condition, one for its body, and one after it.
#[cycle(walk)]
fn repeated(
    alloc: Global,
    known: &Known<'_>,
    owner: Option<u32>,
    body: &Block,
    cond: &Expr,
    draft: &mut Draft<'_>,
) -> Result<(), CodeFault>
    ensures { GivesAsRun ((while_code (expr_code (tables_by known.now) owner cond.now).read
        (block_code (tables_by known.now) owner body.now)).run
        (making_of draft.old)) result draft.new }
{
    let head = draft.block()?;
    let inner = draft.block()?;
    let after = draft.block()?;
    jump(head, draft);
    draft.resume(head)?;
    let given = expr(alloc, known, owner, cond, draft)?;
    draft.close(Last::Branch {
        condition: given,
        yes: inner,
        no: after,
    });
    draft.resume(inner)?;
    let targets = Targets {
        breaks: Some(after),
        continues: Some(head),
    };
    block(alloc, known, owner, targets, body, draft)?;
    jump(head, draft);
    draft.resume(after)
}

/// The statements of an arm of a `switch`, or of its `default`, where `break` leads to the block
/// `merge`.
#[cycle(walk)]
fn switch_body(
    alloc: Global,
    known: &Known<'_>,
    owner: Option<u32>,
    targets: Targets,
    merge: u32,
    tree: &Block,
    draft: &mut Draft<'_>,
) -> Result<(), CodeFault>
    ensures { GivesAsRun ((switch_body (block_code (tables_by known.now) owner tree.now)
        targets merge).run (making_of draft.old)) result draft.new }
{
    let targets = Targets {
        breaks: Some(merge),
        ..targets
    };
    block(alloc, known, owner, targets, tree, draft)
}

/// The patterns and the statements of an arm of a `switch`.
#[cycle(walk)]
fn arm_inside(
    alloc: Global,
    known: &Known<'_>,
    owner: Option<u32>,
    targets: Targets,
    tree: &CaseArm,
    opened: &OpenSwitch,
    draft: &mut Draft<'_>,
) -> Result<(), CodeFault>
    ensures { GivesAsRun ((arm_inside (tables_by known.now) opened.now.subject targets
        opened.now.merge
        (case_code (tables_by known.now) owner tree.now)).run (making_of draft.old))
        result draft.new }
{
    patterns(
        alloc,
        known,
        opened.subject,
        tree.patterns.as_slice(),
        draft,
    )?;
    switch_body(
        alloc,
        known,
        owner,
        targets,
        opened.merge,
        &tree.body,
        draft,
    )
}

/// An arm of a `switch`, in the block with this number. What it declares is seen in it alone.
#[cycle(walk)]
fn case_arm(
    alloc: Global,
    known: &Known<'_>,
    owner: Option<u32>,
    targets: Targets,
    tree: &CaseArm,
    opened: &OpenSwitch,
    number: u32,
    draft: &mut Draft<'_>,
) -> Result<(), CodeFault>
    ensures { GivesAsRun ((arm_code (tables_by known.now) opened.now.subject targets
        opened.now.merge
        (record { arm = case_code (tables_by known.now) owner tree.now; block = number })).run
        (making_of draft.old)) result draft.new }
{
    draft.resume(number)?;
    let count = draft.var_count();
    arm_inside(alloc, known, owner, targets, tree, opened, draft)?;
    draft.forget(count);
    jump(opened.merge, draft);
    Ok(())
}

/// The arms of a `switch`, each in its block.
#[cycle(walk)]
fn case_arms(
    alloc: Global,
    known: &Known<'_>,
    owner: Option<u32>,
    targets: Targets,
    trees: &[CaseArm],
    opened: &OpenSwitch,
    draft: &mut Draft<'_>,
) -> Result<(), CodeFault>
    ensures { GivesAsRun ((all (arm_code (tables_by known.now) opened.now.subject targets
        opened.now.merge) (numbered (tables_by known.now) owner trees.now opened.now.numbers)).run
        (making_of draft.old)) result draft.new }
{
    for (tree, number) in trees.iter().zip(opened.numbers.as_slice()) {
        case_arm(alloc, known, owner, targets, tree, opened, *number, draft)?;
    }
    Ok(())
}

/// The block after `default`, where there is one, in its block.
#[cycle(walk)]
fn default_arm(
    alloc: Global,
    known: &Known<'_>,
    owner: Option<u32>,
    targets: Targets,
    tree: &Option<Block>,
    opened: &OpenSwitch,
    draft: &mut Draft<'_>,
) -> Result<(), CodeFault>
    ensures { GivesAsRun ((default_code (tables_by known.now)
        (otherwise_code (tables_by known.now) owner tree.now) opened.now.default targets
        opened.now.merge).run (making_of draft.old)) result draft.new }
{
    match (tree, opened.default) {
        (Some(tree), Some(number)) => {
            draft.resume(number)?;
            switch_body(alloc, known, owner, targets, opened.merge, tree, draft)?;
            jump(opened.merge, draft);
            Ok(())
        }
        (None, _) | (Some(_), None) => Ok(()),
    }
}

/// The code of a statement.
#[cycle(walk)]
fn stmt(
    alloc: Global,
    known: &Known<'_>,
    owner: Option<u32>,
    targets: Targets,
    tree: &Stmt,
    draft: &mut Draft<'_>,
) -> Result<(), CodeFault>
    ensures { GivesAsRun (((stmt_code (tables_by known.now) owner tree.now).code targets).run
        (making_of draft.old)) result draft.new }
{
    match tree {
        Stmt::Bind { name, value, .. } => {
            let given = expr(alloc, known, owner, value, draft)?;
            declare_var(alloc, known, name.at, given, draft)
        }
        Stmt::Assign {
            at,
            op,
            place,
            value,
        } => {
            let given = expr(alloc, known, owner, value, draft)?;
            assign(alloc, known, owner, *op, *at, place, given, draft)
        }
        Stmt::Discard { value, .. } | Stmt::Plain(value) => {
            ignored(alloc, known, owner, value, draft)
        }
        Stmt::If {
            arms,
            otherwise: last,
        } => {
            let merges = if_arms(alloc, known, owner, targets, arms.as_slice(), draft)?;
            otherwise(alloc, known, owner, targets, last, draft)?;
            join_all(merges, draft)
        }
        Stmt::While { cond, body, .. } => repeated(alloc, known, owner, body, cond, draft),
        Stmt::Switch {
            subject,
            arms,
            otherwise: last,
            ..
        } => {
            let arms = arms.as_slice();
            let opened = open_switch(alloc, known, owner, subject, arms, last, draft)?;
            case_arms(alloc, known, owner, targets, arms, &opened, draft)?;
            default_arm(alloc, known, owner, targets, last, &opened, draft)?;
            draft.resume(opened.merge)
        }
        Stmt::Return { value, .. } => give_back(alloc, known, owner, value, draft),
        Stmt::Break { .. } => leave(targets.breaks, draft),
        Stmt::Continue { .. } => leave(targets.continues, draft),
    }
}
