//! The blocks of a `switch`, and where it goes.
#![tactic(auto, unfolding(crate::specs::Parts::arm_number, crate::specs::Parts::blocks_opened, crate::specs::Parts::switch_opened, sw_lower_code::specs::Code::andthen, sw_lower_code::specs::Code::block_for, sw_lower_code::specs::Code::close, sw_lower_code::specs::Code::done, sw_lower_code::specs::Code::known, sw_lower_rules::specs::Uses::shape_at, sw_lower_rules::specs::Uses::shape_of))]

ghost use Rattle.std.specs.Prelude.{◌≡◌, ℕ, Option, IfOk};
ghost use Rattle.sw_lower_draft.specs.Drafts.{GivesAsRun, making_of};
ghost use Rattle.sw_lower_code.specs.Code.{each};
ghost use Rattle.sw_lower_known.specs.Knowledge.{tables_by};
ghost use Rattle.sw_lower_stmt.specs.Parts.{arm_number, block_named, blocks_opened};
ghost use Rattle.sw_lower_stmt.specs.Parts.{default_number, goes_to, switch_opened};
ghost use Rattle.sw_lower_rules.specs.Statements.{case_from};

use std::alloc::{AllocError, Global};
use sw_graph::{IdList, Last, Operand};
use sw_list::ListOf;
use sw_lower_draft::Draft;
use sw_lower_expr::{expr, key_of};
use sw_lower_known::Known;
use sw_lower_plans::CodeFault;
use sw_lower_uses::{shape_at, shape_of};
use sw_tree::{Block, CaseArm, Expr};
use sw_types::{CaseShape, Shape};

/// A `switch`: the value that it looks at, and the numbers of the blocks of its arms in order, of
/// that of its `default`, and of the one after it.
#[derive(Drop)]
pub struct OpenSwitch {
    pub subject: Operand,
    pub numbers: IdList,
    pub default: Option<u32>,
    pub merge: u32,
}

/// The number of the case with this name.
fn case_number(cases: &[CaseShape], name: u32) -> Option<usize>
    ensures { result ≡ case_from 0 cases.now name }
{
    for (number, one) in cases.iter().enumerate() {
        if one.name == name {
            return Some(number);
        }
    }
    None
}

/// Makes the block of an arm of a `switch` over `subject`, a value of the enum `shape`, whose
/// number is `number`. An arm of no case of the enum has no code.
fn arm_number(
    subject: Operand,
    number: u32,
    shape: &Shape,
    arm: &CaseArm,
    draft: &mut Draft<'_>,
) -> Result<u32, CodeFault>
    ensures { GivesAsRun ((arm_number subject number shape.now arm.now).run (making_of draft.old))
        result draft.new }
{
    case_number(shape.cases.as_slice(), arm.name.id).ok_or(CodeFault::Missing)?;
    draft.block()
}

/// Makes the blocks of the arms of a `switch`, in order.
fn arm_numbers(
    alloc: Global,
    subject: Operand,
    number: u32,
    shape: &Shape,
    arms: &[CaseArm],
    draft: &mut Draft<'_>,
) -> Result<IdList, CodeFault>
    ensures { GivesAsRun ((each (arm_number subject number shape.now) arms.now).run
        (making_of draft.old)) result draft.new }
{
    let mut blocks = ListOf::new(alloc);
    for arm in arms {
        blocks.push(arm_number(subject, number, shape, arm, draft)?)?;
    }
    Ok(blocks)
}

/// Makes the block of `default`, where there is one.
fn default_number(tree: &Option<Block>, draft: &mut Draft<'_>) -> Result<Option<u32>, CodeFault>
    ensures { GivesAsRun ((default_number tree.now).run (making_of draft.old)) result draft.new }
{
    match tree {
        None => Ok(None),
        Some(_) => Ok(Some(draft.block()?)),
    }
}

/// The block of the first arm of the case with this name, by the blocks of all arms.
fn block_named(arms: &[CaseArm], blocks: &[u32], name: u32) -> Option<u32>
    ensures { result ≡ block_named arms.now blocks.now name }
{
    for (arm, block) in arms.iter().zip(blocks) {
        if arm.name.id == name {
            return Some(*block);
        }
    }
    None
}

/// Where a `switch` goes, by the numbers of the cases: to the first arm of the case, else to
/// `otherwise`.
fn goes_to(
    alloc: Global,
    cases: &[CaseShape],
    arms: &[CaseArm],
    blocks: &[u32],
    otherwise: u32,
) -> Result<IdList, AllocError>
    ensures { IfOk result (λ to. to ≡ goes_to cases.now arms.now blocks.now otherwise) }
{
    let mut to = ListOf::new(alloc);
    for one in cases {
        to.push(block_named(arms, blocks, one.name).unwrap_or(otherwise))?;
    }
    Ok(to)
}

/// Makes the blocks of a `switch` over `subject`, a value of the enum `shape`, whose number is
/// `number`, and ends the block before it.
fn open_blocks(
    alloc: Global,
    subject: Operand,
    number: u32,
    shape: &Shape,
    arms: &[CaseArm],
    otherwise: &Option<Block>,
    draft: &mut Draft<'_>,
) -> Result<OpenSwitch, CodeFault>
    ensures { GivesAsRun ((blocks_opened subject number shape.now arms.now otherwise.now).run
        (making_of draft.old)) result draft.new }
{
    let blocks = arm_numbers(alloc, subject, number, shape, arms, draft)?;
    let default = default_number(otherwise, draft)?;
    let merge = draft.block()?;
    let rest = default.unwrap_or(merge);
    let to = goes_to(alloc, shape.cases.as_slice(), arms, blocks.as_slice(), rest)?;
    draft.close(Last::Switch { subject, to });
    Ok(OpenSwitch {
        subject,
        numbers: blocks,
        default,
        merge,
    })
}

/// Makes the blocks of a `switch`, and ends the block before it.
pub fn open_switch(
    alloc: Global,
    known: &Known<'_>,
    owner: Option<u32>,
    subject: &Expr,
    arms: &[CaseArm],
    otherwise: &Option<Block>,
    draft: &mut Draft<'_>,
) -> Result<OpenSwitch, CodeFault>
    ensures { GivesAsRun ((switch_opened (tables_by known.now) owner subject.now arms.now
        otherwise.now).run (making_of draft.old)) result draft.new }
{
    let given = expr(alloc, known, owner, subject, draft)?;
    let number = shape_of(known, key_of(subject))?;
    let shape = shape_at(known, number)?;
    open_blocks(alloc, given, number, shape, arms, otherwise, draft)
}
