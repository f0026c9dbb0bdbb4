//! Groups of operations. Each function adds one to a list.
ghost use Rattle.std.specs.Prelude.{◌≡◌, ◌++◌, OnOk};
ghost use Rattle.sw_region_ops.specs.Groups.{need_each, free_each, give_each, send_each, join_here};
ghost use Rattle.sw_region_ops.specs.Groups.{join_with, join_all, join_to, fresh, put_here};
ghost use Rattle.sw_region_ops.specs.Groups.{join_result_here, put_first, meet, keep, part_with};
ghost use Rattle.sw_region_ops.specs.Groups.{take_from, make_of};

use crate::marks::Mark;
use crate::op::{Op, OpList};
use std::alloc::AllocError;

pub(crate) fn need_each(ops: &mut OpList, marks: &[Mark]) -> Result<(), AllocError>
    ensures { OnOk result (ops.new ≡ ops.old ++ need_each marks.now) }
{
    for mark in marks {
        ops.push(Op::Need {
            x: mark.x,
            at: mark.at,
        })?;
    }
    Ok(())
}

pub(crate) fn free_each(ops: &mut OpList, code: u16, marks: &[Mark]) -> Result<(), AllocError>
    ensures { OnOk result (ops.new ≡ ops.old ++ free_each code marks.now) }
{
    for mark in marks {
        ops.push(Op::Free {
            x: mark.x,
            at: mark.at,
            code,
        })?;
    }
    Ok(())
}

fn give_each(ops: &mut OpList, site: u32, marks: &[Mark]) -> Result<(), AllocError>
    ensures { OnOk result (ops.new ≡ ops.old ++ give_each site marks.now) }
{
    for mark in marks {
        ops.push(Op::Give { x: mark.x, site })?;
    }
    Ok(())
}

/// Each is freed and at once given away.
pub(crate) fn send_each(
    ops: &mut OpList,
    code: u16,
    site: u32,
    marks: &[Mark],
) -> Result<(), AllocError>
    ensures { OnOk result (ops.new ≡ ops.old ++ send_each code site marks.now) }
{
    for mark in marks {
        ops.push(Op::Free {
            x: mark.x,
            at: mark.at,
            code,
        })?;
        ops.push(Op::Give { x: mark.x, site })?;
    }
    Ok(())
}

/// Each goes to `Here`.
fn join_here(ops: &mut OpList, marks: &[Mark]) -> Result<(), AllocError>
    ensures { OnOk result (ops.new ≡ ops.old ++ join_here marks.now) }
{
    for mark in marks {
        ops.push(Op::Join { x: mark.x, y: 0 })?;
    }
    Ok(())
}

fn join_with(ops: &mut OpList, x: u32, marks: &[Mark]) -> Result<(), AllocError>
    ensures { OnOk result (ops.new ≡ ops.old ++ join_with x marks.now) }
{
    for mark in marks {
        ops.push(Op::Join { x, y: mark.x })?;
    }
    Ok(())
}

/// All come together.
pub(crate) fn join_all(ops: &mut OpList, marks: &[Mark]) -> Result<(), AllocError>
    ensures { OnOk result (ops.new ≡ ops.old ++ join_all marks.now) }
{
    match marks {
        [] => Ok(()),
        [first, rest @ ..] => join_with(ops, first.x, rest),
    }
}

/// Each comes to the result.
fn join_to(ops: &mut OpList, r: Option<u32>, marks: &[Mark]) -> Result<(), AllocError>
    ensures { OnOk result (ops.new ≡ ops.old ++ join_to r marks.now) }
{
    match r {
        None => Ok(()),
        Some(r) => join_with(ops, r, marks),
    }
}

/// The result is alone.
pub(crate) fn fresh(ops: &mut OpList, r: Option<u32>) -> Result<(), AllocError>
    ensures { OnOk result (ops.new ≡ ops.old ++ fresh r) }
{
    match r {
        None => Ok(()),
        Some(r) => ops.push(Op::Fresh { x: r }),
    }
}

/// The result is in the region of the code itself.
pub(crate) fn put_here(ops: &mut OpList, r: Option<u32>) -> Result<(), AllocError>
    ensures { OnOk result (ops.new ≡ ops.old ++ put_here r) }
{
    match r {
        None => Ok(()),
        Some(r) => ops.push(Op::Put { x: r, y: 0 }),
    }
}

/// The region of the result unites with that of the code itself.
pub(crate) fn join_result_here(ops: &mut OpList, r: Option<u32>) -> Result<(), AllocError>
    ensures { OnOk result (ops.new ≡ ops.old ++ join_result_here r) }
{
    match r {
        None => Ok(()),
        Some(r) => ops.push(Op::Join { x: r, y: 0 }),
    }
}

/// The result is as the first of the operands, or alone where there is none.
pub(crate) fn put_first(ops: &mut OpList, r: Option<u32>, marks: &[Mark]) -> Result<(), AllocError>
    ensures { OnOk result (ops.new ≡ ops.old ++ put_first r marks.now) }
{
    match (r, marks) {
        (None, _) => Ok(()),
        (Some(r), []) => ops.push(Op::Fresh { x: r }),
        (Some(r), [first, ..]) => ops.push(Op::Put { x: r, y: first.x }),
    }
}

/// Operands that are used and come together.
pub(crate) fn meet(ops: &mut OpList, marks: &[Mark]) -> Result<(), AllocError>
    ensures { OnOk result (ops.new ≡ ops.old ++ meet marks.now) }
{
    need_each(ops, marks)?;
    join_all(ops, marks)
}

/// Operands that are used and go to `Here`.
pub(crate) fn keep(ops: &mut OpList, marks: &[Mark]) -> Result<(), AllocError>
    ensures { OnOk result (ops.new ≡ ops.old ++ keep marks.now) }
{
    need_each(ops, marks)?;
    join_here(ops, marks)
}

/// Operands that are given away together.
pub(crate) fn part_with(
    ops: &mut OpList,
    code: u16,
    site: u32,
    marks: &[Mark],
) -> Result<(), AllocError>
    ensures { OnOk result (ops.new ≡ ops.old ++ part_with code site marks.now) }
{
    free_each(ops, code, marks)?;
    give_each(ops, site, marks)
}

/// A copy of an operand or of a part of it.
pub(crate) fn take_from(ops: &mut OpList, r: Option<u32>, marks: &[Mark]) -> Result<(), AllocError>
    ensures { OnOk result (ops.new ≡ ops.old ++ take_from r marks.now) }
{
    need_each(ops, marks)?;
    put_first(ops, r, marks)
}

/// A new value that holds the operands.
pub(crate) fn make_of(ops: &mut OpList, r: Option<u32>, marks: &[Mark]) -> Result<(), AllocError>
    ensures { OnOk result (ops.new ≡ ops.old ++ make_of r marks.now) }
{
    need_each(ops, marks)?;
    fresh(ops, r)?;
    join_to(ops, r, marks)
}
