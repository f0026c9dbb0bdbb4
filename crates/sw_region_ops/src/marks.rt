//! The tracked operands of an instruction.
ghost use Rattle.std.specs.Prelude.{◌≡◌, [], ◌++◌, false, if◌then◌else◌, slice_index_or, OnOk};
ghost use Rattle.std.specs.Prelude.{IfOk};
ghost use Rattle.sw_region_ops.specs.Marks.{mark_at, marks_of, is_wanted, arguments_from};

use crate::elements::element_at;
use std::alloc::{AllocError, Global};
use sw_graph::Operand;
use sw_list::ListOf;

/// A tracked operand: its element, and the byte offset of the expression that gave it.
#[derive(Clone, Copy, Debug, PartialEq, Eq)]
pub struct Mark {
    pub x: u32,
    pub at: u32,
}

/// Tracked operands in order.
pub(crate) type MarkList = ListOf<Mark>;

/// Adds the operand if it is tracked.
pub(crate) fn add_mark(
    marks: &mut MarkList,
    elements: &[Option<u32>],
    operand: &Operand,
) -> Result<(), AllocError>
    ensures { OnOk result (marks.new ≡ marks.old ++ mark_at elements.now operand.now) }
{
    if let Some(x) = element_at(elements, operand.reg as usize) {
        marks.push(Mark { x, at: operand.at })?;
    }
    Ok(())
}

/// Adds the operands that are tracked.
pub(crate) fn add_marks(
    marks: &mut MarkList,
    elements: &[Option<u32>],
    operands: &[Operand],
) -> Result<(), AllocError>
    ensures { OnOk result (marks.new ≡ marks.old ++ marks_of elements.now operands.now) }
{
    for operand in operands {
        add_mark(marks, elements, operand)?;
    }
    Ok(())
}

/// The operands that are tracked.
pub(crate) fn marks_of(
    alloc: Global,
    elements: &[Option<u32>],
    operands: &[Operand],
) -> Result<MarkList, AllocError>
    ensures { IfOk result (λ marks. marks ≡ marks_of elements.now operands.now) }
{
    let mut marks = ListOf::new(alloc);
    add_marks(&mut marks, elements, operands)?;
    Ok(marks)
}

/// Whether parameter `index` is `sending`.
fn is_sent(sending: &[bool], index: usize) -> bool
    ensures { result ≡ slice_index_or sending.now index false }
{
    match sending.get(index) {
        None => false,
        Some(sends) => *sends,
    }
}

/// Whether parameter `index` is one of those that are wanted: the `sending` ones, or the others.
fn is_wanted(sending: &[bool], wanted: bool, index: usize) -> bool
    ensures { result ≡ is_wanted sending.now wanted index }
{
    if wanted {
        is_sent(sending, index)
    } else {
        !is_sent(sending, index)
    }
}

/// Adds the argument for parameter `index` if it is tracked and the parameter is wanted.
fn add_argument(
    marks: &mut MarkList,
    elements: &[Option<u32>],
    sending: &[bool],
    wanted: bool,
    index: usize,
    operand: &Operand,
) -> Result<(), AllocError>
    ensures { OnOk result (marks.new ≡ marks.old
        ++ (if is_wanted sending.now wanted index then mark_at elements.now operand.now
        else [])) }
{
    if is_wanted(sending, wanted, index) {
        add_mark(marks, elements, operand)?;
    }
    Ok(())
}

/// The tracked arguments of a call whose parameters are wanted: the `sending` ones, or the others.
pub(crate) fn arguments_of(
    alloc: Global,
    elements: &[Option<u32>],
    sending: &[bool],
    wanted: bool,
    operands: &[Operand],
) -> Result<MarkList, AllocError>
    ensures { IfOk result (λ marks. marks
        ≡ arguments_from elements.now sending.now wanted 0 operands.now) }
{
    let mut marks = ListOf::new(alloc);
    for (index, operand) in operands.iter().enumerate() {
        add_argument(&mut marks, elements, sending, wanted, index, operand)?;
    }
    Ok(marks)
}
