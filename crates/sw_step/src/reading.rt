ghost use Rattle.std.specs.Prelude.{◌≡◌, option_and_then};
ghost use Rattle.std.specs.Option.{option_copied};
ghost use Rattle.sw_value.specs.Cell.{task_of};
ghost use Rattle.sw_value.specs.declared.effect.Effect.TheVariants.{Wait};
ghost use Rattle.sw_value.specs.Effect.{needs, cell_at, loaded, slot_at};
ghost use Rattle.sw_value.specs.Value.{truth_of, tag_of, field_of, payload_of, operand_value};

use crate::context::Context;
use sw_graph::Operand;
use sw_value::{Effect, Frame, HeapCell, Slot, Value};

/// The truth value of an operand.
pub fn truth_at(frame: &Frame, operand: &Operand) -> Option<bool>
    ensures { result ≡ option_and_then truth_of (operand_value frame.now.regs operand.now) }
{
    frame.value_at(operand.reg)?.truth()
}

/// The number of the case that an operand is.
pub fn tag_at(frame: &Frame, operand: &Operand) -> Option<usize>
    ensures { result ≡ option_and_then tag_of (operand_value frame.now.regs operand.now) }
{
    frame.value_at(operand.reg)?.tag()
}

/// A part of the struct of an operand.
pub fn field_at<'a>(frame: &'a Frame, operand: &Operand, part: usize) -> Option<&'a Value>
    ensures { option_copied result
        ≡ option_and_then (field_of part) (operand_value frame.now.regs operand.now) }
{
    frame.value_at(operand.reg)?.field(part)
}

/// A value of the payload of the case of an operand.
pub fn payload_at<'a>(frame: &'a Frame, operand: &Operand, index: usize) -> Option<&'a Value>
    ensures { option_copied result
        ≡ option_and_then (payload_of index) (operand_value frame.now.regs operand.now) }
{
    frame.value_at(operand.reg)?.payload(index)
}

/// The cell that an operand refers to.
pub fn cell_at<'a>(context: &Context<'a>, operand: &Operand) -> Option<&'a HeapCell>
    ensures { option_copied result
        ≡ cell_at context.now.state.now context.now.frame.now operand.now }
{
    let state = context.state;
    let cell = context.frame.reference_at(operand)?;
    state.cells.get(cell as usize)
}

/// What the cell of an operand has in a slot.
pub fn loaded<'a>(context: &Context<'a>, operand: &Operand, slot: Slot) -> Option<&'a Value>
    ensures { option_copied result
        ≡ loaded context.now.state.now context.now.frame.now operand.now slot }
{
    cell_at(context, operand)?.slot(slot)
}

/// The cell of an operand by number, if it has that slot.
pub fn slot_at(context: &Context<'_>, operand: &Operand, slot: Slot) -> Option<u32>
    ensures { result ≡ slot_at context.now.state.now context.now.frame.now operand.now slot }
{
    let state = context.state;
    let cell = context.frame.reference_at(operand)?;
    let _old = state.cells.get(cell as usize)?.slot(slot)?;
    Some(cell)
}

/// The job waits for the job of the task that an operand refers to.
pub fn await_effect(context: &Context<'_>, reg: u32, operand: &Operand) -> Effect
    ensures { result ≡ needs
        (option_and_then task_of
        (cell_at context.now.state.now context.now.frame.now operand.now))
        (λ job. Wait job reg context.now.next) }
{
    match task_at(context, operand) {
        None => Effect::Stuck,
        Some(job) => Effect::Wait {
            job,
            reg,
            next: context.next,
        },
    }
}

/// The job of the task that an operand refers to.
fn task_at(context: &Context<'_>, operand: &Operand) -> Option<u32>
    ensures { result ≡ option_and_then task_of
        (cell_at context.now.state.now context.now.frame.now operand.now) }
{
    cell_at(context, operand)?.task()
}
