ghost use Rattle.std.specs.Prelude.{◌≡◌, ◌<◌, IfOk, length};
ghost use Rattle.std.specs.Option.{option_copied};
ghost use Rattle.sw_value.specs.declared.cell.HeapCell.TheVariants.{Object, Actor, BoxOf, Closure};
ghost use Rattle.sw_value.specs.Effect.{needs, set_of, new_of, slot_write, global_write};
ghost use Rattle.sw_value.specs.Effect.{field_write};
ghost use Rattle.sw_value.specs.Value.{operand_value, values_at};

use crate::context::Context;
use crate::operands::values_at;
use crate::reading::{field_at, slot_at};
use std::alloc::AllocError;
use sw_graph::{Operand, OperandList};
use sw_value::{Effect, HeapCell, Slot, Value};

/// Register `reg` gets a copy of a value, if there is one.
pub fn set_of(context: &Context<'_>, reg: u32, value: Option<&Value>) -> Result<Effect, AllocError>
    ensures { IfOk result (λ effect.
        effect ≡ set_of context.now.next reg (option_copied value.entry)) }
{
    match value {
        None => Ok(Effect::Stuck),
        Some(value) => Ok(Effect::Set {
            reg,
            value: value.copied(context.alloc)?,
            next: context.next,
        }),
    }
}

/// A cell is made with the next number.
fn new_of(context: &Context<'_>, reg: u32, cell: HeapCell) -> Effect
    requires { length context.now.state.now.cells < 4294967295 }
    ensures { result ≡ new_of context.now.state.now context.now.next reg cell }
{
    let state = context.state;
    Effect::New {
        reg,
        cell,
        number: state.cells.len() as u32,
        next: context.next,
    }
}

/// A value is written into a slot of the cell of an operand.
pub fn slot_write(
    context: &Context<'_>,
    operand: &Operand,
    slot: Slot,
    source: &Operand,
) -> Result<Effect, AllocError>
    ensures { IfOk result (λ effect. effect
        ≡ slot_write context.now.state.now context.now.frame.now context.now.next operand.now slot
        source.now) }
{
    let Some(value) = context.frame.value_at(source.reg) else {
        return Ok(Effect::Stuck);
    };
    let Some(cell) = slot_at(context, operand, slot) else {
        return Ok(Effect::Stuck);
    };
    Ok(Effect::Write {
        cell,
        slot,
        value: value.copied(context.alloc)?,
        next: context.next,
    })
}

/// A value is written into a global.
pub fn global_write(
    context: &Context<'_>,
    global: u32,
    source: &Operand,
) -> Result<Effect, AllocError>
    ensures { IfOk result (λ effect. effect
        ≡ global_write context.now.state.now context.now.frame.now context.now.next global
        source.now) }
{
    let Some(value) = context.frame.value_at(source.reg) else {
        return Ok(Effect::Stuck);
    };
    let state = context.state;
    if global as usize >= state.globals.len() {
        return Ok(Effect::Stuck);
    }
    Ok(Effect::WriteGlobal {
        global,
        value: value.copied(context.alloc)?,
        next: context.next,
    })
}

/// A value is written into a part of the struct in a register.
pub fn field_write(
    context: &Context<'_>,
    target: &Operand,
    part: usize,
    source: &Operand,
) -> Result<Effect, AllocError>
    ensures { IfOk result (λ effect. effect
        ≡ field_write context.now.frame.now context.now.next target.now part source.now) }
{
    let Some(value) = context.frame.value_at(source.reg) else {
        return Ok(Effect::Stuck);
    };
    if field_at(context.frame, target, part).is_none() {
        return Ok(Effect::Stuck);
    }
    Ok(Effect::SetField {
        reg: target.reg,
        part,
        value: value.copied(context.alloc)?,
        next: context.next,
    })
}

/// An object is made of some operands.
pub fn object_effect(
    context: &Context<'_>,
    reg: u32,
    shape: u32,
    operands: &OperandList,
) -> Result<Effect, AllocError>
    requires cells { length context.now.state.now.cells < 4294967295 }
    ensures { IfOk result (λ effect. effect
        ≡ needs (values_at context.now.frame.now.regs operands.now)
        (λ parts. new_of context.now.state.now context.now.next reg (Object shape parts))) }
{
    match values_at(context.alloc, context.frame, operands)? {
        None => Ok(Effect::Stuck),
        Some(parts) => Ok(new_of(context, reg, HeapCell::Object { shape, parts })),
    }
}

/// An actor is made of some operands.
pub fn actor_effect(
    context: &Context<'_>,
    reg: u32,
    shape: u32,
    operands: &OperandList,
) -> Result<Effect, AllocError>
    requires cells { length context.now.state.now.cells < 4294967295 }
    ensures { IfOk result (λ effect. effect
        ≡ needs (values_at context.now.frame.now.regs operands.now)
        (λ parts. new_of context.now.state.now context.now.next reg (Actor shape parts))) }
{
    match values_at(context.alloc, context.frame, operands)? {
        None => Ok(Effect::Stuck),
        Some(parts) => Ok(new_of(context, reg, HeapCell::Actor { shape, parts })),
    }
}

/// A closure is made, which captures some operands.
pub fn closure_effect(
    context: &Context<'_>,
    reg: u32,
    function: u32,
    operands: &OperandList,
) -> Result<Effect, AllocError>
    requires cells { length context.now.state.now.cells < 4294967295 }
    ensures { IfOk result (λ effect. effect
        ≡ needs (values_at context.now.frame.now.regs operands.now)
        (λ captures. new_of context.now.state.now context.now.next reg (Closure function captures))) }
{
    match values_at(context.alloc, context.frame, operands)? {
        None => Ok(Effect::Stuck),
        Some(captures) => Ok(new_of(context, reg, HeapCell::Closure { function, captures })),
    }
}

/// A box is made around an operand.
pub fn box_effect(context: &Context<'_>, reg: u32, operand: &Operand) -> Result<Effect, AllocError>
    requires cells { length context.now.state.now.cells < 4294967295 }
    ensures { IfOk result (λ effect. effect
        ≡ needs (operand_value context.now.frame.now.regs operand.now)
        (λ v. new_of context.now.state.now context.now.next reg (BoxOf v))) }
{
    match context.frame.value_at(operand.reg) {
        None => Ok(Effect::Stuck),
        Some(value) => {
            let value = value.copied(context.alloc)?;
            Ok(new_of(context, reg, HeapCell::BoxOf { value }))
        }
    }
}
