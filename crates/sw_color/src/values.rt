//! The colours of values, added to a list of numbers.
ghost use Rattle.std.specs.Prelude.{◌≡◌, ◌++◌, OnOk, IfOk, false, slice_index_or};
ghost use Rattle.std.specs.Option.{option_copied, option_to_list, option_map_or};
ghost use Rattle.std.specs.List.{Contains};
ghost use Rattle.std.specs.List.Sorted.{IsStrictlyIncreasing};
ghost use Rattle.std.specs.Prelude.{◌↔◌, ℕ, []};
ghost use Rattle.sw_color_rules.specs.Plans.{passed};
ghost use Rattle.sw_color_rules.specs.Tints.{held, colors_in, colors_of, slot_colors, in_order};

use std::alloc::{AllocError, Global};
use sw_color_rules::{ColorNumbers, Tint};
use sw_list::ListOf;
use sw_value::{Value, ValueSlots};

fn add_numbers(more: &[usize], numbers: &mut ColorNumbers) -> Result<(), AllocError>
    ensures { OnOk result (numbers.new ≡ numbers.old ++ more.now) }
{
    for number in more {
        numbers.push(*number)?;
    }
    Ok(())
}

/// Adds a colour, if there is one.
pub fn add_option(number: Option<usize>, numbers: &mut ColorNumbers) -> Result<(), AllocError>
    ensures { OnOk result (numbers.new ≡ numbers.old ++ option_to_list number) }
{
    match number {
        None => Ok(()),
        Some(number) => numbers.push(number),
    }
}

/// Adds what a reference to a cell has.
#[tactic(auto, unfolding(sw_color_rules::specs::Tints::held))]
pub fn add_held(tints: &[Tint], cell: u32, numbers: &mut ColorNumbers) -> Result<(), AllocError>
    ensures { OnOk result (numbers.new ≡ numbers.old ++ held tints.now cell) }
{
    match tints.get(cell as usize) {
        None | Some(Tint::Bare) | Some(Tint::Owns { .. }) => Ok(()),
        Some(Tint::Colored { number }) => numbers.push(*number),
        Some(Tint::Holds { numbers: held }) => add_numbers(held.as_slice(), numbers),
    }
}

/// Adds the colours of a value.
#[tactic(auto, using(crate::proofs::ValueLemmas::colors_cell), unfolding(sw_color_rules::specs::Tints::colors_in))]
pub fn add_colors(
    tints: &[Tint],
    value: &Value,
    numbers: &mut ColorNumbers,
) -> Result<(), AllocError>
    ensures { OnOk result (numbers.new ≡ numbers.old ++ colors_in tints.now value.now) }
{
    match value {
        Value::Int(_) | Value::Bool(_) | Value::Unit => Ok(()),
        Value::Cell(cell) => add_held(tints, *cell, numbers),
        Value::Group(parts) => {
            for part in parts.as_slice() {
                add_colors(tints, part, numbers)?;
            }
            Ok(())
        }
        Value::Case { payload, .. } => {
            for held in payload.as_slice() {
                add_colors(tints, held, numbers)?;
            }
            Ok(())
        }
    }
}

/// Adds the colours of values.
pub fn add_colors_of(
    tints: &[Tint],
    values: &[Value],
    numbers: &mut ColorNumbers,
) -> Result<(), AllocError>
    ensures { OnOk result (numbers.new ≡ numbers.old ++ colors_of tints.now values.now) }
{
    for value in values {
        add_colors(tints, value, numbers)?;
    }
    Ok(())
}

/// Adds the colours of the value of a slot, if it has one.
pub fn add_slot_colors(
    tints: &[Tint],
    slot: Option<&Value>,
    numbers: &mut ColorNumbers,
) -> Result<(), AllocError>
    ensures { OnOk result (numbers.new
        ≡ numbers.old ++ slot_colors tints.now (option_copied slot.entry)) }
{
    match slot {
        None => Ok(()),
        Some(value) => add_colors(tints, value, numbers),
    }
}

/// Whether a register is `sending`.
fn is_sending(sending: &[bool], index: usize) -> bool
    ensures { result ≡ slice_index_or sending.now index false }
{
    match sending.get(index) {
        None => false,
        Some(sends) => *sends,
    }
}

/// Adds the colours of what a frame has in its first registers, up to the first without value, but
/// for those that are `sending`.
pub fn add_passed(
    tints: &[Tint],
    sending: &[bool],
    regs: &ValueSlots,
    numbers: &mut ColorNumbers,
) -> Result<(), AllocError>
    ensures { OnOk result (numbers.new ≡ numbers.old ++ passed tints.now sending.now regs.now) }
{
    for (index, slot) in regs.as_slice().iter().enumerate() {
        match slot {
            None => return Ok(()),
            Some(value) => {
                if !is_sending(sending, index) {
                    add_colors(tints, value, numbers)?;
                }
            }
        }
    }
    Ok(())
}

/// The same numbers, each once, in rising order.
pub fn in_order(numbers: ColorNumbers) -> ColorNumbers
    ensures { result ≡ in_order numbers }
{
    let mut numbers = numbers.into_vec();
    numbers.sort_unstable();
    numbers.dedup();
    ListOf::from_vec(numbers)
}
