ghost use Rattle.std.specs.Prelude.{◌≡◌, ◌++◌, ◌∷◌, [], IfOk, OnOk, if◌then◌else◌, string_bytes};
ghost use Rattle.std.specs.Option.{option_map};
ghost use Rattle.sw_value.specs.Value.{values_at};
ghost use Rattle.sw_value.specs.Printed.{truth_text, text_of, text_at, printed_line};

use std::alloc::{AllocError, Global};
use sw_graph::{Operand, OperandList};
use sw_list::ListOf;
use sw_value::{Frame, Line, Value, ValueList};

/// Copies of the values of all operands, or `None` where one has no value.
#[tactic(auto, using(sw_value::proofs::ListLemmas::each))]
pub fn values_at(
    alloc: Global,
    frame: &Frame,
    operands: &OperandList,
) -> Result<Option<ValueList>, AllocError>
    ensures { IfOk result (λ values. values ≡ values_at frame.now.regs operands.now) }
{
    let mut values = ListOf::new(alloc);
    for operand in operands.as_slice() {
        match frame.value_at(operand.reg) {
            None => return Ok(None),
            Some(value) => values.push(value.copied(alloc)?)?,
        }
    }
    Ok(Some(values))
}

/// The line of some operands: their values with one blank between, and a line feed. `None` where
/// one has no value or one that cannot be printed.
#[tactic(auto, using(crate::proofs::LineLemmas::lines))]
pub fn printed_line(
    alloc: Global,
    frame: &Frame,
    operands: &OperandList,
) -> Result<Option<Line>, AllocError>
    ensures { IfOk result (λ line. line ≡ printed_line frame.now.regs operands.now) }
{
    let mut line = Vec::new(alloc);
    for (index, operand) in operands.as_slice().iter().enumerate() {
        match text_at(alloc, frame, operand)? {
            None => return Ok(None),
            Some(text) => add_text(&mut line, index == 0, text.as_str())?,
        }
    }
    line.push(b'\n')?;
    Ok(Some(ListOf::from_vec(line)))
}

/// Adds a text to a line, with a blank before it unless it is the first.
fn add_text(line: &mut Vec<u8>, first: bool, text: &str) -> Result<(), AllocError>
    ensures { OnOk result
        (line.new.items ≡ line.old.items ++ (if first then text.now else 32 ∷ text.now)) }
{
    if !first {
        line.push(b' ')?;
    }
    line.extend_from_slice(text.as_bytes())
}

/// How the value of an operand is printed.
fn text_at(alloc: Global, frame: &Frame, operand: &Operand) -> Result<Option<String>, AllocError>
    ensures { IfOk result (λ text.
        option_map string_bytes text ≡ text_at frame.now.regs operand.now) }
{
    match frame.value_at(operand.reg) {
        None => Ok(None),
        Some(value) => text_of(alloc, value),
    }
}

/// How a value is printed: an integer in decimal, a truth value as `true` or `false`.
fn text_of(alloc: Global, value: &Value) -> Result<Option<String>, AllocError>
    ensures { IfOk result (λ text. option_map string_bytes text ≡ text_of value.now) }
{
    match value {
        Value::Int(number) => Ok(Some(number.to_string(alloc)?)),
        Value::Bool(truth) => Ok(Some(String::from_str(alloc, truth_text(*truth))?)),
        Value::Unit | Value::Cell(_) | Value::Group(_) | Value::Case { .. } => Ok(None),
    }
}

fn truth_text(truth: bool) -> &'static str
    ensures { result.now ≡ truth_text truth }
{
    if truth { "true" } else { "false" }
}
