ghost use Rattle.std.specs.Prelude.{◌≡◌, IfOk, slice_set};
ghost use Rattle.std.specs.Option.{option_copied};
ghost use Rattle.sw_value.specs.Value.{value_of, reference_of, integer_of, truth_of, tag_of};
ghost use Rattle.sw_value.specs.Value.{field_of, with_field, payload_of, made, value_at};

use std::alloc::{AllocError, Global};
use sw_graph::Literal;
use sw_list::ListOf;

/// Values in order: the parts of an object, the payload of a case, the captures of a closure.
pub type ValueList = ListOf<Value>;

/// Slots that hold a value or none yet: the registers of a frame, or the globals of a program.
pub type ValueSlots = ListOf<Option<Value>>;

/// The bytes of a line that is printed.
pub type Line = ListOf<u8>;

/// A value of the language, as a register holds it.
#[derive(Debug, Drop)]
pub enum Value {
    Int(i64),
    Bool(bool),
    /// The one value of `Void`.
    Unit,
    /// A reference to a cell, by number: an object, an actor, a box, a closure or a task.
    Cell(u32),
    /// A struct, as its parts in order.
    Group(ValueList),
    /// A case of an enum, by the case's number.
    Case { tag: usize, payload: ValueList },
}

/// The value of a slot, if it is there and has one.
pub fn value_in(slots: &ValueSlots, index: u32) -> Option<&Value>
    ensures { option_copied result ≡ value_at slots.now index }
{
    match slots.get(index as usize) {
        Some(Some(value)) => Some(value),
        Some(None) | None => None,
    }
}

/// Puts a value at an index; past the end nothing changes.
#[tactic(auto, using(std::proofs::lemmas::List::set_past))]
pub fn set_at(values: &mut ValueList, index: usize, value: Value)
    ensures { values.new ≡ slice_set values.old index value }
{
    if index < values.len() {
        values.set(index, value);
    }
}

impl From<Literal> for Value {
    ghost from_gives = { λ literal value. value ≡ value_of literal };

    fn from(literal: Literal) -> Value {
        match literal {
            Literal::Int(number) => Value::Int(number),
            Literal::Bool(truth) => Value::Bool(truth),
        }
    }
}

impl Value {
    /// The cell that the value refers to.
    pub fn reference(&self) -> Option<u32>
        ensures { result ≡ reference_of self.now }
    {
        match self {
            Value::Cell(cell) => Some(*cell),
            Value::Int(_) | Value::Bool(_) | Value::Unit | Value::Group(_) | Value::Case { .. } =>
                None,
        }
    }

    /// The integer that it is.
    pub fn integer(&self) -> Option<i64>
        ensures { result ≡ integer_of self.now }
    {
        match self {
            Value::Int(number) => Some(*number),
            Value::Bool(_) | Value::Unit | Value::Cell(_) | Value::Group(_) | Value::Case { .. } =>
                None,
        }
    }

    /// The truth value that it is.
    pub fn truth(&self) -> Option<bool>
        ensures { result ≡ truth_of self.now }
    {
        match self {
            Value::Bool(truth) => Some(*truth),
            Value::Int(_) | Value::Unit | Value::Cell(_) | Value::Group(_) | Value::Case { .. } =>
                None,
        }
    }

    /// The number of the case that it is.
    pub fn tag(&self) -> Option<usize>
        ensures { result ≡ tag_of self.now }
    {
        match self {
            Value::Case { tag, .. } => Some(*tag),
            Value::Int(_) | Value::Bool(_) | Value::Unit | Value::Cell(_) | Value::Group(_) => None,
        }
    }

    /// A part of a struct.
    pub fn field(&self, part: usize) -> Option<&Value>
        ensures { option_copied result ≡ field_of part self.now }
    {
        match self {
            Value::Group(parts) => parts.get(part),
            Value::Int(_) | Value::Bool(_) | Value::Unit | Value::Cell(_) | Value::Case { .. } =>
                None,
        }
    }

    /// Gives a struct another value as a part; what is no struct stays as it is.
    pub fn set_field(&mut self, part: usize, value: Value)
        ensures { self.new ≡ with_field part value self.old }
    {
        match self {
            Value::Group(parts) => set_at(parts, part, value),
            Value::Int(_) | Value::Bool(_) | Value::Unit | Value::Cell(_) | Value::Case { .. } => {}
        }
    }

    /// A value of the payload of a case.
    pub fn payload(&self, index: usize) -> Option<&Value>
        ensures { option_copied result ≡ payload_of index self.now }
    {
        match self {
            Value::Case { payload, .. } => payload.get(index),
            Value::Int(_) | Value::Bool(_) | Value::Unit | Value::Cell(_) | Value::Group(_) => None,
        }
    }

    /// The struct of these parts, or the case with a number and this payload.
    pub fn made(tag: Option<usize>, parts: ValueList) -> Value
        ensures { result ≡ made tag parts }
    {
        match tag {
            None => Value::Group(parts),
            Some(tag) => Value::Case {
                tag,
                payload: parts,
            },
        }
    }

    /// A copy of the value.
    pub fn copied(&self, alloc: Global) -> Result<Value, AllocError>
        ensures { IfOk result (λ value. value ≡ self.now) }
    {
        match self {
            Value::Int(number) => Ok(Value::Int(*number)),
            Value::Bool(truth) => Ok(Value::Bool(*truth)),
            Value::Unit => Ok(Value::Unit),
            Value::Cell(cell) => Ok(Value::Cell(*cell)),
            Value::Group(parts) => {
                let mut copies = ListOf::new(alloc);
                for part in parts.as_slice() {
                    copies.push(part.copied(alloc)?)?;
                }
                Ok(Value::Group(copies))
            }
            Value::Case { tag, payload } => {
                let mut copies = ListOf::new(alloc);
                for value in payload.as_slice() {
                    copies.push(value.copied(alloc)?)?;
                }
                Ok(Value::Case {
                    tag: *tag,
                    payload: copies,
                })
            }
        }
    }
}
