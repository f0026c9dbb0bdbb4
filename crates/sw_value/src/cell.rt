ghost use Rattle.std.specs.Prelude.{◌≡◌};
ghost use Rattle.std.specs.Option.{option_copied};
ghost use Rattle.sw_value.specs.declared.cell.Slot.TheVariants.{Part, Content};
ghost use Rattle.sw_value.specs.Cell.{slot_of, with_slot, task_of};

use crate::value::{Value, ValueList, set_at};
use sw_list::ListOf;

/// The cells of a state, by number. A cell never goes away.
pub type CellList = ListOf<HeapCell>;

/// What a reference leads to.
#[derive(Debug, Drop)]
pub enum HeapCell {
    /// An object of a class: its shape's number and its parts in order.
    Object { shape: u32, parts: ValueList },
    /// An actor: its shape's number and its parts in order.
    Actor { shape: u32, parts: ValueList },
    /// A variable that a closure captures by reference.
    BoxOf { value: Value },
    /// A closure: its function's number and what it captures, in order.
    Closure { function: u32, captures: ValueList },
    /// A task, by the number of the job that runs it.
    TaskOf { job: u32 },
}

/// A place in a cell.
#[derive(Clone, Copy, Debug, PartialEq, Eq)]
pub enum Slot {
    /// A part of an object or an actor, by its index.
    Part(usize),
    /// What a box holds.
    Content,
}

impl HeapCell {
    /// What the cell has in a slot, if it has that slot.
    pub fn slot(&self, slot: Slot) -> Option<&Value>
        ensures { option_copied result ≡ slot_of slot self.now }
    {
        match self {
            HeapCell::Object { parts, .. } | HeapCell::Actor { parts, .. } => match slot {
                Slot::Part(part) => parts.get(part),
                Slot::Content => None,
            },
            HeapCell::BoxOf { value } => match slot {
                Slot::Part(_) => None,
                Slot::Content => Some(value),
            },
            HeapCell::Closure { .. } | HeapCell::TaskOf { .. } => None,
        }
    }

    /// Puts a value into a slot; a cell without that slot stays as it is.
    pub fn set_slot(&mut self, slot: Slot, value: Value)
        ensures { self.new ≡ with_slot slot value self.old }
    {
        match slot {
            Slot::Part(part) => self.set_part(part, value),
            Slot::Content => self.set_content(value),
        }
    }

    fn set_content(&mut self, value: Value)
        ensures { self.new ≡ with_slot Content value self.old }
    {
        match self {
            HeapCell::BoxOf { value: held } => *held = value,
            HeapCell::Object { .. }
            | HeapCell::Actor { .. }
            | HeapCell::Closure { .. }
            | HeapCell::TaskOf { .. } => {}
        }
    }

    fn set_part(&mut self, part: usize, value: Value)
        ensures { self.new ≡ with_slot (Part part) value self.old }
    {
        match self {
            HeapCell::Object { parts, .. } => set_at(parts, part, value),
            HeapCell::Actor { parts, .. } => set_at(parts, part, value),
            HeapCell::BoxOf { .. } | HeapCell::Closure { .. } | HeapCell::TaskOf { .. } => {}
        }
    }

    /// The job of a task, by number.
    pub fn task(&self) -> Option<u32>
        ensures { result ≡ task_of self.now }
    {
        match self {
            HeapCell::TaskOf { job } => Some(*job),
            HeapCell::Object { .. }
            | HeapCell::Actor { .. }
            | HeapCell::BoxOf { .. }
            | HeapCell::Closure { .. } => None,
        }
    }
}
