use crate::cell::{HeapCell, Slot};
use crate::frame::Frame;
use crate::state::TrapKind;
use crate::value::{Line, Value};

/// What the next instruction of a running job does. `next` is the point at which the top frame goes
/// on.
#[derive(Debug, Drop)]
pub enum Effect {
    /// Register `reg` gets a value.
    Set {
        reg: u32,
        value: Value,
        next: u32,
    },
    /// The struct in register `reg` gets a value as its part `part`.
    SetField {
        reg: u32,
        part: usize,
        value: Value,
        next: u32,
    },
    /// A line is printed, and register `reg` gets the value of `Void`.
    Print {
        reg: u32,
        line: Line,
        next: u32,
    },
    /// A cell is made with the number `number`, and register `reg` gets a reference to it.
    New {
        reg: u32,
        cell: HeapCell,
        number: u32,
        next: u32,
    },
    /// A slot of a cell gets a value.
    Write {
        cell: u32,
        slot: Slot,
        value: Value,
        next: u32,
    },
    /// A global gets a value.
    WriteGlobal {
        global: u32,
        value: Value,
        next: u32,
    },
    /// The frame goes on at another block.
    Goto {
        next: u32,
    },
    /// A call puts a frame on top; the frame below goes on at `next` when it has returned.
    Enter {
        frame: Frame,
        next: u32,
    },
    /// The job `job` is made with one frame, and the cell `cell` as its task; register `reg` gets
    /// that cell.
    Spawn {
        reg: u32,
        frame: Frame,
        job: u32,
        cell: u32,
        next: u32,
    },
    /// The job waits until the job `job` has ended, whose result is for register `reg`.
    Wait {
        job: u32,
        reg: u32,
        next: u32,
    },
    /// The job lets others run, and register `reg` gets the value of `Void`.
    Rest {
        reg: u32,
        next: u32,
    },
    /// The top frame returns a value.
    Leave {
        value: Value,
    },
    /// The machine halts at the instruction with this byte offset.
    Halt {
        kind: TrapKind,
        at: u32,
    },
    /// Nothing: there is no such instruction, or it reads what has no value or a value of another
    /// kind.
    Stuck,
}

/// What an item of a schedule makes its job do.
#[derive(Debug, Drop)]
pub enum Act {
    /// The job gets its executor.
    Dispatch,
    /// The job `ended`, for which it waited, has ended with a value, which goes into register
    /// `reg`.
    Wake { ended: u32, reg: u32, value: Value },
    /// The job executes an instruction, which is not stuck.
    Execute { effect: Effect },
}
