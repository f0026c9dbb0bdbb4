use sw_value::{Line, TrapKind};

/// What one item did.
#[derive(Debug, Drop)]
pub enum Event {
    /// No job was dispatched, none was woken, and no instruction was executed.
    Nothing,
    /// A job got its executor.
    Dispatched,
    /// A job got the result of the job `ended`, for which it waited.
    Woken { ended: u32 },
    /// A job executed an instruction that neither prints nor halts the machine.
    Ran,
    /// A job executed a Print. The line ends in a line feed.
    Printed { line: Line },
    /// An instruction halted the machine; `at` is its byte offset in the source.
    Trapped { kind: TrapKind, at: u32 },
}
