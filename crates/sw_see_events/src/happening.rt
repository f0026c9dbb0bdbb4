use sw_value::{Access, Executor, Line, TrapKind};

/// What a job did.
#[derive(Debug, Drop)]
pub enum Deed {
    /// It got its executor.
    Runs,
    /// It got the result of the job `ended`, for which it waited.
    Resumes { ended: u32 },
    /// It computed a value, or read or stored one.
    Computes,
    /// It printed a line, which ends in a line feed.
    Prints { line: Line },
    /// It made the cell of this number.
    Makes { cell: u32 },
    /// It went on at another block.
    Jumps,
    /// It called, and gave its executor up where the call crosses to another one.
    Calls { to: Option<Executor> },
    /// It made the job of this number.
    Starts { job: u32 },
    /// It waits for the end of the job of this number.
    Waits { job: u32 },
    /// It let others run.
    Yields,
    /// It returned from a call.
    Returns,
    /// It returned from its last call.
    Ends,
    /// It halted the machine.
    Traps { kind: TrapKind },
}

/// An event of a replay.
#[derive(Debug, Drop)]
pub struct Happening {
    pub job: u32,
    /// The byte offset of the instruction at which the job stood; a jump and a return of nothing have
    /// none.
    pub at: Option<u32>,
    /// The executor of its top call.
    pub executor: Option<Executor>,
    /// The access that it made, if any.
    pub access: Option<Access>,
    pub deed: Deed,
}
