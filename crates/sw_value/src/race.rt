/// A location that jobs can race on: memory that more than one job may reach, and that may change.
#[derive(Clone, Copy, Debug, PartialEq, Eq, Hash)]
pub enum Place {
    /// A `var` part of an object or an actor, by the number of its cell and the part's index.
    Prop { cell: u32, part: usize },
    /// A global `var`, by number.
    Global(u32),
    /// A box, by the number of its cell.
    BoxOf(u32),
}

/// An access that a job is about to make.
#[derive(Clone, Copy, Debug, PartialEq, Eq)]
pub struct Access {
    pub job: u32,
    /// The byte offset of its instruction in the source.
    pub at: u32,
    pub place: Place,
    pub writes: bool,
}

/// Two jobs that are about to access one location, one of them writing. The job with the lower
/// number is the first.
#[derive(Clone, Copy, Debug, PartialEq, Eq)]
pub struct Race {
    pub first: Access,
    pub second: Access,
}
