//! How far a session is.

/// How far a session is.
#[derive(Clone, Copy, Debug, PartialEq, Eq)]
pub enum Phase {
    /// It hasn't begun.
    Waiting,
    /// It has begun.
    Running,
    /// It is to end.
    Stopping,
    /// It has ended as it should.
    Done,
    /// It has ended before it was to.
    Dropped,
}
