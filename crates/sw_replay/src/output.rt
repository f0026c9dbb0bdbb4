use sw_step::Line;
use sw_value::{Race, TrapKind};

/// How the machine stands after items.
#[derive(Clone, Copy, Debug, PartialEq, Eq)]
pub enum End {
    /// It isn't halted.
    Ran,
    /// The instruction of an item halted it; `at` is its byte offset in the source. The items after
    /// that one changed nothing.
    Trapped { kind: TrapKind, at: u32 },
}

/// What comes of items.
#[derive(Debug, Drop)]
pub struct Output {
    /// The printed lines, one after the other; each ends in a line feed.
    pub lines: Line,
    pub end: End,
    /// How many jobs have ended in the state after the items.
    pub ended: u32,
    /// How many jobs there are in that state.
    pub jobs: u32,
}

/// What comes of a schedule whose replay is watched for races.
#[derive(Debug, Drop)]
pub struct Replay {
    /// What comes of the items that were taken: all of them, where there is no race.
    pub output: Output,
    /// There is one exactly where a prefix of the items leads to a state that is racing. The replay
    /// stopped at the first such state, before the next item. Of the races of that state this is
    /// the one with the least first job, and then the least second job.
    pub race: Option<Race>,
}
