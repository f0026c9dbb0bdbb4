//! Places in a document, as the protocol counts them: lines and characters from 0, where a
//! character is a unit of UTF-16.

/// A place between two characters.
#[derive(Clone, Copy, Debug, PartialEq, Eq)]
pub struct Place {
    pub line: u32,
    pub character: u32,
}

/// What stands from `start` up to, and without, `end`.
#[derive(Clone, Copy, Debug, PartialEq, Eq)]
pub struct Range {
    pub start: Place,
    pub end: Place,
}
