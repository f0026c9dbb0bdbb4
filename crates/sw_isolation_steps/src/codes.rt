//! The codes that are said here.

/// What is synchronous and another actor's, in a synchronous body.
pub const OTHER_ACTOR: u16 = 501;

/// What needs an `await` and has none, in an asynchronous body.
pub const NO_AWAIT: u16 = 502;

/// What is asynchronous, in a synchronous body.
pub const NOT_ASYNC: u16 = 503;

/// Another actor's storage that is assigned.
pub const WRITTEN: u16 = 504;

/// The result of a call that crosses and may not.
pub const CALL_RESULT: u16 = 604;

/// The result of a task that may not cross.
pub const TASK_RESULT: u16 = 605;

/// A `let` of another actor that may not cross.
pub const OTHER_LET: u16 = 606;
