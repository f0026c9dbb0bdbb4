//! The codes that are noted here.

/// A word that means no value.
pub const NO_VALUE: u16 = 401;

/// Types that don't fit.
pub const TYPES: u16 = 402;

/// A place that can't be assigned.
pub const FIXED: u16 = 404;

/// A `switch` whose arms don't fit its subject.
pub const ARMS: u16 = 405;

/// A body that has a way without its result.
pub const NO_RESULT: u16 = 406;

/// A `break` or a `continue` that has nothing to leave or to go on with.
pub const NOTHING_AROUND: u16 = 408;
