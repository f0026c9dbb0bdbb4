//! The codes that are said here.

/// A word that means no value, or that can't be called.
pub const NO_VALUE: u16 = 401;

/// Types that don't fit.
pub const TYPES: u16 = 402;

/// A number or labels of arguments that don't fit.
pub const LABELS: u16 = 403;

/// A member that isn't there, or that can't be called.
pub const NO_MEMBER: u16 = 407;
