//! What is known of an expression, a closure and a statement.
use sw_types::{Ty, TyList};

/// What is known of an expression.
#[derive(Drop)]
pub struct Known {
    /// Where its node stands.
    pub key: u32,
    pub ty: Option<Ty>,
    /// The enum that it names before a `.`, by number.
    pub names: Option<u32>,
    /// Whether it can be assigned.
    pub settable: bool,
    /// Whether it is the word `true`.
    pub is_true: bool,
}

/// What is known of a closure, or of the body of a task.
#[derive(Drop)]
pub struct Enclosed {
    /// Where its `{` stands.
    pub at: u32,
    pub params: TyList,
    /// Whether it is marked `@Sendable`.
    pub marked: bool,
    pub result: Option<Ty>,
}

/// How a statement goes.
#[derive(Clone, Copy)]
pub struct Went {
    /// Whether nothing in it is ill or held.
    pub fine: bool,
    /// Whether each way through it ends in a `return` or in a loop that nothing leaves.
    pub ends: bool,
    /// Whether a `break` leaves what holds it.
    pub breaks: bool,
}
