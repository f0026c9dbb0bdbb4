use sw_list::ListOf;
use sw_types::Ty;

/// A variable that is visible: a `let` or `var`, a parameter, a pattern or a listed capture.
#[derive(Drop)]
pub struct Var {
    /// The id of its word.
    pub name: u32,
    /// The key of its declaration.
    pub at: u32,
    /// Whether it is a `var`.
    pub mutable: bool,
    /// Its type; none where its value or its pattern has none.
    pub ty: Option<Ty>,
}

/// The result of a body, as far as it is known.
#[derive(Drop)]
pub enum Returned {
    /// It is written.
    Wants(Ty),
    /// It isn't written, and no `return` with a value was met: where those without a value stand.
    Open(ListOf<u32>),
    /// It isn't written, and is the type of the first value that is returned.
    Gives(Option<Ty>),
}

/// Where a statement stands.
#[derive(Clone, Copy)]
pub struct Inside {
    /// The type whose member it is in, by number.
    pub owner: Option<u32>,
    /// Whether it is the one statement of a body.
    pub only: bool,
    /// Whether a `continue` has something to go on with.
    pub loops: bool,
    /// Whether a `break` has something to leave.
    pub leaves: bool,
    /// Whether the body is that of an initialiser.
    pub init: bool,
}
