use sw_types::Iso;

/// Where an expression stands: the isolation of its body, whether that is asynchronous, whether an
/// `await` covers the expression, and the type whose member the body is, by number.
#[derive(Clone, Copy, Debug, PartialEq, Eq)]
pub struct Context {
    pub iso: Iso,
    pub is_async: bool,
    pub awaited: bool,
    pub owner: Option<u32>,
}

/// What is known of a callee: its isolation, whether it is asynchronous, whether it is the
/// initialiser of an actor, and whether it is called on `self`.
#[derive(Clone, Copy, Debug, PartialEq, Eq)]
pub struct Callee {
    pub iso: Iso,
    pub is_async: bool,
    pub is_initialiser: bool,
    pub on_self: bool,
}

/// What stands before a `.`: the type that it has, by number, if it is a declared one, and whether
/// it is the word `self`.
#[derive(Clone, Copy, Debug, PartialEq, Eq)]
pub struct Base {
    pub shape: Option<u32>,
    pub is_self: bool,
}

/// What is known of a property of a class or an actor, or of a global variable: its isolation,
/// whether it is one of `self`, whether it is a `var`, and whether its values are Sendable.
#[derive(Clone, Copy, Debug, PartialEq, Eq)]
pub struct Storage {
    pub iso: Iso,
    pub on_self: bool,
    pub mutable: bool,
    pub may_cross: bool,
}

/// What the use of a name, a member or a call is, by its meaning.
#[derive(Clone, Copy, Debug, PartialEq, Eq)]
pub enum Used {
    /// The call of a function, a method or an initialiser, and whether its result may cross: it is
    /// Sendable or `sending`.
    Called { callee: Callee, may_cross: bool },
    /// Storage of an actor, of an object or of the program.
    Stored(Storage),
    /// A part of a struct's value.
    Field,
    /// What waits for a task.
    Waited,
    /// Nothing that isolation has a rule for.
    Nothing,
}
