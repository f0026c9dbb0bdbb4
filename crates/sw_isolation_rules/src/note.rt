use sw_decl_words::Placed;
use sw_types::{CallKind, Iso};

/// A body: its key, its isolation, and whether it is asynchronous.
#[derive(Clone, Copy, Debug, PartialEq, Eq)]
pub struct BodyIso {
    /// The key of a function, of a closure's or task's `{`, or of a property's or global variable's
    /// word: of its getter or of what gives its first value.
    pub key: u32,
    pub iso: Iso,
    pub is_async: bool,
}

/// How the call or the crossing read with a key crosses.
#[derive(Clone, Copy, Debug, PartialEq, Eq)]
pub struct Kinded {
    pub at: u32,
    pub kind: CallKind,
}

/// That a variable is mentioned: the key of its declaration, which for `self` is the word of the
/// type around, and where.
#[derive(Clone, Copy, Debug, PartialEq, Eq)]
pub struct Mention {
    pub variable: u32,
    pub at: u32,
}

/// That a closure captures a variable, where it mentions it first, and whether it or a closure
/// around it lists the variable.
#[derive(Clone, Copy, Debug, PartialEq, Eq)]
pub struct Captured {
    /// The key of the closure or of a task's body.
    pub closure: u32,
    pub mention: Mention,
    pub listed: bool,
}

/// A captured variable.
#[derive(Clone, Copy, Debug, PartialEq, Eq)]
pub struct Capture {
    /// The key of the closure or of a task's body.
    pub closure: u32,
    /// The key of the variable's declaration; of `self` the word of its type.
    pub variable: u32,
    /// Whether the closure shares the variable; else it has the value.
    pub by_ref: bool,
    /// Where the closure mentions it first.
    pub first: u32,
}

/// What is noted in a program.
#[derive(Clone, Copy, Debug, PartialEq, Eq)]
pub enum Note {
    /// A body.
    Body(BodyIso),
    /// The kind of a call or of a crossing read.
    Kind(Kinded),
    /// A breach of isolation, E501 to E504.
    Refused(Placed),
    /// A value that may not cross, E604 to E606.
    Race(Placed),
    /// The key of a `var` of a body.
    Var(u32),
    /// A variable is mentioned.
    Mentioned(Mention),
    /// A closure captures a variable.
    Captures(Captured),
}
