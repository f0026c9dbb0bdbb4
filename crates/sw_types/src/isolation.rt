/// The isolation of a function, closure or task body (SE-0306, SE-0313, SE-0316, SE-0461).
#[derive(Clone, Copy, Debug, PartialEq, Eq)]
pub enum Iso {
    /// Isolated to no actor.
    Free,
    /// Isolated to the actor `self`.
    Own,
    /// Isolated to a global actor, by number.
    Global(u32),
    /// Isolated to no actor, and run where its caller runs: `nonisolated(nonsending)` (SE-0461).
    Caller,
}

/// How a call crosses between isolations (SE-0306, SE-0338).
#[derive(Clone, Copy, Debug, PartialEq, Eq)]
pub enum CallKind {
    /// A callee whose isolation is `Caller`; or one whose isolation is `Free`, if it is synchronous
    /// or the body that calls it is `Free` too.
    Plain,
    /// A callee of the caller's own isolation: to the same `self` or the same global actor.
    Same,
    /// An asynchronous callee whose isolation is `Free`, from a body that isn't `Free`: it leaves
    /// the actor on which the body may run.
    Weak,
    /// Any other callee that is isolated to an actor: it hops to that actor.
    Strong,
    /// An actor's initialiser.
    Make,
}
