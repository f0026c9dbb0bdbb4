//! The rules that look nothing up.
ghost use Rattle.std.specs.Prelude.{◌≡◌};
ghost use Rattle.sw_types.specs.CallKinds.{async_kind, global_kind, kind_by, own_kind};
ghost use Rattle.sw_isolation_rules.specs.Kinds.{accessor, inherited, is_outside, is_own};
ghost use Rattle.sw_isolation_rules.specs.Kinds.{is_strong, kind_of, needs_await};

use crate::uses::{Callee, Context, Storage};
use sw_types::{CallKind, Iso};

/// The kind of a call of an asynchronous callee that is isolated to no actor.
fn async_kind(body: Iso) -> CallKind
    ensures { result ≡ async_kind body }
{
    match body {
        Iso::Free => CallKind::Plain,
        Iso::Own | Iso::Global(_) | Iso::Caller => CallKind::Weak,
    }
}

/// The kind of a call of a callee that is isolated to `self`.
fn own_kind(on_self: bool, body: Iso) -> CallKind
    ensures { result ≡ own_kind on_self body }
{
    match (on_self, body) {
        (true, Iso::Own) => CallKind::Same,
        (true, Iso::Free | Iso::Global(_) | Iso::Caller) | (false, _) => CallKind::Strong,
    }
}

/// The kind of a call of a callee that is isolated to a global actor.
fn global_kind(actor: u32, body: Iso) -> CallKind
    ensures { result ≡ global_kind actor body }
{
    match body {
        Iso::Global(other) if actor == other => CallKind::Same,
        Iso::Global(_) | Iso::Free | Iso::Own | Iso::Caller => CallKind::Strong,
    }
}

/// The kind of a call of a callee that is no initialiser of an actor.
fn kind_by(callee: Callee, body: Iso) -> CallKind
    ensures { result ≡ kind_by callee.iso callee.is_async callee.on_self body }
{
    match callee.iso {
        Iso::Free if callee.is_async => async_kind(body),
        Iso::Free | Iso::Caller => CallKind::Plain,
        Iso::Own => own_kind(callee.on_self, body),
        Iso::Global(actor) => global_kind(actor, body),
    }
}

/// The kind of a call, by its callee and by the isolation of the caller's body.
pub fn kind_of(callee: Callee, body: Iso) -> CallKind
    ensures { result ≡ kind_of callee body }
{
    if callee.is_initialiser {
        CallKind::Make
    } else {
        kind_by(callee, body)
    }
}

/// Whether a call of this kind needs an `await`.
pub fn needs_await(kind: CallKind, is_async: bool) -> bool
    ensures { result ≡ needs_await kind is_async }
{
    match kind {
        CallKind::Plain | CallKind::Same => is_async,
        CallKind::Weak | CallKind::Strong => true,
        CallKind::Make => false,
    }
}

/// The isolation that a closure or a task has from the body around it.
pub fn inherited(body: Iso) -> Iso
    ensures { result ≡ inherited body }
{
    match body {
        Iso::Free | Iso::Caller => Iso::Free,
        Iso::Own => Iso::Own,
        Iso::Global(actor) => Iso::Global(actor),
    }
}

/// Whether it is the isolation to `self`.
pub fn is_own(iso: Iso) -> bool
    ensures { result ≡ is_own iso }
{
    match iso {
        Iso::Own => true,
        Iso::Free | Iso::Global(_) | Iso::Caller => false,
    }
}

/// Whether a call of this kind goes to another actor.
pub fn is_strong(kind: CallKind) -> bool
    ensures { result ≡ is_strong kind }
{
    match kind {
        CallKind::Strong => true,
        CallKind::Plain | CallKind::Same | CallKind::Weak | CallKind::Make => false,
    }
}

/// What reads storage: a synchronous function in its place.
pub fn accessor(storage: Storage) -> Callee
    ensures { result ≡ accessor storage }
{
    Callee {
        iso: storage.iso,
        is_async: false,
        is_initialiser: false,
        on_self: storage.on_self,
    }
}

/// Whether storage is another actor's where it is used.
pub fn is_outside(context: Context, storage: Storage) -> bool
    ensures { result ≡ is_outside context storage }
{
    is_strong(kind_of(accessor(storage), context.iso))
}
