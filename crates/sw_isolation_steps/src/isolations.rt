//! How types, closures and tasks are isolated.
ghost use Rattle.std.specs.Prelude.{◌≡◌};
ghost use Rattle.sw_isolation_table.specs.Known.{answers_of};
ghost use Rattle.sw_isolation_rules.specs.Kinds.{is_isolated, kind_iso, shape_iso};
ghost use Rattle.sw_isolation_rules.specs.Noting.{closure_iso, task_iso, unmarked_iso};
ghost use Rattle.sw_typing_rules.specs.Worlds.{world_of};

use crate::known::marked_at;
use sw_decl_words::written_actor;
use sw_decls::{Decls, actor_iso};
use sw_isolation_rules::inherited;
use sw_tree::{Name, Written};
use sw_types::{Iso, Shape, ShapeKind};
use sw_typing_table::Typed;

/// The isolation of what a type of this kind stores, with its global actor.
pub fn kind_iso(kind: ShapeKind, actor: Option<u32>) -> Iso
    ensures { result ≡ kind_iso kind actor }
{
    match kind {
        ShapeKind::Struct | ShapeKind::Enum => Iso::Free,
        ShapeKind::Class => actor_iso(actor),
        ShapeKind::Actor => Iso::Own,
    }
}

/// The isolation of what a type stores.
pub fn shape_iso(shape: &Shape) -> Iso
    ensures { result ≡ shape_iso shape.now }
{
    kind_iso(shape.kind, shape.actor)
}

/// Whether it is the isolation to an actor.
pub fn is_isolated(iso: Iso) -> bool
    ensures { result ≡ is_isolated iso }
{
    match iso {
        Iso::Own | Iso::Global(_) => true,
        Iso::Free | Iso::Caller => false,
    }
}

/// The isolation of the closure with this key, in a body that is isolated as `around`.
#[tactic(auto, unfolding(sw_isolation_rules::specs::Noting::closure_iso))]
pub fn closure_iso(typed: &Typed, at: u32, around: Iso) -> Iso
    ensures { result ≡ closure_iso (answers_of typed.now) at around }
{
    if marked_at(typed, at) {
        Iso::Free
    } else {
        inherited(around)
    }
}

/// The isolation of a task without a global actor.
fn unmarked_iso(detached: bool, around: Iso) -> Iso
    ensures { result ≡ unmarked_iso detached around }
{
    if detached {
        Iso::Free
    } else {
        inherited(around)
    }
}

/// The isolation of a task with this global actor or none, in a body that is isolated as `around`.
#[tactic(auto, unfolding(sw_isolation_rules::specs::Noting::task_iso))]
pub fn task_iso(world: &Decls, mark: Option<Name>, detached: bool, around: Iso) -> Iso
    ensures { result ≡ task_iso (world_of world.now) mark detached around }
{
    match mark {
        None => unmarked_iso(detached, around),
        Some(mark) => actor_iso(written_actor(&world.words, Written::At(mark))),
    }
}
