//! Which types may cross between isolations, and what is known of nodes.
ghost use Rattle.std.specs.Prelude.{◌≡◌};
ghost use Rattle.sw_isolation_table.specs.Known.{answers_of};
ghost use Rattle.sw_types.specs.Sendable.{is_sendable, sends_at};
ghost use Rattle.sw_typing_rules.specs.Statements.{marked_type};
ghost use Rattle.sw_typing_rules.specs.Worlds.{world_of};

use sw_decls::Decls;
use sw_types::Ty;
use sw_typing_table::Typed;
use sw_typing_words::is_marked;

/// Whether values of the declared type with this number may cross between isolations.
#[tactic(auto, using(crate::proofs::Sending::sends_beyond))]
fn shape_sends(world: &Decls, shape: u32) -> bool
    ensures { result ≡ sends_at (world_of world.now).shapes shape }
{
    if (shape as usize) < world.shapes.list().len() {
        world.shapes.is_sendable(&Ty::Named(shape))
    } else {
        false
    }
}

/// Whether values of a type may cross between isolations. Those of a declared type that there isn't
/// may not.
pub fn may_cross(world: &Decls, ty: &Ty) -> bool
    ensures { result ≡ is_sendable (world_of world.now).shapes ty.now }
{
    match ty {
        Ty::Int | Ty::Bool | Ty::Unit | Ty::Task(_) => true,
        Ty::Func { sendable, .. } => *sendable,
        Ty::Named(shape) => shape_sends(world, *shape),
    }
}

/// Whether the node with this key has a function type that is marked `@Sendable`.
pub fn marked_at(typed: &Typed, at: u32) -> bool
    ensures { result ≡ marked_type ((answers_of typed.now).type_at at) }
{
    match typed.ty_at(at) {
        None => false,
        Some(ty) => is_marked(ty),
    }
}
