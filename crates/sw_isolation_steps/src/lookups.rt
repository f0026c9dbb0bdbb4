//! What the use of a name, a member or a call is, by its meaning.
ghost use Rattle.std.specs.Prelude.{◌≡◌, Some};
ghost use Rattle.std.specs.Option.{option_copied};
ghost use Rattle.sw_isolation_table.specs.Known.{answers_of};
ghost use Rattle.sw_isolation_rules.specs.Uses.{base_of, called, func_used, global, global_used};
ghost use Rattle.sw_isolation_rules.specs.Uses.{made_kind, made, make_used, maker_at, meant};
ghost use Rattle.sw_isolation_rules.specs.Uses.{named_shape, no_base, part_in, part_of_shape};
ghost use Rattle.sw_isolation_rules.specs.Uses.{part_storage, part_used, used};
ghost use Rattle.sw_typing_rules.specs.Worlds.{item, world_of};

use crate::isolations::shape_iso;
use crate::known::may_cross;
use sw_decls::{Decls, GlobalVar, Signature, actor_iso};
use sw_isolation_rules::{Base, Callee, Storage, Used};
use sw_types::{Part, Shape, ShapeKind, Ty};
use sw_typing_rules::Meaning;
use sw_typing_table::Typed;
use sw_typing_words::{init_number, is_object_kind};

/// Nothing stands before a word.
pub fn no_base() -> Base
    ensures { result ≡ no_base }
{
    Base {
        shape: None,
        is_self: false,
    }
}

/// The number of a declared type.
fn named_shape(ty: Option<&Ty>) -> Option<u32>
    ensures { result ≡ named_shape (option_copied ty.entry) }
{
    match ty {
        Some(Ty::Named(shape)) => Some(*shape),
        Some(Ty::Int | Ty::Bool | Ty::Unit | Ty::Func { .. } | Ty::Task(_)) | None => None,
    }
}

/// What stands before a `.`, by its key and by whether it is the word `self`.
#[tactic(auto, unfolding(sw_isolation_rules::specs::Uses::base_of))]
pub fn base_of(typed: &Typed, key: u32, is_self: bool) -> Base
    ensures { result ≡ base_of (answers_of typed.now) key is_self }
{
    Base {
        shape: named_shape(typed.ty_at(key)),
        is_self,
    }
}

/// The call of a function, on `self` or not.
fn called(world: &Decls, is_initialiser: bool, on_self: bool, func: Option<&Signature>) -> Used
    ensures { result
        ≡ called (world_of world.now) is_initialiser on_self (option_copied func.entry) }
{
    match func {
        None => Used::Nothing,
        Some(func) => Used::Called {
            callee: Callee {
                iso: func.iso,
                is_async: func.is_async,
                is_initialiser,
                on_self,
            },
            may_cross: func.sends || may_cross(world, &func.result),
        },
    }
}

/// The call of the function with this number, on `self` or not.
#[tactic(auto, unfolding(sw_isolation_rules::specs::Uses::func_used))]
pub fn func_used(world: &Decls, number: usize, on_self: bool) -> Used
    ensures { result ≡ func_used (world_of world.now) number on_self }
{
    called(world, false, on_self, world.funcs.get(number))
}

/// The initialiser of a class or an actor.
#[tactic(auto, unfolding(sw_isolation_rules::specs::Uses::maker_at))]
fn maker_at(world: &Decls, shape: u32) -> Option<&Signature>
    ensures { option_copied result ≡ maker_at (world_of world.now) shape }
{
    match init_number(world, shape) {
        None => None,
        Some(number) => world.funcs.get(number),
    }
}

/// The making of a value of a declared type of this kind.
fn made_kind(world: &Decls, kind: ShapeKind, shape: u32) -> Used
    ensures { result ≡ made_kind (world_of world.now) kind shape }
{
    match kind {
        ShapeKind::Struct | ShapeKind::Enum => Used::Nothing,
        ShapeKind::Class => called(world, false, false, maker_at(world, shape)),
        ShapeKind::Actor => called(world, true, false, maker_at(world, shape)),
    }
}

/// The making of a value of the declared type with this number.
#[tactic(auto, unfolding(sw_isolation_rules::specs::Uses::make_used))]
pub fn make_used(world: &Decls, number: u32) -> Used
    ensures { result ≡ make_used (world_of world.now) number }
{
    match world.shapes.list().get(number as usize) {
        None => Used::Nothing,
        Some(shape) => made_kind(world, shape.kind, number),
    }
}

/// A property of a class or an actor, on `self` or not.
fn part_storage(world: &Decls, shape: &Shape, on_self: bool, part: &Part) -> Storage
    ensures { result ≡ part_storage (world_of world.now) shape.now on_self part.now }
{
    Storage {
        iso: shape_iso(shape),
        on_self,
        mutable: part.mutable,
        may_cross: may_cross(world, &part.ty),
    }
}

/// A property of a shape, on `self` or not.
fn part_in(world: &Decls, shape: &Shape, on_self: bool, part: Option<&Part>) -> Used
    ensures { result
        ≡ part_in (world_of world.now) shape.now on_self (option_copied part.entry) }
{
    match part {
        None => Used::Nothing,
        Some(part) => {
            if is_object_kind(shape.kind) {
                Used::Stored(part_storage(world, shape, on_self, part))
            } else {
                Used::Field
            }
        }
    }
}

/// The property of a shape with this number, on `self` or not.
fn part_of_shape(world: &Decls, shape: Option<&Shape>, number: usize, on_self: bool) -> Used
    ensures { result
        ≡ part_of_shape (world_of world.now) (option_copied shape.entry) number on_self }
{
    match shape {
        None => Used::Nothing,
        Some(shape) => part_in(world, shape, on_self, shape.parts.get(number)),
    }
}

/// The shape with this number, if there is a number.
fn shape_at(world: &Decls, number: Option<u32>) -> Option<&Shape>
    ensures { option_copied result ≡ item number (world_of world.now).shapes }
{
    match number {
        None => None,
        Some(number) => world.shapes.list().get(number as usize),
    }
}

/// The property with this number of the type with that number, on `self` or not.
#[tactic(auto, unfolding(sw_isolation_rules::specs::Uses::part_used))]
pub fn part_used(world: &Decls, shape: Option<u32>, number: usize, on_self: bool) -> Used
    ensures { result ≡ part_used (world_of world.now) shape number on_self }
{
    part_of_shape(world, shape_at(world, shape), number, on_self)
}

/// A global variable.
fn global(world: &Decls, one: Option<&GlobalVar>) -> Used
    ensures { result ≡ global (world_of world.now) (option_copied one.entry) }
{
    match one {
        None => Used::Nothing,
        Some(one) => Used::Stored(Storage {
            iso: actor_iso(one.actor),
            on_self: false,
            mutable: one.mutable,
            may_cross: may_cross(world, &one.ty),
        }),
    }
}

/// The global variable with this number.
#[tactic(auto, unfolding(sw_isolation_rules::specs::Uses::global_used))]
pub fn global_used(world: &Decls, number: u32) -> Used
    ensures { result ≡ global_used (world_of world.now) number }
{
    global(world, world.globals.get(number as usize))
}

/// What is used by what is meant, in a member of the type `owner` and after `base`.
fn meant(world: &Decls, owner: Option<u32>, base: Base, meaning: Meaning) -> Used
    ensures { result ≡ meant (world_of world.now) owner base (Some meaning) }
{
    match meaning {
        Meaning::OwnPart(number) => part_used(world, owner, number, true),
        Meaning::OwnFunc(number) => func_used(world, number, true),
        Meaning::GlobalOf(number) => global_used(world, number),
        Meaning::FuncOf(number) => func_used(world, number, base.is_self),
        Meaning::MakeOf(shape) => make_used(world, shape),
        Meaning::PartOf(number) => part_used(world, base.shape, number, base.is_self),
        Meaning::TaskValue => Used::Waited,
        Meaning::Local(_) | Meaning::CaseOf(_, _) | Meaning::Print => Used::Nothing,
    }
}

/// What is used by the name, member or call with this key, in a member of the type `owner` and
/// after `base`.
#[tactic(auto, unfolding(sw_isolation_rules::specs::Uses::used))]
pub fn used(world: &Decls, typed: &Typed, owner: Option<u32>, base: Base, at: u32) -> Used
    ensures { result ≡ used (world_of world.now) (answers_of typed.now) owner base at }
{
    match typed.meaning_at(at) {
        None => Used::Nothing,
        Some(meaning) => meant(world, owner, base, meaning),
    }
}
