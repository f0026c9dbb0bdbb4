//! What a name means after a `.`.
ghost use Rattle.std.specs.Prelude.{◌≡◌, IfOk};
ghost use Rattle.sw_typing_rules.specs.Words.{found_in, found_meaning, found_settable};
ghost use Rattle.sw_typing_rules.specs.Words.{found_types, member_found};
ghost use Rattle.sw_typing_rules.specs.Worlds.{world_of};

use crate::codes::NO_MEMBER;
use crate::types::copy_of;
use crate::words::{is_object, is_var_part, part_at, part_types};
use std::alloc::{AllocError, Global};
use sw_decl_words::{Member, Role};
use sw_decls::Decls;
use sw_types::Ty;
use sw_typing_rules::{Found, Meaning, Verdict};

/// The id of `value`, which each program has before it declares any name.
const VALUE: u32 = 8;

/// What a member of a shape is to a value of it.
fn member_found(shape: u32, member: Option<Member>) -> Found
    ensures { result ≡ member_found shape member }
{
    match member {
        None => Found::NoMember,
        Some(member) => match member.role {
            Role::Part(number) => Found::Property(shape, number),
            Role::Case(_) => Found::NoMember,
            Role::Method => Found::Method(member.word.at),
        },
    }
}

/// What a name means after a value of this type.
pub fn found_in(alloc: Global, world: &Decls, ty: &Ty, id: u32) -> Result<Found, AllocError>
    ensures { IfOk result (λ found. found ≡ found_in (world_of world.now) ty.now id) }
{
    match ty {
        Ty::Named(shape) => Ok(member_found(*shape, world.members.get(*shape, id))),
        Ty::Task(inner) => {
            if id == VALUE {
                Ok(Found::Result(copy_of(alloc, inner.get())?))
            } else {
                Ok(Found::NoMember)
            }
        }
        Ty::Int | Ty::Bool | Ty::Unit | Ty::Func { .. } => Ok(Found::NoMember),
    }
}

/// What is said of a member.
pub fn found_types(alloc: Global, world: &Decls, found: &Found) -> Result<Verdict, AllocError>
    ensures { IfOk result (λ verdict. verdict ≡ found_types (world_of world.now) found.now) }
{
    match found {
        Found::Property(shape, number) => {
            part_types(alloc, part_at(world, *shape, *number), NO_MEMBER)
        }
        Found::Result(ty) => Ok(Verdict::Has(copy_of(alloc, ty)?)),
        Found::Method(_) | Found::NoMember => Ok(Verdict::Fails(NO_MEMBER)),
    }
}

/// Whether a member can be assigned, where `base` says whether the value before it can.
pub fn found_settable(world: &Decls, base: bool, found: &Found) -> bool
    ensures { result ≡ found_settable (world_of world.now) base found.now }
{
    match found {
        Found::Property(shape, number) => {
            (is_object(world, *shape) || base) && is_var_part(part_at(world, *shape, *number))
        }
        Found::Method(_) | Found::Result(_) | Found::NoMember => false,
    }
}

/// What a member that is read means.
pub fn found_meaning(found: &Found) -> Option<Meaning>
    ensures { result ≡ found_meaning found.now }
{
    match found {
        Found::Property(_, number) => Some(Meaning::PartOf(*number)),
        Found::Result(_) => Some(Meaning::TaskValue),
        Found::Method(_) | Found::NoMember => None,
    }
}
