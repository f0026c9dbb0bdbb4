//! What a word means that no visible variable has as its name.
ghost use Rattle.std.specs.Prelude.{◌≡◌, IfOk};
ghost use Rattle.std.specs.Option.{option_copied};
ghost use Rattle.sw_typing_rules.specs.Words.{global_types, is_var_global, is_var_part, me_types};
ghost use Rattle.sw_typing_rules.specs.Words.{own_sense, part_types, top_meaning, top_sense};
ghost use Rattle.sw_typing_rules.specs.Words.{top_settable, top_types, var_types, word_enum};
ghost use Rattle.sw_typing_rules.specs.Words.{word_meaning, word_settable, word_types};
ghost use Rattle.sw_typing_rules.specs.Worlds.{is_object, is_object_kind, part_at, world_of};
ghost use Rattle.sw_typing_words.specs.Outer.{as_sense, outer_sense};

use crate::codes::NO_VALUE;
use crate::meant::Outer;
use crate::types::copy_of;
use std::alloc::{AllocError, Global};
use sw_decl_words::{Meaning as WordMeaning, Member, Role, enum_of};
use sw_decls::{Decls, GlobalVar};
use sw_types::{Part, ShapeKind, Ty};
use sw_typing_rules::{Meaning, Verdict};

/// The id of `print`, which each program has before it declares any name.
const PRINT: u32 = 7;

/// What a word means at top level, or `print`.
fn top_outer(meaning: Option<WordMeaning>, id: u32) -> Outer
    ensures { as_sense result ≡ top_sense meaning id }
{
    match meaning {
        Some(meaning) => Outer::Top(meaning),
        None => {
            if id == PRINT {
                Outer::Printing
            } else {
                Outer::Nothing
            }
        }
    }
}

/// A member of the type around.
fn own_outer(shape: u32, member: Member) -> Outer
    ensures { as_sense result ≡ own_sense shape member }
{
    match member.role {
        Role::Part(number) => Outer::OwnProperty(shape, number),
        Role::Case(_) => Outer::OwnCase,
        Role::Method => Outer::OwnMethod(member.word.at),
    }
}

/// What a word means in a member of the type `owner`, if there is one, where no visible variable
/// has its name.
pub fn outer(world: &Decls, owner: Option<u32>, id: u32) -> Outer
    ensures { as_sense result ≡ outer_sense (world_of world.now) owner id }
{
    let top = top_outer(world.words.get(id), id);
    match owner {
        None => top,
        Some(shape) => match world.members.get(shape, id) {
            None => top,
            Some(member) => own_outer(shape, member),
        },
    }
}

/// The property of a shape, by number.
pub fn part_at(world: &Decls, shape: u32, number: usize) -> Option<&Part>
    ensures { option_copied result ≡ part_at (world_of world.now) shape number }
{
    match world.shapes.list().get(shape as usize) {
        None => None,
        Some(shape) => shape.parts.get(number),
    }
}

/// Whether it is the kind of a class or an actor.
pub fn is_object_kind(kind: ShapeKind) -> bool
    ensures { result ≡ is_object_kind kind }
{
    match kind {
        ShapeKind::Struct | ShapeKind::Enum => false,
        ShapeKind::Class | ShapeKind::Actor => true,
    }
}

/// Whether the shape with this number is a class or an actor.
pub fn is_object(world: &Decls, shape: u32) -> bool
    ensures { result ≡ is_object (world_of world.now) shape }
{
    match world.shapes.list().get(shape as usize) {
        None => false,
        Some(shape) => is_object_kind(shape.kind),
    }
}

/// What is said of a property: its type, or that it is ill with this code.
pub fn part_types(alloc: Global, part: Option<&Part>, code: u16) -> Result<Verdict, AllocError>
    ensures { IfOk result (λ verdict. verdict ≡ part_types (option_copied part.entry) code) }
{
    match part {
        None => Ok(Verdict::Fails(code)),
        Some(part) => Ok(Verdict::Has(copy_of(alloc, &part.ty)?)),
    }
}

/// Whether it is a property that is a `var`.
pub fn is_var_part(part: Option<&Part>) -> bool
    ensures { result ≡ is_var_part (option_copied part.entry) }
{
    match part {
        None => false,
        Some(part) => part.mutable,
    }
}

/// What is said of a global variable.
fn global_types(alloc: Global, global: Option<&GlobalVar>) -> Result<Verdict, AllocError>
    ensures { IfOk result (λ verdict. verdict ≡ global_types (option_copied global.entry)) }
{
    match global {
        None => Ok(Verdict::Fails(NO_VALUE)),
        Some(global) => Ok(Verdict::Has(copy_of(alloc, &global.ty)?)),
    }
}

/// Whether it is a global variable that is a `var`.
fn is_var_global(global: Option<&GlobalVar>) -> bool
    ensures { result ≡ is_var_global (option_copied global.entry) }
{
    match global {
        None => false,
        Some(global) => global.mutable,
    }
}

/// What is said of a word with this meaning at top level.
fn top_types(alloc: Global, world: &Decls, meaning: WordMeaning) -> Result<Verdict, AllocError>
    ensures { IfOk result (λ verdict. verdict ≡ top_types (world_of world.now) meaning) }
{
    match meaning {
        WordMeaning::Global(number) => global_types(alloc, world.globals.get(number as usize)),
        WordMeaning::Shape { .. }
        | WordMeaning::GlobalActor(_)
        | WordMeaning::Func(_)
        | WordMeaning::Entry => Ok(Verdict::Fails(NO_VALUE)),
    }
}

/// What is said of a word.
pub fn outer_types(alloc: Global, world: &Decls, meant: Outer) -> Result<Verdict, AllocError>
    ensures { IfOk result (λ verdict. verdict ≡ word_types (world_of world.now) (as_sense meant)) }
{
    match meant {
        Outer::OwnProperty(shape, number) => {
            part_types(alloc, part_at(world, shape, number), NO_VALUE)
        }
        Outer::Top(meaning) => top_types(alloc, world, meaning),
        Outer::OwnMethod(_) | Outer::OwnCase | Outer::Printing | Outer::Nothing => {
            Ok(Verdict::Fails(NO_VALUE))
        }
    }
}

/// Whether a word with this meaning at top level can be assigned.
fn top_settable(world: &Decls, meaning: WordMeaning) -> bool
    ensures { result ≡ top_settable (world_of world.now) meaning }
{
    match meaning {
        WordMeaning::Global(number) => is_var_global(world.globals.get(number as usize)),
        WordMeaning::Shape { .. }
        | WordMeaning::GlobalActor(_)
        | WordMeaning::Func(_)
        | WordMeaning::Entry => false,
    }
}

/// Whether a word can be assigned.
pub fn outer_settable(world: &Decls, meant: Outer) -> bool
    ensures { result ≡ word_settable (world_of world.now) (as_sense meant) }
{
    match meant {
        Outer::OwnProperty(shape, number) => {
            is_object(world, shape) && is_var_part(part_at(world, shape, number))
        }
        Outer::Top(meaning) => top_settable(world, meaning),
        Outer::OwnMethod(_) | Outer::OwnCase | Outer::Printing | Outer::Nothing => false,
    }
}

/// What a word that is read means, which has this meaning at top level.
fn top_meaning(meaning: WordMeaning) -> Option<Meaning>
    ensures { result ≡ top_meaning meaning }
{
    match meaning {
        WordMeaning::Global(number) => Some(Meaning::GlobalOf(number)),
        WordMeaning::Shape { .. }
        | WordMeaning::GlobalActor(_)
        | WordMeaning::Func(_)
        | WordMeaning::Entry => None,
    }
}

/// What a word that is read means.
pub fn outer_meaning(meant: Outer) -> Option<Meaning>
    ensures { result ≡ word_meaning (as_sense meant) }
{
    match meant {
        Outer::OwnProperty(_, number) => Some(Meaning::OwnPart(number)),
        Outer::Top(meaning) => top_meaning(meaning),
        Outer::OwnMethod(_) | Outer::OwnCase | Outer::Printing | Outer::Nothing => None,
    }
}

/// The enum that a word names, by number.
pub fn outer_enum(meant: Outer) -> Option<u32>
    ensures { result ≡ word_enum (as_sense meant) }
{
    match meant {
        Outer::Top(meaning) => enum_of(Some(meaning)),
        Outer::OwnProperty(_, _)
        | Outer::OwnMethod(_)
        | Outer::OwnCase
        | Outer::Printing
        | Outer::Nothing => None,
    }
}

/// What is said of a variable with this type, if it has one.
pub fn var_types(alloc: Global, ty: &Option<Ty>) -> Result<Verdict, AllocError>
    ensures { IfOk result (λ verdict. verdict ≡ var_types ty.now) }
{
    match ty {
        None => Ok(Verdict::Held),
        Some(ty) => Ok(Verdict::Has(copy_of(alloc, ty)?)),
    }
}

/// What is said of `self` in a member of the type `owner`, if there is one.
pub fn me_types(owner: Option<u32>) -> Verdict
    ensures { result ≡ me_types owner }
{
    match owner {
        None => Verdict::Fails(NO_VALUE),
        Some(shape) => Verdict::Has(Ty::Named(shape)),
    }
}
