//! What a call calls: by a word, by a member, and by a case of an enum.
ghost use Rattle.std.specs.Prelude.{◌≡◌, slice_get, IfOk};
ghost use Rattle.std.specs.Option.{option_copied};
ghost use Rattle.sw_types.specs.declared.ty.Ty.{out-Ty};
ghost use Rattle.sw_typing_rules.specs.Calls.{case_in, case_meaning, case_number, case_types};
ghost use Rattle.sw_typing_rules.specs.Calls.{enum_callee, enum_types, found_callee, global_callee};
ghost use Rattle.sw_typing_rules.specs.Calls.{init_callee, make_callee, method_callee, part_callee};
ghost use Rattle.sw_typing_rules.specs.Calls.{signature_callee, top_callee, value_layer};
ghost use Rattle.sw_typing_rules.specs.Calls.{variable_callee, word_callee};
ghost use Rattle.sw_typing_rules.specs.Worlds.{World, and_then, world_of};
ghost use Rattle.sw_typing_rules.specs.declared.row.Meaning.TheVariants as means;
ghost use Rattle.sw_typing_words.specs.Callees.{as_callee};
ghost use Rattle.sw_typing_words.specs.Outer.{as_sense};

use crate::callee::{Callee, case_at};
use crate::codes::{NO_MEMBER, NO_VALUE};
use crate::meant::Outer;
use crate::types::{copies_of, copy_of};
use crate::words::part_at;
use std::alloc::{AllocError, Global};
use sw_decl_words::{Meaning as WordMeaning, Member, Role};
use sw_decls::{Decls, GlobalVar};
use sw_types::{CaseShape, Part, ShapeKind, Ty};
use sw_typing_rules::{Found, Meaning, Verdict};

/// The call of a value of this type; `code` is said where it isn't a function type.
fn value_callee(alloc: Global, meaning: Meaning, code: u16, ty: &Ty) -> Result<Callee, AllocError>
    ensures { (world : World) → IfOk result (λ callee. as_callee world callee
        ≡ value_layer meaning code (out-Ty ty.now)) }
{
    match ty {
        Ty::Func { params, result, .. } => Ok(Callee::Value {
            meaning,
            params: copies_of(alloc, params.as_slice())?,
            result: copy_of(alloc, result.get())?,
        }),
        Ty::Int | Ty::Bool | Ty::Unit | Ty::Named(_) | Ty::Task(_) => Ok(Callee::Uncallable(code)),
    }
}

/// The call of the variable that is declared at `at`, with its type, if it has one.
pub fn variable_callee(alloc: Global, at: u32, ty: &Option<Ty>) -> Result<Callee, AllocError>
    ensures { (world : World) → IfOk result (λ callee. as_callee world callee
        ≡ variable_callee (means.Local at) ty.now) }
{
    match ty {
        None => Ok(Callee::Untyped(Some(Meaning::Local(at)))),
        Some(ty) => value_callee(alloc, Meaning::Local(at), NO_VALUE, ty),
    }
}

/// The call of a property.
fn part_callee(
    alloc: Global,
    meaning: Meaning,
    code: u16,
    part: Option<&Part>,
) -> Result<Callee, AllocError>
    ensures { (world : World) → IfOk result (λ callee. as_callee world callee
        ≡ part_callee meaning code (option_copied part.entry)) }
{
    match part {
        None => Ok(Callee::Uncallable(code)),
        Some(part) => value_callee(alloc, meaning, code, &part.ty),
    }
}

/// The call of a global variable.
fn global_callee(
    alloc: Global,
    meaning: Meaning,
    global: Option<&GlobalVar>,
) -> Result<Callee, AllocError>
    ensures { (world : World) → IfOk result (λ callee. as_callee world callee
        ≡ global_callee meaning (option_copied global.entry)) }
{
    match global {
        None => Ok(Callee::Uncallable(NO_VALUE)),
        Some(global) => value_callee(alloc, meaning, NO_VALUE, &global.ty),
    }
}

/// The call of the function with this number.
fn func_callee(world: &Decls, meaning: Meaning, code: u16, number: usize) -> Callee
    ensures { as_callee (world_of world.now) result
        ≡ signature_callee meaning code (slice_get (world_of world.now).funcs number) }
{
    match world.funcs.get(number) {
        None => Callee::Uncallable(code),
        Some(_) => Callee::Func { meaning, number },
    }
}

/// The call of the method of the type around with this key, with `self` left out.
fn own_callee(world: &Decls, key: u32) -> Callee
    ensures { as_callee (world_of world.now) result
        ≡ method_callee (world_of world.now) means.OwnFunc 401 key }
{
    match world.numbers.get(key) {
        None => Callee::Uncallable(NO_VALUE),
        Some(number) => func_callee(world, Meaning::OwnFunc(number), NO_VALUE, number),
    }
}

/// The call of the function or the method with this key; `code` is said where there is none.
fn key_callee(world: &Decls, code: u16, key: u32) -> Callee
    ensures { as_callee (world_of world.now) result
        ≡ method_callee (world_of world.now) means.FuncOf code key }
{
    match world.numbers.get(key) {
        None => Callee::Uncallable(code),
        Some(number) => func_callee(world, Meaning::FuncOf(number), code, number),
    }
}

/// The number of the initialiser of a class or an actor.
pub fn init_number(world: &Decls, shape: u32) -> Option<usize>
    ensures { result ≡ and_then (slice_get (world_of world.now).makers shape)
        (world_of world.now).numbers }
{
    world.numbers.get(*world.makers.get(shape as usize)?)
}

/// The making of a class or an actor by its initialiser.
fn init_callee(world: &Decls, shape: u32) -> Callee
    ensures { as_callee (world_of world.now) result ≡ init_callee (world_of world.now) shape }
{
    match init_number(world, shape) {
        None => Callee::Uncallable(NO_VALUE),
        Some(number) => func_callee(world, Meaning::MakeOf(shape), NO_VALUE, number),
    }
}

/// The making of a value of a declared type by its name.
fn make_callee(world: &Decls, kind: ShapeKind, number: u32) -> Callee
    ensures { as_callee (world_of world.now) result
        ≡ make_callee (world_of world.now) kind number }
{
    match kind {
        ShapeKind::Struct => Callee::Struct(number),
        ShapeKind::Enum => Callee::Uncallable(NO_VALUE),
        ShapeKind::Class | ShapeKind::Actor => init_callee(world, number),
    }
}

/// The call of a word with this meaning at top level.
fn top_callee(alloc: Global, world: &Decls, meaning: WordMeaning) -> Result<Callee, AllocError>
    ensures { IfOk result (λ callee. as_callee (world_of world.now) callee
        ≡ top_callee (world_of world.now) meaning) }
{
    match meaning {
        WordMeaning::Shape { kind, number } => Ok(make_callee(world, kind, number)),
        WordMeaning::Func(key) => Ok(key_callee(world, NO_VALUE, key)),
        WordMeaning::Global(number) => {
            let global = world.globals.get(number as usize);
            global_callee(alloc, Meaning::GlobalOf(number), global)
        }
        WordMeaning::GlobalActor(_) | WordMeaning::Entry => Ok(Callee::Uncallable(NO_VALUE)),
    }
}

/// What a call by a word calls.
pub fn outer_callee(alloc: Global, world: &Decls, meant: Outer) -> Result<Callee, AllocError>
    ensures { IfOk result (λ callee. as_callee (world_of world.now) callee
        ≡ word_callee (world_of world.now) (as_sense meant)) }
{
    match meant {
        Outer::OwnProperty(shape, number) => {
            let part = part_at(world, shape, number);
            part_callee(alloc, Meaning::OwnPart(number), NO_VALUE, part)
        }
        Outer::OwnMethod(key) => Ok(own_callee(world, key)),
        Outer::Top(meaning) => top_callee(alloc, world, meaning),
        Outer::Printing => Ok(Callee::Prints),
        Outer::OwnCase | Outer::Nothing => Ok(Callee::Uncallable(NO_VALUE)),
    }
}

/// What a call of a member calls.
pub fn found_callee(alloc: Global, world: &Decls, found: &Found) -> Result<Callee, AllocError>
    ensures { IfOk result (λ callee. as_callee (world_of world.now) callee
        ≡ found_callee (world_of world.now) found.now) }
{
    match found {
        Found::Property(shape, number) => {
            let part = part_at(world, *shape, *number);
            part_callee(alloc, Meaning::PartOf(*number), NO_MEMBER, part)
        }
        Found::Method(key) => Ok(key_callee(world, NO_MEMBER, *key)),
        Found::Result(_) | Found::NoMember => Ok(Callee::Uncallable(NO_MEMBER)),
    }
}

/// The number of the case that a member is.
fn case_number(member: Option<Member>) -> Option<usize>
    ensures { result ≡ case_number member }
{
    match member?.role {
        Role::Case(number) => Some(number),
        Role::Part(_) | Role::Method => None,
    }
}

/// The case of an enum that a name means, by number.
pub fn case_in(world: &Decls, shape: u32, id: u32) -> Option<usize>
    ensures { result ≡ case_in (world_of world.now) shape id }
{
    case_number(world.members.get(shape, id))
}

/// What the word of a case means.
pub fn case_meaning(shape: u32, number: Option<usize>) -> Option<Meaning>
    ensures { result ≡ case_meaning shape number }
{
    Some(Meaning::CaseOf(shape, number?))
}

/// What a call of a case of an enum calls, where the name means one.
pub fn enum_callee(world: &Decls, shape: u32, number: Option<usize>) -> Callee
    ensures { as_callee (world_of world.now) result
        ≡ enum_callee (world_of world.now) shape number }
{
    match number {
        None => Callee::Uncallable(NO_MEMBER),
        Some(number) => Callee::Case { shape, number },
    }
}

/// What is said of a case of an enum without arguments.
fn case_types(shape: u32, case: Option<&CaseShape>) -> Verdict
    ensures { result ≡ case_types shape (option_copied case.entry) }
{
    match case {
        None => Verdict::Fails(NO_MEMBER),
        Some(case) => {
            if case.payload.is_empty() {
                Verdict::Has(Ty::Named(shape))
            } else {
                Verdict::Fails(NO_MEMBER)
            }
        }
    }
}

/// What is said of a case of an enum without arguments, where the name means one.
pub fn enum_types(world: &Decls, shape: u32, number: Option<usize>) -> Verdict
    ensures { result ≡ enum_types (world_of world.now) shape number }
{
    match number {
        None => Verdict::Fails(NO_MEMBER),
        Some(number) => case_types(shape, case_at(world, shape, number)),
    }
}
