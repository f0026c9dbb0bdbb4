//! The work of names, by what they mean, where no part of a tree comes before it.
#![tactic(auto, using(crate::proofs::Growing::grown))]

ghost use Rattle.std.specs.Prelude.{◌<◌, ℕ, length};
ghost use Rattle.sw_isolation_rules.specs.Uses.{named_shape};
ghost use Rattle.sw_tree_arena.specs.Sites.{LaysBefore, facts_at};
ghost use Rattle.sw_tree_work.specs.Forms.{for_known, value_at};
ghost use Rattle.sw_tree_work.specs.Meanings.{call_func, call_signature, make, read_global};
ghost use Rattle.sw_tree_work.specs.Meanings.{make_of_kind, read_own, read_part, read_self};
ghost use Rattle.sw_tree_work.specs.Meanings.{stored_part, word_read, word_write, write_own};
ghost use Rattle.sw_tree_work.specs.Meanings.{write_part};
ghost use Rattle.sw_tree_work.specs.Work as work;
ghost use Rattle.sw_tree_work.specs.Work.{Work};
ghost use Rattle.sw_types.specs.declared.shape.ShapeKind.TheVariants as kinds;

use crate::arena::Arena;
use crate::laying::{then, unknown};
use crate::node::{Act, BodyName};
use crate::site::Site;
use std::alloc::AllocError;
use sw_decls::Signature;
use sw_types::ShapeKind;
use sw_typing_rules::Meaning;

/// `self`.
pub fn read_self(site: &Site<'_>, rest: usize, arena: &mut Arena) -> Result<usize, AllocError>
    requires { rest < length arena.old }
    ensures { LaysBefore site.now arena.old arena.new result rest
        (read_self (facts_at site.now) site.now.owner) }
{
    match site.self_key() {
        None => unknown(site, arena),
        Some(variable) => then(site, Act::Read { variable }, rest, arena),
    }
}

/// The property with this number of an object or an actor of the type `shape`.
fn stored_part(
    site: &Site<'_>,
    at: u32,
    shape: u32,
    number: usize,
    rest: usize,
    arena: &mut Arena,
) -> Result<usize, AllocError>
    requires { rest < length arena.old }
    ensures { LaysBefore site.now arena.old arena.new result rest (stored_part (facts_at site.now)
        ((facts_at site.now).kind_at at) at shape number) }
{
    match site.kind_at(at) {
        None => then(site, Act::LoadPart { part: number }, rest, arena),
        Some(kind) => {
            let part = number;
            let name = BodyName::PartGetter { shape, part };
            let count = 1;
            let call = Act::Call {
                at,
                kind,
                name,
                count,
            };
            then(site, call, rest, arena)
        }
    }
}

/// The property with this number of a value of the type `shape`.
pub fn read_part(
    site: &Site<'_>,
    at: u32,
    shape: u32,
    number: usize,
    rest: usize,
    arena: &mut Arena,
) -> Result<usize, AllocError>
    requires { rest < length arena.old }
    ensures { LaysBefore site.now arena.old arena.new result rest
        (read_part (facts_at site.now) at shape number) }
{
    match site.shape(shape) {
        None => unknown(site, arena),
        Some(one) => match one.kind {
            ShapeKind::Struct => then(site, Act::Field { part: number }, rest, arena),
            ShapeKind::Enum => unknown(site, arena),
            ShapeKind::Class | ShapeKind::Actor => {
                stored_part(site, at, shape, number, rest, arena)
            }
        },
    }
}

/// The property with this number of a value of the type that the expression with a key has.
pub fn read_typed_part(
    site: &Site<'_>,
    key: u32,
    at: u32,
    number: usize,
    rest: usize,
    arena: &mut Arena,
) -> Result<usize, AllocError>
    requires { rest < length arena.old }
    ensures { LaysBefore site.now arena.old arena.new result rest
        (for_known (named_shape ((facts_at site.now).answers.type_at key))
        (λ (shape : ℕ). read_part (facts_at site.now) at shape number)) }
{
    match site.shape_of(key) {
        None => unknown(site, arena),
        Some(shape) => read_part(site, at, shape, number, rest, arena),
    }
}

/// The property with this number of a value of the type around.
fn read_part_around(
    site: &Site<'_>,
    at: u32,
    number: usize,
    rest: usize,
    arena: &mut Arena,
) -> Result<usize, AllocError>
    requires { rest < length arena.old }
    ensures { LaysBefore site.now arena.old arena.new result rest (for_known site.now.owner
        (λ (shape : ℕ). read_part (facts_at site.now) at shape number)) }
{
    match site.owner {
        None => unknown(site, arena),
        Some(shape) => read_part(site, at, shape, number, rest, arena),
    }
}

/// The property with this number of `self`, which is left out.
pub fn read_own(
    site: &Site<'_>,
    at: u32,
    number: usize,
    rest: usize,
    arena: &mut Arena,
) -> Result<usize, AllocError>
    requires { rest < length arena.old }
    ensures { LaysBefore site.now arena.old arena.new result rest
        (read_own (facts_at site.now) site.now.owner at number) }
{
    let part = read_part_around(site, at, number, rest, arena)?;
    read_self(site, part, arena)
}

/// The newest is a struct. A copy of it gets another part, which lies below it.
pub fn change_part(
    site: &Site<'_>,
    part: usize,
    rest: usize,
    arena: &mut Arena,
) -> Result<usize, AllocError>
    requires { rest < length arena.old }
    ensures { LaysBefore site.now arena.old arena.new result rest
        (λ (rest : Work). work.Then work.Keep (work.Then (work.SetField part) rest)) }
{
    let changed = then(site, Act::SetField { part }, rest, arena)?;
    then(site, Act::Keep, changed, arena)
}

/// The newest becomes the property with this number of `self`, of the type `shape`.
fn write_part_of_self(
    site: &Site<'_>,
    at: u32,
    shape: u32,
    number: usize,
    rest: usize,
    arena: &mut Arena,
) -> Result<usize, AllocError>
    requires { rest < length arena.old }
    ensures { LaysBefore site.now arena.old arena.new result rest
        (write_part (facts_at site.now) shape number
        (value_at at (read_self (facts_at site.now) site.now.owner))) }
{
    match site.shape(shape) {
        None => unknown(site, arena),
        Some(one) => match one.kind {
            ShapeKind::Struct => {
                let assigned = unknown(site, arena)?;
                let changed = change_part(site, number, assigned, arena)?;
                read_self(site, changed, arena)
            }
            ShapeKind::Enum => unknown(site, arena),
            ShapeKind::Class | ShapeKind::Actor => {
                let stored = then(site, Act::StorePart { part: number }, rest, arena)?;
                read_self(site, stored, arena)
            }
        },
    }
}

/// The newest becomes the property with this number of `self`, which is left out.
fn write_own(
    site: &Site<'_>,
    at: u32,
    number: usize,
    rest: usize,
    arena: &mut Arena,
) -> Result<usize, AllocError>
    requires { rest < length arena.old }
    ensures { LaysBefore site.now arena.old arena.new result rest
        (write_own (facts_at site.now) site.now.owner at number) }
{
    match site.owner {
        None => unknown(site, arena),
        Some(shape) => write_part_of_self(site, at, shape, number, rest, arena),
    }
}

/// A global variable.
pub fn read_global(
    site: &Site<'_>,
    at: u32,
    global: u32,
    rest: usize,
    arena: &mut Arena,
) -> Result<usize, AllocError>
    requires { rest < length arena.old }
    ensures { LaysBefore site.now arena.old arena.new result rest
        (read_global (facts_at site.now) at global) }
{
    match site.kind_at(at) {
        None => then(site, Act::LoadGlobal { global }, rest, arena),
        Some(kind) => {
            let name = BodyName::GlobalGetter { global };
            let count = 0;
            let call = Act::Call {
                at,
                kind,
                name,
                count,
            };
            then(site, call, rest, arena)
        }
    }
}

/// The value of a word.
pub fn word_read(
    site: &Site<'_>,
    at: u32,
    rest: usize,
    arena: &mut Arena,
) -> Result<usize, AllocError>
    requires { rest < length arena.old }
    ensures { LaysBefore site.now arena.old arena.new result rest
        (word_read (facts_at site.now) site.now.owner at
        ((facts_at site.now).answers.meaning_at at)) }
{
    match site.meaning_at(at) {
        Some(Meaning::Local(variable)) => then(site, Act::Read { variable }, rest, arena),
        Some(Meaning::OwnPart(number)) => read_own(site, at, number, rest, arena),
        Some(Meaning::GlobalOf(global)) => read_global(site, at, global, rest, arena),
        Some(
            Meaning::OwnFunc(_)
            | Meaning::FuncOf(_)
            | Meaning::MakeOf(_)
            | Meaning::CaseOf(..)
            | Meaning::PartOf(_)
            | Meaning::Print
            | Meaning::TaskValue,
        )
        | None => unknown(site, arena),
    }
}

/// The newest is assigned to a word.
pub fn word_write(
    site: &Site<'_>,
    at: u32,
    rest: usize,
    arena: &mut Arena,
) -> Result<usize, AllocError>
    requires { rest < length arena.old }
    ensures { LaysBefore site.now arena.old arena.new result rest
        (word_write (facts_at site.now) site.now.owner at
        ((facts_at site.now).answers.meaning_at at)) }
{
    match site.meaning_at(at) {
        Some(Meaning::Local(variable)) => then(site, Act::Store { variable }, rest, arena),
        Some(Meaning::OwnPart(number)) => write_own(site, at, number, rest, arena),
        Some(Meaning::GlobalOf(global)) => then(site, Act::StoreGlobal { global }, rest, arena),
        Some(
            Meaning::OwnFunc(_)
            | Meaning::FuncOf(_)
            | Meaning::MakeOf(_)
            | Meaning::CaseOf(..)
            | Meaning::PartOf(_)
            | Meaning::Print
            | Meaning::TaskValue,
        )
        | None => unknown(site, arena),
    }
}

/// The call of a function by its signature, with so many arguments.
fn call_signature(
    site: &Site<'_>,
    at: u32,
    count: usize,
    func: &Signature,
    rest: usize,
    arena: &mut Arena,
) -> Result<usize, AllocError>
    requires { rest < length arena.old }
    ensures { LaysBefore site.now arena.old arena.new result rest
        (call_signature (facts_at site.now) at count func.now) }
{
    match site.kind_at(at) {
        None => unknown(site, arena),
        Some(kind) => {
            let key = func.key.at;
            let name = BodyName::Function { key };
            let call = Act::Call {
                at,
                kind,
                name,
                count,
            };
            then(site, call, rest, arena)
        }
    }
}

/// The call of the function with this number, with so many arguments.
pub fn call_func(
    site: &Site<'_>,
    at: u32,
    number: usize,
    count: usize,
    rest: usize,
    arena: &mut Arena,
) -> Result<usize, AllocError>
    requires { rest < length arena.old }
    ensures { LaysBefore site.now arena.old arena.new result rest
        (call_func (facts_at site.now) at number count) }
{
    match site.func(number) {
        None => unknown(site, arena),
        Some(func) => call_signature(site, at, count, func, rest, arena),
    }
}

/// The call of the initialiser of the class or actor `shape`, with so many arguments.
fn make_object(
    site: &Site<'_>,
    at: u32,
    shape: u32,
    count: usize,
    rest: usize,
    arena: &mut Arena,
) -> Result<usize, AllocError>
    requires { rest < length arena.old }
    ensures { LaysBefore site.now arena.old arena.new result rest
        (make_of_kind (facts_at site.now) kinds.Class at shape count) }
{
    match site.maker(shape) {
        None => unknown(site, arena),
        Some(func) => call_signature(site, at, count, func, rest, arena),
    }
}

/// A struct, an object or an actor of the type `shape`, of so many arguments.
pub fn make(
    site: &Site<'_>,
    at: u32,
    shape: u32,
    count: usize,
    rest: usize,
    arena: &mut Arena,
) -> Result<usize, AllocError>
    requires { rest < length arena.old }
    ensures { LaysBefore site.now arena.old arena.new result rest
        (make (facts_at site.now) at shape count) }
{
    match site.shape(shape) {
        None => unknown(site, arena),
        Some(one) => match one.kind {
            ShapeKind::Struct => {
                let tag = None;
                then(site, Act::Make { tag, count }, rest, arena)
            }
            ShapeKind::Enum => unknown(site, arena),
            ShapeKind::Class | ShapeKind::Actor => {
                make_object(site, at, shape, count, rest, arena)
            }
        },
    }
}
