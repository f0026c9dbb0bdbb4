//! What words mean in the values of a type, and types that are evident from a first value.
ghost use Rattle.std.specs.Prelude.{◌≡◌};
ghost use Rattle.sw_decl_words.specs.Evident.{base_enum, case_type, enum_of, evident, evident_type};
ghost use Rattle.sw_decl_words.specs.Evident.{is_case, made_type, hides, seen, tabled};
ghost use Rattle.sw_decl_words.specs.declared.words.Words.{Words};

use crate::members::{Member, Members, Role};
use crate::words::{Meaning, Words};
use sw_tree::{Expr, Name};
use sw_types::{ShapeKind, Ty};

/// The type that a call by a word with this meaning makes.
pub fn made_type(meaning: Option<Meaning>) -> Option<Ty>
    ensures { result ≡ made_type meaning }
{
    match meaning {
        Some(Meaning::Shape { kind, number }) => match kind {
            ShapeKind::Struct | ShapeKind::Class | ShapeKind::Actor => Some(Ty::Named(number)),
            ShapeKind::Enum => None,
        },
        Some(Meaning::GlobalActor(_) | Meaning::Func(_) | Meaning::Global(_) | Meaning::Entry)
        | None => None,
    }
}

/// The enum that a word with this meaning names, by number.
pub fn enum_of(meaning: Option<Meaning>) -> Option<u32>
    ensures { result ≡ enum_of meaning }
{
    match meaning {
        Some(Meaning::Shape { kind, number }) => match kind {
            ShapeKind::Enum => Some(number),
            ShapeKind::Struct | ShapeKind::Class | ShapeKind::Actor => None,
        },
        Some(Meaning::GlobalActor(_) | Meaning::Func(_) | Meaning::Global(_) | Meaning::Entry)
        | None => None,
    }
}

/// Whether it is a case of an enum.
fn is_case(member: Option<Member>) -> bool
    ensures { result ≡ is_case member }
{
    match member {
        None => false,
        Some(member) => match member.role {
            Role::Case(_) => true,
            Role::Part(_) | Role::Method => false,
        },
    }
}

/// Whether the type, if there is one, has a member of this name.
fn hides(members: &Members, owner: Option<u32>, word: u32) -> bool
    ensures { (words : Words) → result ≡ hides (tabled words members.now) owner word }
{
    match owner {
        None => false,
        Some(shape) => members.get(shape, word).is_some(),
    }
}

/// What a word means in a value inside a type, if there is one: a member hides what stands at top
/// level.
pub fn seen(words: &Words, members: &Members, owner: Option<u32>, word: u32) -> Option<Meaning>
    ensures { result ≡ seen (tabled words.now members.now) owner word }
{
    if hides(members, owner, word) {
        None
    } else {
        words.get(word)
    }
}

/// The type that the case of an enum with this number makes, where the enum has it.
pub fn case_type(members: &Members, number: Option<u32>, word: Name) -> Option<Ty>
    ensures { (words : Words) → result ≡ case_type (tabled words members.now) number word.id }
{
    let number = number?;
    if is_case(members.get(number, word.id)) {
        Some(Ty::Named(number))
    } else {
        None
    }
}

/// The enum that an expression before a `.` names.
fn base_enum(words: &Words, members: &Members, owner: Option<u32>, base: &Expr) -> Option<u32>
    ensures { result ≡ base_enum (tabled words.now members.now) owner base.now }
{
    match base {
        Expr::Use { name } => enum_of(seen(words, members, owner, name.id)),
        Expr::Int { .. }
        | Expr::Bool { .. }
        | Expr::Me { .. }
        | Expr::Member { .. }
        | Expr::Call { .. }
        | Expr::Method { .. }
        | Expr::Chain { .. }
        | Expr::Prefix { .. }
        | Expr::Await { .. }
        | Expr::Fun(_)
        | Expr::Spawn { .. }
        | Expr::Yield { .. } => None,
    }
}

/// The type of a literal, of a call of a struct, class or actor by its name, or of an enum's case.
pub fn evident(words: &Words, members: &Members, owner: Option<u32>, value: &Expr) -> Option<Ty>
    ensures { result ≡ evident (tabled words.now members.now) owner value.now }
{
    match value {
        Expr::Int { .. } => Some(Ty::Int),
        Expr::Bool { .. } => Some(Ty::Bool),
        Expr::Call { name, .. } => made_type(seen(words, members, owner, name.id)),
        Expr::Member { base, name } | Expr::Method { base, name, .. } => {
            case_type(members, base_enum(words, members, owner, base.get()), *name)
        }
        Expr::Use { .. }
        | Expr::Me { .. }
        | Expr::Chain { .. }
        | Expr::Prefix { .. }
        | Expr::Await { .. }
        | Expr::Fun(_)
        | Expr::Spawn { .. }
        | Expr::Yield { .. } => None,
    }
}

/// The type that is evident from a first value, if there is one.
pub(crate) fn evident_type(
    words: &Words,
    members: &Members,
    owner: Option<u32>,
    value: &Option<Expr>,
) -> Option<Ty>
    ensures { result ≡ evident_type (tabled words.now members.now) owner value.now }
{
    match value {
        None => None,
        Some(value) => evident(words, members, owner, value),
    }
}
