//! What is called.
ghost use Rattle.std.specs.Prelude.{◌≡◌};
ghost use Rattle.std.specs.Option.{option_copied};
ghost use Rattle.sw_typing_rules.specs.Calls.{callee_meaning};
ghost use Rattle.sw_typing_rules.specs.Worlds.{case_at, world_of};
ghost use Rattle.sw_typing_words.specs.Callees.{as_callee, has_payload};

use sw_decls::Decls;
use sw_types::{CaseShape, Ty, TyList};
use sw_typing_rules::Meaning;

/// What is called. What declarations say of it stands there, and here its number.
#[derive(Drop)]
pub enum Callee {
    /// A function, a method or an initialiser, by its number among the functions.
    Func {
        meaning: Meaning,
        number: usize,
    },
    /// The making of a struct, by the number of its shape.
    Struct(u32),
    /// A case of an enum: the number of its shape, and that of the case.
    Case {
        shape: u32,
        number: usize,
    },
    /// A value of a function type.
    Value {
        meaning: Meaning,
        params: TyList,
        result: Ty,
    },
    /// What is called has no type.
    Untyped(Option<Meaning>),
    /// `print`.
    Prints,
    /// It is unknown or can't be called: the number of the code.
    Uncallable(u16),
}

/// The case of a shape, by number.
pub fn case_at(world: &Decls, shape: u32, number: usize) -> Option<&CaseShape>
    ensures { option_copied result ≡ case_at (world_of world.now) shape number }
{
    match world.shapes.list().get(shape as usize) {
        None => None,
        Some(shape) => shape.cases.get(number),
    }
}

/// Whether an enum has a case with this number, with a payload.
pub fn has_payload(world: &Decls, shape: u32, number: usize) -> bool
    ensures { result ≡ has_payload (case_at (world_of world.now) shape number) }
{
    match case_at(world, shape, number) {
        None => false,
        Some(case) => !case.payload.is_empty(),
    }
}

/// What a call means, by what is called.
pub fn callee_meaning(world: &Decls, callee: &Callee) -> Option<Meaning>
    ensures { result ≡ callee_meaning (as_callee (world_of world.now) callee.now) }
{
    match callee {
        Callee::Func { meaning, number } => {
            if *number < world.funcs.len() {
                Some(*meaning)
            } else {
                None
            }
        }
        Callee::Struct(number) => {
            if (*number as usize) < world.shapes.list().len() {
                Some(Meaning::MakeOf(*number))
            } else {
                None
            }
        }
        Callee::Case { shape, number } => {
            if has_payload(world, *shape, *number) {
                Some(Meaning::CaseOf(*shape, *number))
            } else {
                None
            }
        }
        Callee::Value { meaning, .. } => Some(*meaning),
        Callee::Untyped(meaning) => *meaning,
        Callee::Prints => Some(Meaning::Print),
        Callee::Uncallable(_) => None,
    }
}
