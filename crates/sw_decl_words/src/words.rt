//! What words mean at top level.
ghost use Rattle.std.specs.Prelude.{◌≡◌};
ghost use Rattle.sw_decl_words.specs.Words.{actors_made, globals_made, is_reserved, meaning_at};
ghost use Rattle.sw_decl_words.specs.Words.{shapes_made, word_of};

use indexmap::IndexMap;
use std::alloc::{AllocError, Global};
use sw_tree::{Decl, Name};
use sw_types::ShapeKind;

/// What a word means at top level.
#[derive(Clone, Copy)]
pub enum Meaning {
    /// A declared type, with the number of its shape.
    Shape { kind: ShapeKind, number: u32 },
    /// A global actor, by number: 0 is `MainActor`.
    GlobalActor(u32),
    /// A function, by where its word stands.
    Func(u32),
    /// A global variable, by number.
    Global(u32),
    /// An entry's struct.
    Entry,
}

/// What the words of a program mean at top level. A word that is declared twice means the first,
/// and a declaration of a word that can't be declared gives it no meaning.
#[derive(Drop)]
pub struct Words {
    /// The meanings by the ids of the words.
    pub meanings: IndexMap<u32, Meaning>,
}

/// How many of the names that each program has before it declares any can't be declared.
const RESERVED: u32 = 8;

/// The id of `MainActor`, which each program has before it declares any name.
pub const MAIN_ACTOR: u32 = 6;

/// Whether a word can't be declared.
pub fn is_reserved(id: u32) -> bool
    ensures { result ≡ is_reserved id }
{
    id < RESERVED
}

/// The word that a declaration declares.
pub fn word_of(decl: &Decl) -> Name
    ensures { result ≡ word_of decl.now }
{
    match decl {
        Decl::Entry { word, .. }
        | Decl::Struct { word, .. }
        | Decl::Enum { word, .. }
        | Decl::Class { word, .. }
        | Decl::Actor { word, .. }
        | Decl::GlobalActor { word, .. } => *word,
        Decl::Func(func) => func.word,
        Decl::Global(global) => global.word,
    }
}

/// What a declaration's word means, by the numbers of shapes, global actors and global variables
/// before it.
fn meaning_at(decl: &Decl, number: u32, actors: u32, globals: u32) -> Meaning
    ensures { result ≡ meaning_at decl.now number actors globals }
{
    match decl {
        Decl::Struct { .. } => Meaning::Shape {
            kind: ShapeKind::Struct,
            number,
        },
        Decl::Enum { .. } => Meaning::Shape {
            kind: ShapeKind::Enum,
            number,
        },
        Decl::Class { .. } => Meaning::Shape {
            kind: ShapeKind::Class,
            number,
        },
        Decl::Actor { .. } => Meaning::Shape {
            kind: ShapeKind::Actor,
            number,
        },
        Decl::GlobalActor { .. } => Meaning::GlobalActor(actors),
        Decl::Func(func) => Meaning::Func(func.word.at),
        Decl::Global(_) => Meaning::Global(globals),
        Decl::Entry { .. } => Meaning::Entry,
    }
}

/// How many shapes a declaration makes.
pub fn shapes_made(decl: &Decl) -> u32
    ensures { result ≡ shapes_made decl.now }
{
    match decl {
        Decl::Struct { .. } | Decl::Enum { .. } | Decl::Class { .. } | Decl::Actor { .. } => 1,
        Decl::GlobalActor { .. } | Decl::Entry { .. } | Decl::Func(_) | Decl::Global(_) => 0,
    }
}

/// How many global actors a declaration makes.
fn actors_made(decl: &Decl) -> u32
    ensures { result ≡ actors_made decl.now }
{
    match decl {
        Decl::GlobalActor { .. } => 1,
        Decl::Struct { .. }
        | Decl::Enum { .. }
        | Decl::Class { .. }
        | Decl::Actor { .. }
        | Decl::Entry { .. }
        | Decl::Func(_)
        | Decl::Global(_) => 0,
    }
}

/// How many global variables a declaration makes.
fn globals_made(decl: &Decl) -> u32
    ensures { result ≡ globals_made decl.now }
{
    match decl {
        Decl::Global(_) => 1,
        Decl::Struct { .. }
        | Decl::Enum { .. }
        | Decl::Class { .. }
        | Decl::Actor { .. }
        | Decl::GlobalActor { .. }
        | Decl::Entry { .. }
        | Decl::Func(_) => 0,
    }
}

impl Words {
    ghost use Rattle.std.specs.Prelude.{◌≡◌, ◌<◌, ◌^◌, ℕ, Option, Some, None, length};
    ghost use Rattle.std.specs.Prelude.{nat_eq, IfOk, OnOk};
    ghost use Rattle.std.specs.Prelude.{if◌then◌else◌};
    ghost use Rattle.indexmap.specs.IndexMap.{get};
    ghost use Rattle.sw_decl_words.specs.Words.{declares, or_else, top_meaning};

    /// What a word means at top level, where it is declared.
    pub fn get(&self, id: u32) -> Option<Meaning>
        ensures { result ≡ get nat_eq self.now.meanings id }
    {
        self.meanings.get(&id).copied()
    }

    /// Gives a word a meaning where it has none and can be declared.
    fn add(&mut self, id: u32, meaning: Meaning) -> Result<(), AllocError>
        ensures { OnOk result ((other : ℕ) → get nat_eq self.new.meanings other
            ≡ or_else (get nat_eq self.old.meanings other)
            (if declares id other then Some meaning else None)) }
    {
        if !is_reserved(id) && self.get(id).is_none() {
            self.meanings.insert(id, meaning)?;
        }
        Ok(())
    }

    /// What the words of these declarations mean.
    pub fn of(alloc: Global, decls: &[Decl]) -> Result<Words, AllocError>
        requires { length decls.now < 2 ^ 31 }
        ensures { IfOk result (λ words. (id : ℕ)
            → get nat_eq words.meanings id ≡ top_meaning decls.now id) }
    {
        let mut meanings = IndexMap::new(alloc);
        meanings.insert(MAIN_ACTOR, Meaning::GlobalActor(0))?;
        let mut words = Words { meanings };
        let mut shapes = 0;
        let mut actors = 1;
        let mut globals = 0;
        for decl in decls {
            words.add(word_of(decl).id, meaning_at(decl, shapes, actors, globals))?;
            shapes += shapes_made(decl);
            actors += actors_made(decl);
            globals += globals_made(decl);
        }
        Ok(words)
    }
}
