//! What a program declares, or the first breach of the rules on declarations.
ghost use Rattle.std.specs.Prelude.{◌≡◌, ◌++◌, ◌<◌, ◌^◌, ◌∷◌, [], None, length, flat_map, IfOk};
ghost use Rattle.std.specs.Prelude.{IfErr, OnOk};
ghost use Rattle.sw_tree.specs.Names.{main_actor_id};
ghost use Rattle.sw_types.specs.Held.{AreWithin};
ghost use Rattle.sw_decl_words.specs.Evident.{meanings_of, tabled};
ghost use Rattle.sw_decls.specs.Declaring.{IsDeclared, IsFirstBreach, IsDeclarationFault};
ghost use Rattle.sw_decls.specs.Declaring.{actor_ids};
ghost use Rattle.sw_decls.specs.Declaring.{breaches_of_decls, breaches_of_shapes, entry_key};
ghost use Rattle.sw_decls.specs.Declaring.{init_key, made_shapes, maker_keys};
ghost use Rattle.sw_decls.specs.declared.declaring.DeclFault.{DeclFault};
ghost use Rattle.sw_decls.specs.Holders.{AreHolders};
ghost use Rattle.sw_decls.specs.Hollow.{hollowed};

use crate::holders::add_holders;
use crate::hollow::hollowed;
use crate::ordered::{Numbers, in_key_order};
use crate::signature::{AsyncDefault, GlobalList, SignatureList, globals_of, signatures_of};
use crate::wide::add_wide;
use std::alloc::{AllocError, Global};
use sw_decl_members::in_program;
use sw_decl_values::add_values;
use sw_decl_words::{MAIN_ACTOR, Members, Placed, Words, first_of, shapes_of};
use sw_list::ListOf;
use sw_tree::{Decl, InitTree, Name, Program};
use sw_types::{ShapeFault, ShapeList, Shapes, which_hold_themselves};
use thiserror::Error;

/// Why nothing was declared.
#[derive(Clone, Copy, Debug, PartialEq, Eq, Error)]
pub enum DeclFault {
    /// The first breach of the rules on declarations, by position and then by code.
    #[error("E{code} at {at}")]
    Breach { code: u16, at: u32 },
    #[error("out of memory")]
    Memory,
}

impl From<AllocError> for DeclFault {
    ghost use Rattle.std.specs.Prelude.{◌≡◌};
    ghost use Rattle.sw_decls.specs.declared.declaring.DeclFault.{DeclFault};

    ghost from_gives = { λ _ fault. fault ≡ DeclFault.Memory };

    fn from(_error: AllocError) -> DeclFault {
        DeclFault::Memory
    }
}

/// What a program declares.
#[derive(Drop)]
pub struct Decls {
    pub shapes: Shapes,
    /// The ids of the global actors: 0 is `MainActor`, and the declared ones follow in order.
    pub actors: ListOf<u32>,
    /// Functions, methods, initialisers and the entry, in the order of their keys.
    pub funcs: SignatureList,
    pub globals: GlobalList,
    /// The numbers of the functions by their keys.
    pub numbers: Numbers,
    /// The number of the entry among the functions.
    pub entry: usize,
    /// Of each shape where the key of its initialiser stands; of a struct and an enum, which have
    /// none, where their word stands.
    pub makers: ListOf<u32>,
    /// What words mean at top level.
    pub words: Words,
    /// The members of types by name.
    pub members: Members,
}

/// What words mean: at top level, and as members of types.
#[derive(Drop)]
struct Known {
    words: Words,
    members: Members,
}

/// What the words of a program mean.
fn known_of(alloc: Global, decls: &[Decl]) -> Result<Known, AllocError>
    requires { length decls.now < 2 ^ 31 }
    ensures { IfOk result (λ known. tabled known.words known.members ≡ meanings_of decls.now) }
{
    Ok(Known {
        words: Words::of(alloc, decls)?,
        members: Members::of(alloc, decls)?,
    })
}

/// The shapes of a program.
fn made_shapes(alloc: Global, known: &Known, decls: &[Decl]) -> Result<ShapeList, AllocError>
    requires small { length decls.now < 2 ^ 31 }
    requires known { tabled known.now.words known.now.members ≡ meanings_of decls.now }
    ensures shapes { IfOk result (λ shapes. shapes ≡ made_shapes decls.now) }
    ensures within { IfOk result (λ shapes. AreWithin shapes) }
    ensures few { IfOk result (λ shapes. length shapes < 2 ^ 32) }
{
    let shapes = shapes_of(alloc, &known.words, &known.members, decls)?;
    Ok(shapes)
}

/// Checks shapes of which those that hold themselves hold nothing.
fn hollow_shapes(alloc: Global, marks: &[bool], list: ShapeList) -> Result<Shapes, DeclFault>
    requires within { AreWithin list }
    requires small { length list < 2 ^ 32 }
    requires marked { AreHolders list marks.now }
    ensures shapes { IfOk result (λ shapes. shapes ≡ hollowed marks.now list) }
    ensures memory { IfErr result (λ fault. fault ≡ DeclFault.Memory) }
{
    match Shapes::new(alloc, hollowed(alloc, marks, list)?) {
        Ok(shapes) => Ok(shapes),
        Err(ShapeFault::Cycle { .. }) => unreachable!(),
        Err(ShapeFault::Memory) => Err(DeclFault::Memory),
    }
}

/// Adds the words of shapes that hold themselves and of those with too many parts, and checks the
/// shapes of which the former hold nothing.
fn add_of_shapes(
    alloc: Global,
    marks: &[bool],
    list: ShapeList,
    found: &mut ListOf<Placed>,
) -> Result<Shapes, DeclFault>
    requires within { AreWithin list }
    requires small { length list < 2 ^ 32 }
    requires marked { AreHolders list marks.now }
    ensures shapes { IfOk result (λ shapes. shapes ≡ hollowed marks.now list) }
    ensures found { OnOk result (found.new
        ≡ found.old ++ breaches_of_shapes list marks.now) }
    ensures memory { IfErr result (λ fault. fault ≡ DeclFault.Memory) }
{
    add_holders(list.as_slice(), marks, found)?;
    let shapes = hollow_shapes(alloc, marks, list)?;
    add_wide(&shapes, found)?;
    Ok(shapes)
}

/// The breaches of names, written types, entries and values.
fn of_decls(alloc: Global, known: &Known, decls: &[Decl]) -> Result<ListOf<Placed>, AllocError>
    requires small { length decls.now < 2 ^ 31 }
    requires known { tabled known.now.words known.now.members ≡ meanings_of decls.now }
    ensures { IfOk result (λ found. found ≡ breaches_of_decls decls.now) }
{
    let mut found = ListOf::new(alloc);
    in_program(alloc, &known.words, decls, &mut found)?;
    add_values(alloc, &known.words, &known.members, decls, &mut found)?;
    Ok(found)
}

/// The shapes of a program, or its first breach.
fn checked(alloc: Global, known: &Known, decls: &[Decl]) -> Result<Shapes, DeclFault>
    requires small { length decls.now < 2 ^ 31 }
    requires known { tabled known.now.words known.now.members ≡ meanings_of decls.now }
    ensures shapes { IfOk result (λ shapes. shapes ≡ made_shapes decls.now) }
    ensures none { OnOk result (IsFirstBreach decls.now None) }
    ensures refused { IfErr result (IsDeclarationFault decls.now) }
{
    let list = made_shapes(alloc, known, decls)?;
    let marks = which_hold_themselves(alloc, list.as_slice())?;
    let mut found = of_decls(alloc, known, decls)?;
    let shapes = add_of_shapes(alloc, marks.as_slice(), list, &mut found)?;
    match first_of(found.as_slice()) {
        None => Ok(shapes),
        Some(first) => Err(DeclFault::Breach {
            code: first.code,
            at: first.at,
        }),
    }
}

/// The ids of the global actors.
fn actors_of(alloc: Global, decls: &[Decl]) -> Result<ListOf<u32>, AllocError>
    ensures { IfOk result (λ actors. actors ≡ main_actor_id ∷ flat_map actor_ids decls.now) }
{
    let mut actors = ListOf::one(alloc, MAIN_ACTOR)?;
    for decl in decls {
        if let Decl::GlobalActor { word, .. } = decl {
            actors.push(word.id)?;
        }
    }
    Ok(actors)
}

/// Where the key of a type's initialiser stands; its word where none is written.
fn init_key(word: Name, inits: &[InitTree]) -> u32
    ensures { result ≡ init_key word.at inits.now }
{
    match inits.first() {
        None => word.at,
        Some(init) => init.at,
    }
}

/// Adds the key of the initialiser of the shape that a declaration makes.
fn add_maker(keys: &mut ListOf<u32>, decl: &Decl) -> Result<(), AllocError>
    ensures { OnOk result (keys.new ≡ keys.old ++ maker_keys decl.now) }
{
    match decl {
        Decl::Struct { word, .. } | Decl::Enum { word, .. } => keys.push(word.at),
        Decl::Class { word, inits, .. } | Decl::Actor { word, inits, .. } => {
            keys.push(init_key(*word, inits.as_slice()))
        }
        Decl::Entry { .. } | Decl::GlobalActor { .. } | Decl::Func(_) | Decl::Global(_) => Ok(()),
    }
}

/// The keys of the initialisers of shapes, by number.
fn makers_of(alloc: Global, decls: &[Decl]) -> Result<ListOf<u32>, AllocError>
    ensures { IfOk result (λ keys. keys ≡ flat_map maker_keys decls.now) }
{
    let mut keys = ListOf::new(alloc);
    for decl in decls {
        add_maker(&mut keys, decl)?;
    }
    Ok(keys)
}

/// Where the word `main` of the first entry stands.
fn entry_key(decls: &[Decl]) -> u32
    ensures { result ≡ entry_key decls.now }
{
    for decl in decls {
        if let Decl::Entry { at, .. } = decl {
            return *at;
        }
    }
    0
}

/// What a program declares that has these shapes.
fn made(
    alloc: Global,
    known: Known,
    shapes: Shapes,
    default: AsyncDefault,
    decls: &[Decl],
) -> Result<Decls, AllocError>
    requires small { length decls.now < 2 ^ 31 }
    requires known { tabled known.words known.members ≡ meanings_of decls.now }
    requires shapes { shapes ≡ made_shapes decls.now }
    ensures { IfOk result (IsDeclared decls.now default) }
{
    let funcs = in_key_order(signatures_of(alloc, &known.words, default, decls)?)?;
    let globals = globals_of(alloc, &known.words, &known.members, decls)?;
    let actors = actors_of(alloc, decls)?;
    let makers = makers_of(alloc, decls)?;
    let numbers = Numbers::of(alloc, funcs.as_slice())?;
    let entry = numbers.get(entry_key(decls)).unwrap_or(0);
    let Known { words, members } = known;
    Ok(Decls {
        shapes,
        actors,
        funcs,
        globals,
        numbers,
        entry,
        makers,
        words,
        members,
    })
}

/// What a program declares, where asynchronous functions run by `default` that say nothing more; or
/// the first breach of the rules on declarations. Its time is about linear in the program where no
/// type holds itself.
pub fn declare(alloc: Global, program: &Program, default: AsyncDefault) -> Result<Decls, DeclFault>
    requires { length program.now.decls < 2 ^ 31 }
    ensures declared { IfOk result (IsDeclared program.now.decls default) }
    ensures none { OnOk result (IsFirstBreach program.now.decls None) }
    ensures refused { IfErr result (IsDeclarationFault program.now.decls) }
{
    let decls = program.decls();
    let known = known_of(alloc, decls)?;
    let shapes = checked(alloc, &known, decls)?;
    Ok(made(alloc, known, shapes, default, decls)?)
}
