//! The functions and global variables of a program.
ghost use Rattle.std.specs.Prelude.{◌≡◌, ◌++◌, ◌+◌, ◌<◌, ◌^◌, [], length, map, flat_map, nat_eq};
ghost use Rattle.std.specs.Prelude.{IfOk, OnOk};
ghost use Rattle.indexmap.specs.IndexMap.{get};
ghost use Rattle.sw_tree.specs.declared.decl.InitTree.{InitTree};
ghost use Rattle.sw_decl_words.specs.Evident.{tabled};
ghost use Rattle.sw_decls.specs.Signatures.{actor_iso, func_iso, func_of, funcs_from, funcs_of};
ghost use Rattle.sw_decls.specs.Signatures.{global_of, init_of, inits_of, label_id, param_of};
ghost use Rattle.sw_decls.specs.Signatures.{with_default};

use std::alloc::{AllocError, Global};
use sw_decl_words::{Members, Words, prop_type, shapes_made, type_of, written_actor};
use sw_list::ListOf;
use sw_tree::{Decl, FuncTree, InitTree, Name, ParamTree, Written};
use sw_types::{Iso, Ty};

/// Where a `nonisolated` asynchronous function runs that says nothing more (SE-0338, SE-0461).
#[derive(Clone, Copy, Debug, PartialEq, Eq)]
pub enum AsyncDefault {
    /// On no actor.
    Concurrent,
    /// Where its caller runs.
    Caller,
}

/// Parameters in order.
pub type ParamList = ListOf<Param>;

/// Functions, by number.
pub type SignatureList = ListOf<Signature>;

/// Global variables in order.
pub type GlobalList = ListOf<GlobalVar>;

/// A parameter: the id of its label, where it has one, its name, whether it is `sending`, and its
/// type.
#[derive(Drop)]
pub struct Param {
    pub label: Option<u32>,
    pub name: Name,
    pub sending: bool,
    pub ty: Ty,
}

/// What a function, a method, an initialiser or the entry takes and gives.
#[derive(Drop)]
pub struct Signature {
    /// Its word; of an initialiser the place of its `init` with its type's id, and of a default one
    /// its type's word.
    pub key: Name,
    /// The shape whose method or initialiser it is, by number.
    pub owner: Option<u32>,
    pub iso: Iso,
    pub is_async: bool,
    pub params: ParamList,
    pub result: Ty,
    /// Whether its result is `sending`.
    pub sends: bool,
}

/// A global variable.
#[derive(Drop)]
pub struct GlobalVar {
    /// Its word.
    pub key: Name,
    /// Whether it is a `var`.
    pub mutable: bool,
    /// The global actor that it is annotated with, by number.
    pub actor: Option<u32>,
    pub ty: Ty,
}

/// The isolation to a global actor, if there is one.
pub fn actor_iso(actor: Option<u32>) -> Iso
    ensures { result ≡ actor_iso actor }
{
    match actor {
        None => Iso::Free,
        Some(number) => Iso::Global(number),
    }
}

/// What the default makes of an asynchronous function that is isolated to no actor.
fn with_default(default: AsyncDefault, is_async: bool, iso: Iso) -> Iso
    ensures { result ≡ with_default default is_async iso }
{
    match (iso, default, is_async) {
        (Iso::Free, AsyncDefault::Caller, true) => Iso::Caller,
        (Iso::Free, AsyncDefault::Caller, false) | (Iso::Free, AsyncDefault::Concurrent, _) => {
            Iso::Free
        }
        (Iso::Own, _, _) => Iso::Own,
        (Iso::Global(number), _, _) => Iso::Global(number),
        (Iso::Caller, _, _) => Iso::Caller,
    }
}

/// The isolation of a function in a type of the isolation `owner`.
fn func_iso(
    words: &Words,
    default: AsyncDefault,
    owner: Iso,
    is_async: bool,
    written: Written,
) -> Iso
    ensures { result ≡ func_iso (get nat_eq words.now.meanings) default owner is_async written }
{
    match written {
        Written::Absent => with_default(default, is_async, owner),
        Written::At(_) => {
            with_default(default, is_async, actor_iso(written_actor(words, written)))
        }
        Written::Nonisolated => with_default(default, is_async, Iso::Free),
        Written::Concurrent => Iso::Free,
        Written::Nonsending => Iso::Caller,
    }
}

/// The id of a label, where there is one.
pub fn label_id(label: Option<Name>) -> Option<u32>
    ensures { result ≡ label_id label }
{
    match label {
        None => None,
        Some(name) => Some(name.id),
    }
}

/// The parameters of a function.
fn params_of(alloc: Global, words: &Words, trees: &[ParamTree]) -> Result<ParamList, AllocError>
    ensures { IfOk result (λ params. params
        ≡ map (param_of (get nat_eq words.now.meanings)) trees.now) }
{
    let mut params = ListOf::new(alloc);
    for tree in trees {
        params.push(Param {
            label: label_id(tree.label),
            name: tree.name,
            sending: tree.sending,
            ty: type_of(alloc, words, &tree.ty)?,
        })?;
    }
    Ok(params)
}

/// The signature of a function or a method.
fn func_of(
    alloc: Global,
    words: &Words,
    default: AsyncDefault,
    owner: Option<u32>,
    iso: Iso,
    func: &FuncTree,
) -> Result<Signature, AllocError>
    ensures { IfOk result (λ made. made
        ≡ func_of (get nat_eq words.now.meanings) default owner iso func.now) }
{
    let result = match &func.result {
        None => Ty::Unit,
        Some(tree) => type_of(alloc, words, tree)?,
    };
    Ok(Signature {
        key: func.word,
        owner,
        iso: func_iso(words, default, iso, func.is_async, func.written),
        is_async: func.is_async,
        params: params_of(alloc, words, func.params.as_slice())?,
        result,
        sends: func.sends,
    })
}

/// Adds the signatures of methods.
fn add_funcs(
    alloc: Global,
    words: &Words,
    default: AsyncDefault,
    owner: Option<u32>,
    iso: Iso,
    funcs: &[FuncTree],
    made: &mut SignatureList,
) -> Result<(), AllocError>
    ensures { OnOk result (made.new ≡ made.old
        ++ map (func_of (get nat_eq words.now.meanings) default owner iso) funcs.now) }
{
    for func in funcs {
        made.push(func_of(alloc, words, default, owner, iso, func)?)?;
    }
    Ok(())
}

/// The signature of an initialiser.
fn init_of(
    alloc: Global,
    words: &Words,
    key: Name,
    number: u32,
    iso: Iso,
    params: &[ParamTree],
) -> Result<Signature, AllocError>
    ensures { IfOk result (λ made. made
        ≡ init_of (get nat_eq words.now.meanings) key number iso params.now) }
{
    Ok(Signature {
        key,
        owner: Some(number),
        iso,
        is_async: false,
        params: params_of(alloc, words, params)?,
        result: Ty::Named(number),
        sends: false,
    })
}

/// Adds the signatures of the initialisers that are written.
fn add_written_inits(
    alloc: Global,
    words: &Words,
    word: Name,
    number: u32,
    iso: Iso,
    inits: &[InitTree],
    made: &mut SignatureList,
) -> Result<(), AllocError>
    ensures { OnOk result (made.new ≡ made.old
        ++ map (λ (one : InitTree). init_of (get nat_eq words.now.meanings)
        (record { at = one.at; id = word.id }) number iso one.params) inits.now) }
{
    for init in inits {
        let key = Name {
            at: init.at,
            id: word.id,
        };
        made.push(init_of(alloc, words, key, number, iso, init.params.as_slice())?)?;
    }
    Ok(())
}

/// Adds the signatures of the initialisers of a class or an actor.
fn add_inits(
    alloc: Global,
    words: &Words,
    word: Name,
    number: u32,
    iso: Iso,
    inits: &[InitTree],
    made: &mut SignatureList,
) -> Result<(), AllocError>
    ensures { OnOk result (made.new ≡ made.old
        ++ inits_of (get nat_eq words.now.meanings) word number iso inits.now) }
{
    if inits.is_empty() {
        made.push(init_of(alloc, words, word, number, iso, &[])?)?;
    }
    add_written_inits(alloc, words, word, number, iso, inits, made)
}

/// The id of `main`, which each program has before it declares any name.
const MAIN: u32 = 10;

/// Adds the signatures of the functions of a declaration, by the number of shapes before it.
#[tactic(auto, unfolding(crate::specs::Signatures::funcs_of))]
fn add_decl_funcs(
    alloc: Global,
    words: &Words,
    default: AsyncDefault,
    number: u32,
    decl: &Decl,
    made: &mut SignatureList,
) -> Result<(), AllocError>
    ensures { OnOk result (made.new
        ≡ made.old ++ funcs_of (get nat_eq words.now.meanings) default number decl.now) }
{
    match decl {
        Decl::Entry {
            written,
            at,
            is_async,
            ..
        } => made.push(Signature {
            key: Name { at: *at, id: MAIN },
            owner: None,
            iso: actor_iso(written_actor(words, *written)),
            is_async: *is_async,
            params: ListOf::new(alloc),
            result: Ty::Unit,
            sends: false,
        }),
        Decl::Struct { funcs, .. } | Decl::Enum { funcs, .. } => {
            let owner = Some(number);
            add_funcs(
                alloc,
                words,
                default,
                owner,
                Iso::Free,
                funcs.as_slice(),
                made,
            )
        }
        Decl::Class {
            written,
            word,
            inits,
            funcs,
            ..
        } => {
            let iso = actor_iso(written_actor(words, *written));
            add_inits(alloc, words, *word, number, iso, inits.as_slice(), made)?;
            add_funcs(
                alloc,
                words,
                default,
                Some(number),
                iso,
                funcs.as_slice(),
                made,
            )
        }
        Decl::Actor {
            word,
            inits,
            funcs,
            ..
        } => {
            add_inits(
                alloc,
                words,
                *word,
                number,
                Iso::Own,
                inits.as_slice(),
                made,
            )?;
            add_funcs(
                alloc,
                words,
                default,
                Some(number),
                Iso::Own,
                funcs.as_slice(),
                made,
            )
        }
        Decl::Func(func) => made.push(func_of(alloc, words, default, None, Iso::Free, func)?),
        Decl::GlobalActor { .. } | Decl::Global(_) => Ok(()),
    }
}

/// The signatures of the functions of a program, in the order of their declarations; those of a
/// type begin with its initialisers.
pub fn signatures_of(
    alloc: Global,
    words: &Words,
    default: AsyncDefault,
    decls: &[Decl],
) -> Result<SignatureList, AllocError>
    requires { length decls.now < 2 ^ 31 }
    ensures { IfOk result (λ made. made
        ≡ funcs_from (get nat_eq words.now.meanings) default 0 decls.now) }
{
    let mut made = ListOf::new(alloc);
    let mut number = 0;
    for decl in decls {
        add_decl_funcs(alloc, words, default, number, decl, &mut made)?;
        number += shapes_made(decl);
    }
    Ok(made)
}

/// The global variables of a program, in order.
pub fn globals_of(
    alloc: Global,
    words: &Words,
    members: &Members,
    decls: &[Decl],
) -> Result<GlobalList, AllocError>
    ensures { IfOk result (λ made. made
        ≡ flat_map (global_of (tabled words.now members.now)) decls.now) }
{
    let mut made = ListOf::new(alloc);
    for decl in decls {
        if let Decl::Global(global) = decl {
            made.push(GlobalVar {
                key: global.word,
                mutable: global.mutable,
                actor: written_actor(words, global.written),
                ty: prop_type(alloc, words, members, None, global)?,
            })?;
        }
    }
    Ok(made)
}
