//! The breaches of names, written types and entries in declarations.
ghost use Rattle.std.specs.Prelude.{◌≡◌, ◌++◌, flat_map, nat_eq, OnOk};
ghost use Rattle.indexmap.specs.IndexMap.{get};
ghost use Rattle.sw_decl_members.specs.Members.{bad_entries, bad_in_actor, bad_made, bad_written};
ghost use Rattle.sw_decl_members.specs.Members.{case_words};
ghost use Rattle.sw_decl_members.specs.Members.{entry_place, func_words, funcs_in_actor, funcs_written};
ghost use Rattle.sw_decl_members.specs.Members.{in_cases, in_decl, in_func, in_funcs, in_init, in_inits};
ghost use Rattle.sw_decl_members.specs.Members.{in_object};
ghost use Rattle.sw_decl_members.specs.Members.{in_params, in_prop, in_props, later_inits, in_program};
ghost use Rattle.sw_decl_members.specs.Members.{prop_words};
ghost use Rattle.sw_decl_names.specs.Repeats.{repeats};
ghost use Rattle.sw_decl_words.specs.TypeWords.{bad_words};

use std::alloc::{AllocError, Global};
use sw_decl_names::{add_repeats, bad_attribute, bad_type, in_body, in_expr};
use sw_decl_words::{Placed, Words, bad_words, word_of};
use sw_list::ListOf;
use sw_tree::{CaseTree, Decl, FuncTree, InitTree, Name, NameList, ParamTree, PropTree, Written};

/// Adds a written global actor that is none.
fn bad_written(
    words: &Words,
    written: Written,
    found: &mut ListOf<Placed>,
) -> Result<(), AllocError>
    ensures { OnOk result (found.new
        ≡ found.old ++ bad_written (get nat_eq words.now.meanings) written) }
{
    match written {
        Written::At(name) => bad_attribute(words, name, found),
        Written::Absent | Written::Nonisolated | Written::Concurrent | Written::Nonsending => Ok(
            (),
        ),
    }
}

/// Adds a global actor that is written at an actor's member.
fn bad_in_actor(written: Written, found: &mut ListOf<Placed>) -> Result<(), AllocError>
    ensures { OnOk result (found.new ≡ found.old ++ bad_in_actor written) }
{
    match written {
        Written::At(name) => found.push(Placed {
            at: name.at,
            code: 302,
        }),
        Written::Absent | Written::Nonisolated | Written::Concurrent | Written::Nonsending => Ok(
            (),
        ),
    }
}

/// Adds the breaches of parameters.
#[tactic(auto, unfolding(crate::specs::Members::in_params))]
fn in_params(
    alloc: Global,
    words: &Words,
    params: &[ParamTree],
    found: &mut ListOf<Placed>,
) -> Result<(), AllocError>
    ensures { OnOk result (found.new
        ≡ found.old ++ in_params (get nat_eq words.now.meanings) params.now) }
{
    let mut names = ListOf::new(alloc);
    for param in params {
        bad_words(words, &param.ty, found)?;
        names.push(param.name)?;
    }
    add_repeats(alloc, names.as_slice(), found)
}

/// Adds the breaches inside a function.
#[tactic(auto, unfolding(crate::specs::Members::in_func))]
fn in_func(
    alloc: Global,
    words: &Words,
    func: &FuncTree,
    found: &mut ListOf<Placed>,
) -> Result<(), AllocError>
    ensures { OnOk result (found.new
        ≡ found.old ++ in_func (get nat_eq words.now.meanings) func.now) }
{
    in_params(alloc, words, func.params.as_slice(), found)?;
    bad_type(words, &func.result, found)?;
    in_body(alloc, words, &func.body, found)
}

/// Adds the breaches inside a property or a global variable.
#[tactic(auto, unfolding(crate::specs::Members::in_prop))]
fn in_prop(
    alloc: Global,
    words: &Words,
    prop: &PropTree,
    found: &mut ListOf<Placed>,
) -> Result<(), AllocError>
    ensures { OnOk result (found.new
        ≡ found.old ++ in_prop (get nat_eq words.now.meanings) prop.now) }
{
    bad_type(words, &prop.ty, found)?;
    match &prop.value {
        None => Ok(()),
        Some(value) => in_expr(alloc, words, value, found),
    }
}

/// Adds the breaches inside an initialiser.
#[tactic(auto, unfolding(crate::specs::Members::in_init))]
fn in_init(
    alloc: Global,
    words: &Words,
    init: &InitTree,
    found: &mut ListOf<Placed>,
) -> Result<(), AllocError>
    ensures { OnOk result (found.new
        ≡ found.old ++ in_init (get nat_eq words.now.meanings) init.now) }
{
    in_params(alloc, words, init.params.as_slice(), found)?;
    in_body(alloc, words, &init.body, found)
}

/// Adds the breaches inside properties.
fn in_props(
    alloc: Global,
    words: &Words,
    props: &[PropTree],
    found: &mut ListOf<Placed>,
) -> Result<(), AllocError>
    ensures { OnOk result (found.new
        ≡ found.old ++ in_props (get nat_eq words.now.meanings) props.now) }
{
    for prop in props {
        in_prop(alloc, words, prop, found)?;
    }
    Ok(())
}

/// Adds the breaches inside initialisers.
fn in_inits(
    alloc: Global,
    words: &Words,
    inits: &[InitTree],
    found: &mut ListOf<Placed>,
) -> Result<(), AllocError>
    ensures { OnOk result (found.new
        ≡ found.old ++ in_inits (get nat_eq words.now.meanings) inits.now) }
{
    for init in inits {
        in_init(alloc, words, init, found)?;
    }
    Ok(())
}

/// Adds the breaches inside functions.
fn in_funcs(
    alloc: Global,
    words: &Words,
    funcs: &[FuncTree],
    found: &mut ListOf<Placed>,
) -> Result<(), AllocError>
    ensures { OnOk result (found.new
        ≡ found.old ++ in_funcs (get nat_eq words.now.meanings) funcs.now) }
{
    for func in funcs {
        in_func(alloc, words, func, found)?;
    }
    Ok(())
}

/// Adds the written global actors of functions that are none.
fn funcs_written(
    words: &Words,
    funcs: &[FuncTree],
    found: &mut ListOf<Placed>,
) -> Result<(), AllocError>
    ensures { OnOk result (found.new
        ≡ found.old ++ funcs_written (get nat_eq words.now.meanings) funcs.now) }
{
    for func in funcs {
        bad_written(words, func.written, found)?;
    }
    Ok(())
}

/// Adds the global actors that are written at an actor's functions.
fn funcs_in_actor(funcs: &[FuncTree], found: &mut ListOf<Placed>) -> Result<(), AllocError>
    ensures { OnOk result (found.new ≡ found.old ++ funcs_in_actor funcs.now) }
{
    for func in funcs {
        bad_in_actor(func.written, found)?;
    }
    Ok(())
}

/// Adds the words of a payload that name no type.
fn bad_payload(words: &Words, case: &CaseTree, found: &mut ListOf<Placed>) -> Result<(), AllocError>
    ensures { OnOk result (found.new
        ≡ found.old ++ flat_map (bad_words (get nat_eq words.now.meanings)) case.now.types) }
{
    for tree in case.types.as_slice() {
        bad_words(words, tree, found)?;
    }
    Ok(())
}

/// Adds the words of the payloads that name no type.
fn in_cases(words: &Words, cases: &[CaseTree], found: &mut ListOf<Placed>) -> Result<(), AllocError>
    ensures { OnOk result (found.new
        ≡ found.old ++ in_cases (get nat_eq words.now.meanings) cases.now) }
{
    for case in cases {
        bad_payload(words, case, found)?;
    }
    Ok(())
}

/// Adds the initialisers after the first.
fn later_inits(inits: &[InitTree], found: &mut ListOf<Placed>) -> Result<(), AllocError>
    ensures { OnOk result (found.new ≡ found.old ++ later_inits inits.now) }
{
    let Some((_, later)) = inits.split_first() else {
        return Ok(());
    };
    for init in later {
        found.push(Placed {
            at: init.at,
            code: 301,
        })?;
    }
    Ok(())
}

/// Adds the words of properties.
fn add_prop_words(names: &mut NameList, props: &[PropTree]) -> Result<(), AllocError>
    ensures { OnOk result (names.new ≡ names.old ++ prop_words props.now) }
{
    for prop in props {
        names.push(prop.word)?;
    }
    Ok(())
}

/// Adds the words of functions.
fn add_func_words(names: &mut NameList, funcs: &[FuncTree]) -> Result<(), AllocError>
    ensures { OnOk result (names.new ≡ names.old ++ func_words funcs.now) }
{
    for func in funcs {
        names.push(func.word)?;
    }
    Ok(())
}

/// Adds the words of cases.
fn add_case_words(names: &mut NameList, cases: &[CaseTree]) -> Result<(), AllocError>
    ensures { OnOk result (names.new ≡ names.old ++ case_words cases.now) }
{
    for case in cases {
        names.push(case.word)?;
    }
    Ok(())
}

/// Adds the repeated names among properties and functions.
fn member_repeats(
    alloc: Global,
    props: &[PropTree],
    funcs: &[FuncTree],
    found: &mut ListOf<Placed>,
) -> Result<(), AllocError>
    ensures { OnOk result (found.new
        ≡ found.old ++ repeats (prop_words props.now ++ func_words funcs.now)) }
{
    let mut names = ListOf::new(alloc);
    add_prop_words(&mut names, props)?;
    add_func_words(&mut names, funcs)?;
    add_repeats(alloc, names.as_slice(), found)
}

/// Adds the repeated names among cases and functions.
fn case_repeats(
    alloc: Global,
    cases: &[CaseTree],
    funcs: &[FuncTree],
    found: &mut ListOf<Placed>,
) -> Result<(), AllocError>
    ensures { OnOk result (found.new
        ≡ found.old ++ repeats (case_words cases.now ++ func_words funcs.now)) }
{
    let mut names = ListOf::new(alloc);
    add_case_words(&mut names, cases)?;
    add_func_words(&mut names, funcs)?;
    add_repeats(alloc, names.as_slice(), found)
}

/// Adds a global actor's second word that isn't its own.
fn bad_made(word: Name, made: Name, found: &mut ListOf<Placed>) -> Result<(), AllocError>
    ensures { OnOk result (found.new ≡ found.old ++ bad_made word made) }
{
    if word.id != made.id {
        found.push(Placed {
            at: made.at,
            code: 302,
        })?;
    }
    Ok(())
}

/// Adds the breaches among the members of a class or an actor.
#[tactic(auto, unfolding(crate::specs::Members::in_object))]
fn in_object(
    alloc: Global,
    words: &Words,
    props: &[PropTree],
    inits: &[InitTree],
    funcs: &[FuncTree],
    found: &mut ListOf<Placed>,
) -> Result<(), AllocError>
    ensures { OnOk result (found.new
        ≡ found.old ++ in_object (get nat_eq words.now.meanings) props.now inits.now funcs.now) }
{
    in_props(alloc, words, props, found)?;
    in_inits(alloc, words, inits, found)?;
    in_funcs(alloc, words, funcs, found)?;
    later_inits(inits, found)?;
    member_repeats(alloc, props, funcs, found)
}

/// Adds the breaches inside a declaration.
#[tactic(auto, unfolding(crate::specs::Members::in_decl))]
fn in_decl(
    alloc: Global,
    words: &Words,
    decl: &Decl,
    found: &mut ListOf<Placed>,
) -> Result<(), AllocError>
    ensures { OnOk result (found.new
        ≡ found.old ++ in_decl (get nat_eq words.now.meanings) decl.now) }
{
    match decl {
        Decl::Entry { written, body, .. } => {
            bad_written(words, *written, found)?;
            in_body(alloc, words, body, found)
        }
        Decl::Struct { fields, funcs, .. } => {
            in_props(alloc, words, fields.as_slice(), found)?;
            in_funcs(alloc, words, funcs.as_slice(), found)?;
            funcs_written(words, funcs.as_slice(), found)?;
            member_repeats(alloc, fields.as_slice(), funcs.as_slice(), found)
        }
        Decl::Enum { cases, funcs, .. } => {
            in_cases(words, cases.as_slice(), found)?;
            in_funcs(alloc, words, funcs.as_slice(), found)?;
            funcs_written(words, funcs.as_slice(), found)?;
            case_repeats(alloc, cases.as_slice(), funcs.as_slice(), found)
        }
        Decl::Class {
            written,
            props,
            inits,
            funcs,
            ..
        } => {
            bad_written(words, *written, found)?;
            funcs_written(words, funcs.as_slice(), found)?;
            in_object(
                alloc,
                words,
                props.as_slice(),
                inits.as_slice(),
                funcs.as_slice(),
                found,
            )
        }
        Decl::Actor {
            props,
            inits,
            funcs,
            ..
        } => {
            funcs_in_actor(funcs.as_slice(), found)?;
            in_object(
                alloc,
                words,
                props.as_slice(),
                inits.as_slice(),
                funcs.as_slice(),
                found,
            )
        }
        Decl::GlobalActor { word, made } => bad_made(*word, *made, found),
        Decl::Func(func) => {
            bad_written(words, func.written, found)?;
            in_func(alloc, words, func, found)
        }
        Decl::Global(global) => {
            bad_written(words, global.written, found)?;
            in_prop(alloc, words, global, found)
        }
    }
}

/// Adds the place of an entry.
fn add_entry_place(places: &mut ListOf<u32>, decl: &Decl) -> Result<(), AllocError>
    ensures { OnOk result (places.new ≡ places.old ++ entry_place decl.now) }
{
    match decl {
        Decl::Entry { at, .. } => places.push(*at),
        Decl::Struct { .. }
        | Decl::Enum { .. }
        | Decl::Class { .. }
        | Decl::Actor { .. }
        | Decl::GlobalActor { .. }
        | Decl::Func(_)
        | Decl::Global(_) => Ok(()),
    }
}

/// Adds the breach of a missing entry, or those of the entries after the first.
fn bad_entries(places: &[u32], found: &mut ListOf<Placed>) -> Result<(), AllocError>
    ensures { OnOk result (found.new ≡ found.old ++ bad_entries places.now) }
{
    let Some((_, later)) = places.split_first() else {
        return found.push(Placed { at: 0, code: 304 });
    };
    for at in later {
        found.push(Placed { at: *at, code: 304 })?;
    }
    Ok(())
}

/// Adds the breaches of names, written types and entries in a program.
#[tactic(auto, unfolding(crate::specs::Members::in_program))]
pub fn in_program(
    alloc: Global,
    words: &Words,
    decls: &[Decl],
    found: &mut ListOf<Placed>,
) -> Result<(), AllocError>
    ensures { OnOk result (found.new
        ≡ found.old ++ in_program (get nat_eq words.now.meanings) decls.now) }
{
    let mut names = ListOf::new(alloc);
    let mut entries = ListOf::new(alloc);
    for decl in decls {
        in_decl(alloc, words, decl, found)?;
        names.push(word_of(decl))?;
        add_entry_place(&mut entries, decl)?;
    }
    add_repeats(alloc, names.as_slice(), found)?;
    bad_entries(entries.as_slice(), found)
}
