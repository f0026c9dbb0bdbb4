//! What is noted of the bodies and first values of a program.
ghost use Rattle.std.specs.Prelude.{◌≡◌, ◌++◌, ◌∷◌, ◌<◌, ◌^◌, [], flat_map, length, IfOk, OnOk};
ghost use Rattle.std.specs.Option.{option_copied};
ghost use Rattle.sw_typing_rules.specs.Worlds.{world_of};
ghost use Rattle.sw_isolation_table.specs.Known.{answers_of};
ghost use Rattle.sw_isolation_rules.specs.Answers.{Answers};
ghost use Rattle.sw_isolation_rules.specs.Programs.{body_notes, context_of, decl_notes};
ghost use Rattle.sw_isolation_rules.specs.Programs.{declared_body, default_notes, func_at};
ghost use Rattle.sw_isolation_rules.specs.Programs.{func_notes, getter_notes, global_notes};
ghost use Rattle.sw_isolation_rules.specs.Programs.{init_notes, inits_notes, noted, prop_notes};
ghost use Rattle.sw_isolation_rules.specs.Programs.{shape_prop, value_notes};

use std::alloc::{AllocError, Global};
use sw_decl_words::{shapes_made, written_actor};
use sw_decls::{Decls, Signature, actor_iso};
use sw_isolation_captures::Listed;
use sw_isolation_rules::{Context, Note};
use sw_isolation_steps::{is_isolated, note_body, shape_iso};
use sw_isolation_walk::{block, expr};
use sw_list::ListOf;
use sw_tree::{Block, Decl, Expr, FuncTree, InitTree, Name, PropTree};
use sw_types::{Iso, Shape};
use sw_typing_table::Typed;

/// The context of a body: nothing is awaited at its start.
fn context_of(iso: Iso, is_async: bool, owner: Option<u32>) -> Context
    ensures { result ≡ context_of iso is_async owner }
{
    Context {
        iso,
        is_async,
        awaited: false,
        owner,
    }
}

/// The function with a key.
#[tactic(auto, unfolding(sw_isolation_rules::specs::Programs::func_at))]
fn func_at(world: &Decls, key: u32) -> Option<&Signature>
    ensures { (answers : Answers)
        → option_copied result ≡ func_at (world_of world.now) answers key }
{
    world.funcs.get(world.numbers.get(key)?)
}

/// Notes a body, by what its function declares, and what is inside it.
fn add_declared(
    alloc: Global,
    world: &Decls,
    typed: &Typed,
    body: &Block,
    func: &Signature,
    notes: &mut ListOf<Note>,
) -> Result<(), AllocError>
    ensures { OnOk result (notes.new ≡ notes.old
        ++ declared_body (world_of world.now) (answers_of typed.now) body.now func.now) }
{
    note_body(func.key.at, func.iso, func.is_async, notes)?;
    let context = context_of(func.iso, func.is_async, func.owner);
    let mut listed = Listed::new(alloc);
    block(alloc, world, typed, context, body, &mut listed, notes)
}

/// Notes the body of the function with a key.
#[tactic(auto, unfolding(sw_isolation_rules::specs::Programs::body_notes))]
fn add_body(
    alloc: Global,
    world: &Decls,
    typed: &Typed,
    key: u32,
    body: &Block,
    notes: &mut ListOf<Note>,
) -> Result<(), AllocError>
    ensures { OnOk result (notes.new ≡ notes.old
        ++ body_notes (world_of world.now) (answers_of typed.now) key body.now) }
{
    match func_at(world, key) {
        None => Ok(()),
        Some(func) => add_declared(alloc, world, typed, body, func, notes),
    }
}

/// Notes functions or methods.
fn add_funcs(
    alloc: Global,
    world: &Decls,
    typed: &Typed,
    funcs: &[FuncTree],
    notes: &mut ListOf<Note>,
) -> Result<(), AllocError>
    ensures { OnOk result (notes.new ≡ notes.old
        ++ flat_map (func_notes (world_of world.now) (answers_of typed.now)) funcs.now) }
{
    for func in funcs {
        add_body(alloc, world, typed, func.word.at, &func.body, notes)?;
    }
    Ok(())
}

/// Notes the initialiser that a type has where it writes none.
#[tactic(auto, unfolding(sw_isolation_rules::specs::Programs::default_notes))]
fn add_default(world: &Decls, key: u32, notes: &mut ListOf<Note>) -> Result<(), AllocError>
    ensures { (answers : Answers) → OnOk result (notes.new ≡ notes.old
        ++ default_notes (world_of world.now) answers key) }
{
    match func_at(world, key) {
        None => Ok(()),
        Some(func) => note_body(func.key.at, func.iso, func.is_async, notes),
    }
}

/// Notes the initialisers that are written.
fn add_written_inits(
    alloc: Global,
    world: &Decls,
    typed: &Typed,
    inits: &[InitTree],
    notes: &mut ListOf<Note>,
) -> Result<(), AllocError>
    ensures { OnOk result (notes.new ≡ notes.old
        ++ flat_map (init_notes (world_of world.now) (answers_of typed.now)) inits.now) }
{
    for init in inits {
        add_body(alloc, world, typed, init.at, &init.body, notes)?;
    }
    Ok(())
}

/// Notes the initialisers of a class or an actor with this word.
fn add_inits(
    alloc: Global,
    world: &Decls,
    typed: &Typed,
    word: Name,
    inits: &[InitTree],
    notes: &mut ListOf<Note>,
) -> Result<(), AllocError>
    ensures { OnOk result (notes.new ≡ notes.old
        ++ inits_notes (world_of world.now) (answers_of typed.now) word inits.now) }
{
    match inits {
        [] => add_default(world, word.at, notes),
        [_, ..] => add_written_inits(alloc, world, typed, inits, notes),
    }
}

/// Notes what is inside a first value.
fn add_value(
    alloc: Global,
    world: &Decls,
    typed: &Typed,
    iso: Iso,
    owner: Option<u32>,
    value: &Option<Expr>,
    notes: &mut ListOf<Note>,
) -> Result<(), AllocError>
    ensures { OnOk result (notes.new ≡ notes.old
        ++ value_notes (world_of world.now) (answers_of typed.now) iso owner value.now) }
{
    match value {
        None => Ok(()),
        Some(value) => {
            let context = context_of(iso, false, owner);
            let mut listed = Listed::new(alloc);
            expr(alloc, world, typed, context, value, &mut listed, notes)
        }
    }
}

/// Notes the getter of a property or a global variable, where it has one.
fn add_getter(prop: &PropTree, iso: Iso, notes: &mut ListOf<Note>) -> Result<(), AllocError>
    ensures { OnOk result (notes.new ≡ notes.old ++ getter_notes prop.now iso) }
{
    if prop.mutable && is_isolated(iso) {
        note_body(prop.word.at, iso, false, notes)?;
    }
    Ok(())
}

/// Notes a property of a type, with the number that the type has.
fn add_shape_prop(
    alloc: Global,
    world: &Decls,
    typed: &Typed,
    number: u32,
    prop: &PropTree,
    shape: &Shape,
    notes: &mut ListOf<Note>,
) -> Result<(), AllocError>
    ensures { OnOk result (notes.new ≡ notes.old
        ++ shape_prop (world_of world.now) (answers_of typed.now) number prop.now shape.now) }
{
    let iso = shape_iso(shape);
    add_getter(prop, iso, notes)?;
    add_value(alloc, world, typed, iso, Some(number), &prop.value, notes)
}

/// Notes a property of the type with a number.
#[tactic(auto, unfolding(sw_isolation_rules::specs::Programs::prop_notes))]
fn add_prop(
    alloc: Global,
    world: &Decls,
    typed: &Typed,
    number: u32,
    prop: &PropTree,
    notes: &mut ListOf<Note>,
) -> Result<(), AllocError>
    ensures { OnOk result (notes.new ≡ notes.old
        ++ prop_notes (world_of world.now) (answers_of typed.now) number prop.now) }
{
    match world.shapes.list().get(number as usize) {
        None => Ok(()),
        Some(shape) => add_shape_prop(alloc, world, typed, number, prop, shape, notes),
    }
}

/// Notes the properties of the type with a number.
fn add_props(
    alloc: Global,
    world: &Decls,
    typed: &Typed,
    number: u32,
    props: &[PropTree],
    notes: &mut ListOf<Note>,
) -> Result<(), AllocError>
    ensures { OnOk result (notes.new ≡ notes.old
        ++ flat_map (prop_notes (world_of world.now) (answers_of typed.now) number) props.now) }
{
    for prop in props {
        add_prop(alloc, world, typed, number, prop, notes)?;
    }
    Ok(())
}

/// Notes what gives a global variable its first value, and its getter.
#[tactic(auto, unfolding(sw_isolation_rules::specs::Programs::global_notes))]
fn add_global(
    alloc: Global,
    world: &Decls,
    typed: &Typed,
    prop: &PropTree,
    notes: &mut ListOf<Note>,
) -> Result<(), AllocError>
    ensures { OnOk result (notes.new ≡ notes.old
        ++ global_notes (world_of world.now) (answers_of typed.now) prop.now) }
{
    let iso = actor_iso(written_actor(&world.words, prop.written));
    note_body(prop.word.at, iso, false, notes)?;
    add_getter(prop, iso, notes)?;
    add_value(alloc, world, typed, iso, None, &prop.value, notes)
}

/// Notes the members of a class or an actor with this word and number.
fn add_members(
    alloc: Global,
    world: &Decls,
    typed: &Typed,
    number: u32,
    word: Name,
    props: &[PropTree],
    inits: &[InitTree],
    funcs: &[FuncTree],
    notes: &mut ListOf<Note>,
) -> Result<(), AllocError>
    ensures { OnOk result (notes.new ≡ notes.old
        ++ (flat_map (prop_notes (world_of world.now) (answers_of typed.now) number) props.now
        ++ inits_notes (world_of world.now) (answers_of typed.now) word inits.now
        ++ flat_map (func_notes (world_of world.now) (answers_of typed.now)) funcs.now)) }
{
    add_props(alloc, world, typed, number, props, notes)?;
    add_inits(alloc, world, typed, word, inits, notes)?;
    add_funcs(alloc, world, typed, funcs, notes)
}

/// Notes a declaration; `number` is that of its shape, if it makes one.
#[tactic(auto, unfolding(sw_isolation_rules::specs::Programs::decl_notes))]
fn add_decl(
    alloc: Global,
    world: &Decls,
    typed: &Typed,
    number: u32,
    decl: &Decl,
    notes: &mut ListOf<Note>,
) -> Result<(), AllocError>
    ensures { OnOk result (notes.new ≡ notes.old
        ++ decl_notes (world_of world.now) (answers_of typed.now) number decl.now) }
{
    match decl {
        Decl::Entry { at, body, .. } => add_body(alloc, world, typed, *at, body, notes),
        Decl::Struct { funcs, .. } | Decl::Enum { funcs, .. } => {
            add_funcs(alloc, world, typed, funcs.as_slice(), notes)
        }
        Decl::Class {
            word,
            props,
            inits,
            funcs,
            ..
        }
        | Decl::Actor {
            word,
            props,
            inits,
            funcs,
        } => {
            let (props, inits, funcs) = (props.as_slice(), inits.as_slice(), funcs.as_slice());
            add_members(
                alloc, world, typed, number, *word, props, inits, funcs, notes,
            )
        }
        Decl::GlobalActor { .. } => Ok(()),
        Decl::Func(func) => add_body(alloc, world, typed, func.word.at, &func.body, notes),
        Decl::Global(prop) => add_global(alloc, world, typed, prop, notes),
    }
}

/// All that is noted of a program.
pub fn noted(
    alloc: Global,
    world: &Decls,
    typed: &Typed,
    decls: &[Decl],
) -> Result<ListOf<Note>, AllocError>
    requires { length decls.now < 2 ^ 31 }
    ensures { IfOk result (λ notes. notes
        ≡ noted (world_of world.now) (answers_of typed.now) decls.now) }
{
    let mut notes = ListOf::new(alloc);
    let mut number = 0;
    for decl in decls {
        add_decl(alloc, world, typed, number, decl, &mut notes)?;
        number += shapes_made(decl);
    }
    Ok(notes)
}
