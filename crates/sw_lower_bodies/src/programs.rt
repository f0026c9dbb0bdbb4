//! The bodies of declarations.
ghost use Rattle.std.specs.Prelude.{◌≡◌, ◌++◌, ◌∷◌, ◌<◌, ◌^◌, [], flat_map, length, slice_get};
ghost use Rattle.std.specs.Prelude.{IfOk, OnOk};
ghost use Rattle.std.specs.Option.{option_copied};
ghost use Rattle.sw_isolation_rules.specs.Answers.{for_some};
ghost use Rattle.sw_lower_bodies.specs.Trees.{bodies_by, gives_by, init_with};
ghost use Rattle.sw_lower_known.specs.Knowledge.{tables_by};
ghost use Rattle.sw_lower_rules.specs.Bodies.{decl_bodies, func_bodies, func_signed};
ghost use Rattle.sw_lower_rules.specs.Bodies.{func_tree_bodies, global_bodies, global_getter};
ghost use Rattle.sw_lower_rules.specs.Bodies.{init_bodies, init_signed, inits_bodies};
ghost use Rattle.sw_decl_words.specs.Words.{globals_made};
ghost use Rattle.sw_lower_rules.specs.Bodies.{part_getter, program_bodies, prop_getters};
ghost use Rattle.sw_lower_rules.specs.Bodies.{shape_getters, value_bodies};

use crate::body_tree::{BodyForm, BodyTree};
use crate::closures::{BodyList, add, add_known, block, expr};
use std::alloc::{AllocError, Global};
use sw_decl_words::shapes_made;
use sw_decls::{GlobalVar, Signature};
use sw_isolation_steps::{is_isolated, shape_iso};
use sw_list::ListOf;
use sw_lower_known::Known;
use sw_tree::{Block, Decl, Expr, FuncTree, InitTree, Name, ParamTree, PropTree};
use sw_types::{Part, Shape};

/// Adds the body of a function, by its signature, and those in it.
#[tactic(auto, unfolding(crate::specs::Inside::block_inside))]
fn add_signed<'a>(
    known: &'a Known<'a>,
    params: &'a [ParamTree],
    tree: &'a Block,
    func: &'a Signature,
    bodies: &mut BodyList<'a>,
) -> Result<(), AllocError>
    ensures { OnOk result (bodies_by (tables_by known.now) bodies.new
        ≡ bodies_by (tables_by known.now) bodies.old
        ++ func_signed (tables_by known.now) params.now tree.now func.now) }
{
    let body = BodyTree {
        key: func.key.at,
        getter: false,
        iso: func.iso,
        is_async: func.is_async,
        form: BodyForm::Declared {
            params,
            block: tree,
            func,
        },
    };
    add(known, body, bodies)?;
    block(known, func.owner, tree, bodies)
}

/// Adds the body of the function with a key, and those in it.
#[tactic(auto, unfolding(sw_lower_rules::specs::Bodies::func_bodies))]
fn add_func<'a>(
    known: &'a Known<'a>,
    key: u32,
    params: &'a [ParamTree],
    tree: &'a Block,
    bodies: &mut BodyList<'a>,
) -> Result<(), AllocError>
    ensures { OnOk result (bodies_by (tables_by known.now) bodies.new
        ≡ bodies_by (tables_by known.now) bodies.old
        ++ func_bodies (tables_by known.now) key params.now tree.now) }
{
    match known.func_with(key) {
        None => Ok(()),
        Some(func) => add_signed(known, params, tree, func, bodies),
    }
}

/// Adds the bodies of functions or methods, and those in them.
fn add_funcs<'a>(
    known: &'a Known<'a>,
    funcs: &'a [FuncTree],
    bodies: &mut BodyList<'a>,
) -> Result<(), AllocError>
    ensures { OnOk result (bodies_by (tables_by known.now) bodies.new
        ≡ bodies_by (tables_by known.now) bodies.old
        ++ flat_map (func_tree_bodies (tables_by known.now)) funcs.now) }
{
    for func in funcs {
        add_func(
            known,
            func.word.at,
            func.params.as_slice(),
            &func.body,
            bodies,
        )?;
    }
    Ok(())
}

/// Adds an initialiser of the type with a number, by its signature.
fn add_init_signed<'a>(
    known: &'a Known<'a>,
    number: u32,
    props: &'a [PropTree],
    params: &'a [ParamTree],
    block: Option<&'a Block>,
    func: &'a Signature,
    bodies: &mut BodyList<'a>,
) -> Result<(), AllocError>
    ensures { OnOk result (bodies_by (tables_by known.now) bodies.new
        ≡ bodies_by (tables_by known.now) bodies.old
        ++ init_signed (tables_by known.now) number props.now params.now
        (gives_by (tables_by known.now) number (option_copied block.entry)) func.now) }
{
    match known.shape(number) {
        None => Ok(()),
        Some(shape) => {
            let body = BodyTree {
                key: func.key.at,
                getter: false,
                iso: func.iso,
                is_async: func.is_async,
                form: BodyForm::Init {
                    number,
                    shape,
                    props,
                    params,
                    block,
                    func,
                },
            };
            add(known, body, bodies)
        }
    }
}

/// Adds the initialiser with a key of the type with a number.
fn add_init_with<'a>(
    known: &'a Known<'a>,
    number: u32,
    props: &'a [PropTree],
    key: u32,
    params: &'a [ParamTree],
    block: Option<&'a Block>,
    bodies: &mut BodyList<'a>,
) -> Result<(), AllocError>
    ensures { OnOk result (bodies_by (tables_by known.now) bodies.new
        ≡ bodies_by (tables_by known.now) bodies.old
        ++ init_with (tables_by known.now) number props.now key params.now
        (option_copied block.entry)) }
{
    match known.func_with(key) {
        None => Ok(()),
        Some(func) => add_init_signed(known, number, props, params, block, func, bodies),
    }
}

/// Adds an initialiser that is written, and the bodies in it.
#[tactic(auto, unfolding(sw_lower_rules::specs::Bodies::init_bodies, crate::specs::Inside::block_inside))]
fn add_init<'a>(
    known: &'a Known<'a>,
    number: u32,
    props: &'a [PropTree],
    init: &'a InitTree,
    bodies: &mut BodyList<'a>,
) -> Result<(), AllocError>
    ensures { OnOk result (bodies_by (tables_by known.now) bodies.new
        ≡ bodies_by (tables_by known.now) bodies.old
        ++ init_bodies (tables_by known.now) number props.now init.now) }
{
    let params = init.params.as_slice();
    add_init_with(
        known,
        number,
        props,
        init.at,
        params,
        Some(&init.body),
        bodies,
    )?;
    block(known, Some(number), &init.body, bodies)
}

/// Adds initialisers that are written, and the bodies in them.
fn add_written_inits<'a>(
    known: &'a Known<'a>,
    number: u32,
    props: &'a [PropTree],
    inits: &'a [InitTree],
    bodies: &mut BodyList<'a>,
) -> Result<(), AllocError>
    ensures { OnOk result (bodies_by (tables_by known.now) bodies.new
        ≡ bodies_by (tables_by known.now) bodies.old
        ++ flat_map (init_bodies (tables_by known.now) number props.now) inits.now) }
{
    for init in inits {
        add_init(known, number, props, init, bodies)?;
    }
    Ok(())
}

/// Adds the initialisers of a type with this word and number, and the bodies in them.
#[tactic(auto, unfolding(sw_lower_rules::specs::Bodies::default_bodies))]
fn add_inits<'a>(
    known: &'a Known<'a>,
    number: u32,
    props: &'a [PropTree],
    word: Name,
    inits: &'a [InitTree],
    bodies: &mut BodyList<'a>,
) -> Result<(), AllocError>
    ensures { OnOk result (bodies_by (tables_by known.now) bodies.new
        ≡ bodies_by (tables_by known.now) bodies.old
        ++ inits_bodies (tables_by known.now) number props.now word inits.now) }
{
    match inits {
        [] => add_init_with(known, number, props, word.at, &[], None, bodies),
        [_, ..] => add_written_inits(known, number, props, inits, bodies),
    }
}

/// Adds the getter of a property.
fn add_part_getter<'a>(
    known: &'a Known<'a>,
    key: u32,
    number: u32,
    index: usize,
    shape: &'a Shape,
    part: &'a Part,
    bodies: &mut BodyList<'a>,
) -> Result<(), AllocError>
    ensures { OnOk result (bodies_by (tables_by known.now) bodies.new
        ≡ bodies_by (tables_by known.now) bodies.old
        ++ part_getter (tables_by known.now) key number index shape.now part.now ∷ []) }
{
    let form = BodyForm::PartGetter {
        number,
        index,
        shape,
        part,
    };
    add_known(known, key, true, form, bodies)
}

/// Adds the getter of a property of a type, where it has one.
fn add_shape_getter<'a>(
    known: &'a Known<'a>,
    number: u32,
    index: usize,
    prop: &'a PropTree,
    shape: &'a Shape,
    bodies: &mut BodyList<'a>,
) -> Result<(), AllocError>
    ensures { OnOk result (bodies_by (tables_by known.now) bodies.new
        ≡ bodies_by (tables_by known.now) bodies.old
        ++ shape_getters (tables_by known.now) number index prop.now shape.now) }
{
    if prop.mutable && is_isolated(shape_iso(shape)) {
        match shape.parts.get(index) {
            None => Ok(()),
            Some(part) => add_part_getter(known, prop.word.at, number, index, shape, part, bodies),
        }
    } else {
        Ok(())
    }
}

/// Adds the getter of a property of the type with a number, where it has one.
fn add_prop_getter<'a>(
    known: &'a Known<'a>,
    number: u32,
    index: usize,
    prop: &'a PropTree,
    bodies: &mut BodyList<'a>,
) -> Result<(), AllocError>
    ensures { OnOk result (bodies_by (tables_by known.now) bodies.new
        ≡ bodies_by (tables_by known.now) bodies.old
        ++ for_some (slice_get (tables_by known.now).world.shapes number)
        (shape_getters (tables_by known.now) number index prop.now)) }
{
    match known.shape(number) {
        None => Ok(()),
        Some(shape) => add_shape_getter(known, number, index, prop, shape, bodies),
    }
}

/// Adds the getters of the properties of the type with a number.
fn add_prop_getters<'a>(
    known: &'a Known<'a>,
    number: u32,
    props: &'a [PropTree],
    bodies: &mut BodyList<'a>,
) -> Result<(), AllocError>
    ensures { OnOk result (bodies_by (tables_by known.now) bodies.new
        ≡ bodies_by (tables_by known.now) bodies.old
        ++ prop_getters (tables_by known.now) number 0 props.now) }
{
    for (index, prop) in props.iter().enumerate() {
        add_prop_getter(known, number, index, prop, bodies)?;
    }
    Ok(())
}

/// Adds the getter of the global variable with a key and a number, where it has one.
fn add_global_getter<'a>(
    known: &'a Known<'a>,
    key: u32,
    index: u32,
    global: &'a GlobalVar,
    bodies: &mut BodyList<'a>,
) -> Result<(), AllocError>
    ensures { OnOk result (bodies_by (tables_by known.now) bodies.new
        ≡ bodies_by (tables_by known.now) bodies.old
        ++ global_getter (tables_by known.now) key index global.now) }
{
    if global.actor.is_some() && global.mutable {
        add_known(
            known,
            key,
            true,
            BodyForm::GlobalGetter { index, global },
            bodies,
        )?;
    }
    Ok(())
}

/// Adds what gives the global variable with a key and a number its first value, and the bodies in
/// that.
#[tactic(auto, unfolding(crate::specs::Inside::expr_inside))]
fn add_value<'a>(
    known: &'a Known<'a>,
    key: u32,
    index: u32,
    value: &'a Option<Expr>,
    bodies: &mut BodyList<'a>,
) -> Result<(), AllocError>
    ensures { OnOk result (bodies_by (tables_by known.now) bodies.new
        ≡ bodies_by (tables_by known.now) bodies.old
        ++ value_bodies (tables_by known.now) key index value.now) }
{
    match value {
        None => Ok(()),
        Some(value) => {
            add_known(
                known,
                key,
                false,
                BodyForm::FirstValue { index, value },
                bodies,
            )?;
            expr(known, None, value, bodies)
        }
    }
}

/// Adds the bodies of the global variable with a number.
#[tactic(auto, unfolding(sw_lower_rules::specs::Bodies::global_bodies))]
fn add_global<'a>(
    known: &'a Known<'a>,
    index: u32,
    prop: &'a PropTree,
    bodies: &mut BodyList<'a>,
) -> Result<(), AllocError>
    ensures { OnOk result (bodies_by (tables_by known.now) bodies.new
        ≡ bodies_by (tables_by known.now) bodies.old
        ++ global_bodies (tables_by known.now) index prop.now) }
{
    add_value(known, prop.word.at, index, &prop.value, bodies)?;
    match known.global(index) {
        None => Ok(()),
        Some(global) => add_global_getter(known, prop.word.at, index, global, bodies),
    }
}

/// Adds the bodies of the members of a class or an actor with this word and number.
fn add_members<'a>(
    known: &'a Known<'a>,
    number: u32,
    word: Name,
    props: &'a [PropTree],
    inits: &'a [InitTree],
    funcs: &'a [FuncTree],
    bodies: &mut BodyList<'a>,
) -> Result<(), AllocError>
    ensures { OnOk result (bodies_by (tables_by known.now) bodies.new
        ≡ bodies_by (tables_by known.now) bodies.old
        ++ (prop_getters (tables_by known.now) number 0 props.now
        ++ inits_bodies (tables_by known.now) number props.now word inits.now
        ++ flat_map (func_tree_bodies (tables_by known.now)) funcs.now)) }
{
    add_prop_getters(known, number, props, bodies)?;
    add_inits(known, number, props, word, inits, bodies)?;
    add_funcs(known, funcs, bodies)
}

/// Adds the bodies of a declaration; `number` and `index` are those of the type or the global
/// variable that it declares, if it does.
#[tactic(auto, unfolding(sw_lower_rules::specs::Bodies::decl_bodies))]
fn add_decl<'a>(
    known: &'a Known<'a>,
    number: u32,
    index: u32,
    decl: &'a Decl,
    bodies: &mut BodyList<'a>,
) -> Result<(), AllocError>
    ensures { OnOk result (bodies_by (tables_by known.now) bodies.new
        ≡ bodies_by (tables_by known.now) bodies.old
        ++ decl_bodies (tables_by known.now) number index decl.now) }
{
    match decl {
        Decl::Entry { at, body, .. } => add_func(known, *at, &[], body, bodies),
        Decl::Struct { funcs, .. } | Decl::Enum { funcs, .. } => {
            add_funcs(known, funcs.as_slice(), bodies)
        }
        Decl::Class {
            word,
            props,
            inits,
            funcs,
            ..
        }
        | Decl::Actor {
            word,
            props,
            inits,
            funcs,
        } => {
            let (props, inits, funcs) = (props.as_slice(), inits.as_slice(), funcs.as_slice());
            add_members(known, number, *word, props, inits, funcs, bodies)
        }
        Decl::GlobalActor { .. } => Ok(()),
        Decl::Func(func) => {
            let params = func.params.as_slice();
            add_func(known, func.word.at, params, &func.body, bodies)
        }
        Decl::Global(prop) => add_global(known, index, prop, bodies),
    }
}

/// How many global variables a declaration makes.
fn globals_made(decl: &Decl) -> u32
    ensures { result ≡ globals_made decl.now }
{
    match decl {
        Decl::Global(_) => 1,
        Decl::Entry { .. }
        | Decl::Struct { .. }
        | Decl::Enum { .. }
        | Decl::Class { .. }
        | Decl::Actor { .. }
        | Decl::GlobalActor { .. }
        | Decl::Func(_) => 0,
    }
}

/// The bodies of a program, in the order of its text.
#[tactic(auto, unfolding(crate::specs::Trees::bodies_by))]
pub fn bodies_of<'a>(
    alloc: Global,
    known: &'a Known<'a>,
    decls: &'a [Decl],
) -> Result<BodyList<'a>, AllocError>
    requires { length decls.now < 2 ^ 31 }
    ensures { IfOk result (λ bodies. bodies_by (tables_by known.now) bodies
        ≡ program_bodies (tables_by known.now) decls.now) }
{
    let mut bodies = ListOf::new(alloc);
    let mut number = 0;
    let mut index = 0;
    for decl in decls {
        add_decl(known, number, index, decl, &mut bodies)?;
        number += shapes_made(decl);
        index += globals_made(decl);
    }
    Ok(bodies)
}
