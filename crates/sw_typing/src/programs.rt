//! What is noted of the bodies and first values of a program.
ghost use Rattle.std.specs.Prelude.{◌≡◌, ◌++◌, ◌<◌, ◌^◌, Some, flat_map, length, map, IfOk};
ghost use Rattle.sw_tree.specs.declared.decl.Decl.{Decl};
ghost use Rattle.sw_typing_rules.specs.Programs.{bodies_from, bodies_of, func_body, init_body};
ghost use Rattle.sw_typing_rules.specs.Programs.{prop_value, said, said_of_body, said_of_value};
ghost use Rattle.sw_typing_rules.specs.Programs.{values_from, values_of};
ghost use Rattle.sw_typing_rules.specs.Statements.{in_body};
ghost use Rattle.sw_typing_rules.specs.Worlds.{world_of};
ghost use Rattle.sw_types.specs.declared.ty.Ty.TheVariants as types;
ghost use Rattle.sw_decl_words.specs.Shaped.{stated_type};

use crate::settings::in_body;
use crate::walk::{block, expr};
use std::alloc::{AllocError, Global};
use sw_decl_words::{prop_type, shapes_made};
use sw_decls::Decls;
use sw_list::ListOf;
use sw_tree::{Block, Decl, FuncTree, InitTree, ParamTree, PropTree, TypeTree};
use sw_types::Ty;
use sw_typing_rules::Returned;
use sw_typing_steps::{Rows, Table, body_rows, open_body};
use sw_typing_words::{Scope, is_marked, written};

/// The result that is written, or `Void`.
fn stated(alloc: Global, world: &Decls, tree: &Option<TypeTree>) -> Result<Ty, AllocError>
    ensures { IfOk result (λ ty. ty
        ≡ stated_type (world_of world.now).known.top tree.now types.Unit) }
{
    match written(alloc, world, tree)? {
        None => Ok(Ty::Unit),
        Some(ty) => Ok(ty),
    }
}

/// Adds what is noted of a body.
fn add_body(
    alloc: Global,
    world: &Decls,
    at: u32,
    owner: Option<u32>,
    init: bool,
    params: &[ParamTree],
    wanted: Ty,
    tree: &Block,
    rows: Rows,
) -> Result<Rows, AllocError>
    ensures { IfOk result (λ more. more ≡ rows ++ said_of_body (world_of world.now) (record {
      at = at;
      owner = owner;
      init = init;
      params = params.now;
      wanted = wanted;
      block = tree.now;
    })) }
{
    let mut table = open_body(alloc, world, params, wanted, rows)?;
    let start = table.rows.len();
    let went = block(alloc, world, in_body(owner, init), tree, &mut table)?;
    body_rows(start, at, went, &mut table)?;
    let Table { rows, .. } = table;
    Ok(rows)
}

/// Adds what is noted of a function or a method.
fn add_func(
    alloc: Global,
    world: &Decls,
    owner: Option<u32>,
    func: &FuncTree,
    rows: Rows,
) -> Result<Rows, AllocError>
    ensures { IfOk result (λ more. more ≡ rows
        ++ said_of_body (world_of world.now) (func_body (world_of world.now) owner func.now)) }
{
    let wanted = stated(alloc, world, &func.result)?;
    let at = func.word.at;
    let params = func.params.as_slice();
    add_body(
        alloc, world, at, owner, false, params, wanted, &func.body, rows,
    )
}

/// Adds what is noted of methods.
fn add_funcs(
    alloc: Global,
    world: &Decls,
    owner: Option<u32>,
    funcs: &[FuncTree],
    rows: Rows,
) -> Result<Rows, AllocError>
    ensures { IfOk result (λ more. more ≡ rows ++ flat_map (said_of_body (world_of world.now))
        (map (func_body (world_of world.now) owner) funcs.now)) }
{
    let mut more = rows;
    for func in funcs {
        more = add_func(alloc, world, owner, func, more)?;
    }
    Ok(more)
}

/// Adds what is noted of the initialisers of a class or an actor.
fn add_inits(
    alloc: Global,
    world: &Decls,
    shape: u32,
    inits: &[InitTree],
    rows: Rows,
) -> Result<Rows, AllocError>
    ensures { IfOk result (λ more. more ≡ rows
        ++ flat_map (said_of_body (world_of world.now)) (map (init_body shape) inits.now)) }
{
    let mut more = rows;
    for init in inits {
        let params = init.params.as_slice();
        let owner = Some(shape);
        let at = init.at;
        more = add_body(
            alloc,
            world,
            at,
            owner,
            true,
            params,
            Ty::Unit,
            &init.body,
            more,
        )?;
    }
    Ok(more)
}

/// Adds what is noted of the bodies of a declaration, which stands after `shape` shapes.
#[tactic(auto, unfolding(sw_typing_rules::specs::Programs::bodies_of))]
fn add_bodies_of(
    alloc: Global,
    world: &Decls,
    shape: u32,
    decl: &Decl,
    rows: Rows,
) -> Result<Rows, AllocError>
    ensures { IfOk result (λ more. more ≡ rows ++ flat_map (said_of_body (world_of world.now))
        (bodies_of (world_of world.now) shape decl.now)) }
{
    match decl {
        Decl::Entry { at, body, .. } => {
            add_body(alloc, world, *at, None, false, &[], Ty::Unit, body, rows)
        }
        Decl::Struct { funcs, .. } | Decl::Enum { funcs, .. } => {
            add_funcs(alloc, world, Some(shape), funcs.as_slice(), rows)
        }
        Decl::Class { inits, funcs, .. } | Decl::Actor { inits, funcs, .. } => {
            let rows = add_inits(alloc, world, shape, inits.as_slice(), rows)?;
            add_funcs(alloc, world, Some(shape), funcs.as_slice(), rows)
        }
        Decl::Func(func) => add_func(alloc, world, None, func, rows),
        Decl::GlobalActor { .. } | Decl::Global(_) => Ok(rows),
    }
}

/// Adds what is noted of the bodies of a program.
fn add_bodies(alloc: Global, world: &Decls, decls: &[Decl], rows: Rows) -> Result<Rows, AllocError>
    requires { length decls.now < 2 ^ 31 }
    ensures { IfOk result (λ more. more ≡ rows ++ flat_map (said_of_body (world_of world.now))
        (bodies_from (world_of world.now) 0 decls.now)) }
{
    let mut more = rows;
    let mut shape = 0;
    for decl in decls {
        more = add_bodies_of(alloc, world, shape, decl, more)?;
        shape += shapes_made(decl);
    }
    Ok(more)
}

/// Adds what is noted of the first value of a property or a global variable, where it has one.
#[tactic(auto, unfolding(sw_typing_rules::specs::Judging::judge))]
fn add_value(
    alloc: Global,
    world: &Decls,
    owner: Option<u32>,
    prop: &PropTree,
    rows: Rows,
) -> Result<Rows, AllocError>
    ensures { IfOk result (λ more. more ≡ rows ++ flat_map (said_of_value (world_of world.now))
        (prop_value (world_of world.now) owner prop.now)) }
{
    match &prop.value {
        None => Ok(rows),
        Some(value) => {
            let wanted = prop_type(alloc, &world.words, &world.members, owner, prop)?;
            let mut table = Table {
                vars: Scope::new(alloc),
                rows,
                returned: Returned::Open(ListOf::new(alloc)),
            };
            let known = expr(alloc, world, owner, is_marked(&wanted), value, &mut table)?;
            let Table { mut rows, .. } = table;
            rows.note_refused(prop.word.at, &known.ty, &wanted)?;
            Ok(rows)
        }
    }
}

/// Adds what is noted of the first values of properties.
fn add_props(
    alloc: Global,
    world: &Decls,
    owner: Option<u32>,
    props: &[PropTree],
    rows: Rows,
) -> Result<Rows, AllocError>
    ensures { IfOk result (λ more. more ≡ rows ++ flat_map (said_of_value (world_of world.now))
        (flat_map (prop_value (world_of world.now) owner) props.now)) }
{
    let mut more = rows;
    for prop in props {
        more = add_value(alloc, world, owner, prop, more)?;
    }
    Ok(more)
}

/// Adds what is noted of the first values of a declaration, which stands after `shape` shapes.
#[tactic(auto, unfolding(sw_typing_rules::specs::Programs::values_of))]
fn add_values_of(
    alloc: Global,
    world: &Decls,
    shape: u32,
    decl: &Decl,
    rows: Rows,
) -> Result<Rows, AllocError>
    ensures { IfOk result (λ more. more ≡ rows ++ flat_map (said_of_value (world_of world.now))
        (values_of (world_of world.now) shape decl.now)) }
{
    match decl {
        Decl::Class { props, .. } | Decl::Actor { props, .. } => {
            add_props(alloc, world, Some(shape), props.as_slice(), rows)
        }
        Decl::Global(global) => add_value(alloc, world, None, global, rows),
        Decl::Entry { .. }
        | Decl::Struct { .. }
        | Decl::Enum { .. }
        | Decl::GlobalActor { .. }
        | Decl::Func(_) => Ok(rows),
    }
}

/// Adds what is noted of the first values of a program.
fn add_values(alloc: Global, world: &Decls, decls: &[Decl], rows: Rows) -> Result<Rows, AllocError>
    requires { length decls.now < 2 ^ 31 }
    ensures { IfOk result (λ more. more ≡ rows ++ flat_map (said_of_value (world_of world.now))
        (values_from (world_of world.now) 0 decls.now)) }
{
    let mut more = rows;
    let mut shape = 0;
    for decl in decls {
        more = add_values_of(alloc, world, shape, decl, more)?;
        shape += shapes_made(decl);
    }
    Ok(more)
}

/// All that is noted of a program's nodes.
pub fn rows_of_program(alloc: Global, world: &Decls, decls: &[Decl]) -> Result<Rows, AllocError>
    requires { length decls.now < 2 ^ 31 }
    ensures { IfOk result (λ rows. rows ≡ said (world_of world.now) decls.now) }
{
    let rows = add_bodies(alloc, world, decls, Rows::new(alloc))?;
    add_values(alloc, world, decls, rows)
}
