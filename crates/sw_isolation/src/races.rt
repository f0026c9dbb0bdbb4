//! The values that may not be shared.
ghost use Rattle.std.specs.Prelude.{◌≡◌, ◌==◌, ◌++◌, ◌<◌, ◌^◌, ℕ, List, Some, None, nat_eq};
ghost use Rattle.std.specs.Prelude.{flat_map, length, map, IfOk, OnOk, if◌then◌else◌};
ghost use Rattle.indexmap.specs.IndexMap.{get};
ghost use Rattle.sw_isolation_table.specs.Known.{answers_of};
ghost use Rattle.sw_isolation_table.specs.Isolated.{IsIsolated};
ghost use Rattle.sw_isolation.specs.Unsent.{AreTypeNumbers, any_unsent};
ghost use Rattle.sw_isolation_rules.specs.Races.{AreRaces, breaks_promise, capture_races};
ghost use Rattle.sw_isolation_rules.specs.Races.{has_var, holds_unsent, is_unsent, sent_races};
ghost use Rattle.sw_isolation_rules.specs.Races.{shape_races, variable_type};
ghost use Rattle.sw_decl_words.specs.Words.{or_else};
ghost use Rattle.sw_tree.specs.declared.decl.Decl.{Decl};
ghost use Rattle.sw_types.specs.declared.shape.CaseShape.{CaseShape};
ghost use Rattle.sw_types.specs.declared.shape.Part.{Part};
ghost use Rattle.sw_typing_rules.specs.Worlds.{world_of};

use indexmap::IndexMap;
use std::alloc::{AllocError, Global};
use sw_decl_words::Placed;
use sw_decls::Decls;
use sw_isolation_rules::{Capture, merged};
use sw_isolation_steps::{marked_at, may_cross};
use sw_isolation_table::{Isolated, note_first};
use sw_list::ListOf;
use sw_types::{CaseShape, Part, Shape, ShapeKind, Ty};
use sw_typing_table::Typed;

/// A type that declares Sendable and isn't.
const BROKEN_PROMISE: u16 = 601;

/// A value that isn't Sendable, captured by a closure that may be sent.
const UNSENT_CAPTURE: u16 = 602;

/// A variable that a closure that may be sent captures by reference.
const SHARED_VARIABLE: u16 = 603;

/// The numbers of types by the keys of their words.
type ShapeNumbers = IndexMap<u32, u32>;

/// Whether one of these types isn't Sendable.
fn any_unsent(world: &Decls, types: &[Ty]) -> bool
    ensures { result ≡ any_unsent (world_of world.now).shapes types.now }
{
    let mut any = false;
    for ty in types {
        any = any || !may_cross(world, ty);
    }
    any
}

/// Whether the type of a part isn't Sendable.
fn parts_unsent(world: &Decls, parts: &[Part]) -> bool
    ensures { result ≡ any_unsent (world_of world.now).shapes
        (map (λ (part : Part). part.ty) parts.now) }
{
    let mut any = false;
    for part in parts {
        any = any || !may_cross(world, &part.ty);
    }
    any
}

/// Whether a type in the payload of a case isn't Sendable.
fn cases_unsent(world: &Decls, cases: &[CaseShape]) -> bool
    ensures { result ≡ any_unsent (world_of world.now).shapes
        (flat_map (λ (one : CaseShape). one.payload) cases.now) }
{
    let mut any = false;
    for case in cases {
        any = any || any_unsent(world, case.payload.as_slice());
    }
    any
}

/// Whether a type holds something that isn't Sendable.
fn holds_unsent(world: &Decls, shape: &Shape) -> bool
    ensures { result ≡ holds_unsent (world_of world.now) shape.now }
{
    parts_unsent(world, shape.parts.as_slice()) || cases_unsent(world, shape.cases.as_slice())
}

/// Whether a type has a `var`.
fn has_var(shape: &Shape) -> bool
    ensures { result ≡ has_var shape.now }
{
    let mut any = false;
    for part in shape.parts.as_slice() {
        any = any || part.mutable;
    }
    any
}

/// Whether a type that declares Sendable isn't.
fn breaks_promise(world: &Decls, shape: &Shape) -> bool
    ensures { result ≡ breaks_promise (world_of world.now) shape.now.kind shape.now }
{
    match shape.kind {
        ShapeKind::Struct | ShapeKind::Enum => holds_unsent(world, shape),
        ShapeKind::Class => {
            shape.actor.is_none() && (has_var(shape) || holds_unsent(world, shape))
        }
        ShapeKind::Actor => false,
    }
}

/// Adds the breach of a type that declares Sendable and isn't.
fn add_shape(world: &Decls, shape: &Shape, found: &mut ListOf<Placed>) -> Result<(), AllocError>
    ensures { OnOk result (found.new ≡ found.old ++ shape_races (world_of world.now) shape.now) }
{
    if shape.conforms && breaks_promise(world, shape) {
        found.push(Placed {
            at: shape.at,
            code: BROKEN_PROMISE,
        })?;
    }
    Ok(())
}

/// Adds the breaches of types that declare Sendable and aren't.
fn add_shapes(world: &Decls, found: &mut ListOf<Placed>) -> Result<(), AllocError>
    ensures { OnOk result (found.new ≡ found.old
        ++ flat_map (shape_races (world_of world.now)) (world_of world.now).shapes) }
{
    for shape in world.shapes.list().as_slice() {
        add_shape(world, shape, found)?;
    }
    Ok(())
}

/// The numbers of types by the keys of their words.
fn numbers_of(alloc: Global, shapes: &[Shape]) -> Result<ShapeNumbers, AllocError>
    requires { length shapes.now < 2 ^ 32 }
    ensures { IfOk result (AreTypeNumbers shapes.now) }
{
    let mut numbers = IndexMap::new(alloc);
    for (number, shape) in shapes.iter().enumerate() {
        note_first(&mut numbers, shape.at, number as u32)?;
    }
    Ok(numbers)
}

/// Whether the values of a variable aren't Sendable.
#[tactic(auto, unfolding(sw_isolation_rules::specs::Races::variable_type))]
fn is_unsent(world: &Decls, typed: &Typed, numbers: &ShapeNumbers, variable: u32) -> bool
    requires { AreTypeNumbers (world_of world.now).shapes numbers.now }
    ensures { result ≡ is_unsent (world_of world.now)
        (variable_type (world_of world.now) (answers_of typed.now) variable) }
{
    match typed.ty_at(variable) {
        Some(ty) => !may_cross(world, ty),
        None => match numbers.get(&variable) {
            Some(number) => !may_cross(world, &Ty::Named(*number)),
            None => false,
        },
    }
}

/// Adds the breach of a variable that is captured by a closure that may be sent.
fn add_sent(
    world: &Decls,
    typed: &Typed,
    numbers: &ShapeNumbers,
    capture: Capture,
    found: &mut ListOf<Placed>,
) -> Result<(), AllocError>
    requires { AreTypeNumbers (world_of world.now).shapes numbers.now }
    ensures { OnOk result (found.new ≡ found.old ++ sent_races (world_of world.now) capture
        (variable_type (world_of world.now) (answers_of typed.now) capture.variable)) }
{
    let at = capture.first;
    if capture.by_ref {
        found.push(Placed {
            at,
            code: SHARED_VARIABLE,
        })?;
    } else if is_unsent(world, typed, numbers, capture.variable) {
        found.push(Placed {
            at,
            code: UNSENT_CAPTURE,
        })?;
    }
    Ok(())
}

/// Adds the breach of a captured variable, where the closure may be sent.
#[tactic(auto, unfolding(sw_isolation_rules::specs::Races::capture_races))]
fn add_capture(
    world: &Decls,
    typed: &Typed,
    numbers: &ShapeNumbers,
    capture: Capture,
    found: &mut ListOf<Placed>,
) -> Result<(), AllocError>
    requires { AreTypeNumbers (world_of world.now).shapes numbers.now }
    ensures { OnOk result (found.new ≡ found.old
        ++ capture_races (world_of world.now) (answers_of typed.now) capture) }
{
    if marked_at(typed, capture.closure) {
        add_sent(world, typed, numbers, capture, found)?;
    }
    Ok(())
}

/// Adds the breaches of captured variables.
fn add_captures(
    world: &Decls,
    typed: &Typed,
    numbers: &ShapeNumbers,
    captures: &[Capture],
    found: &mut ListOf<Placed>,
) -> Result<(), AllocError>
    requires { AreTypeNumbers (world_of world.now).shapes numbers.now }
    ensures { OnOk result (found.new ≡ found.old
        ++ flat_map (capture_races (world_of world.now) (answers_of typed.now)) captures.now) }
{
    for capture in captures {
        add_capture(world, typed, numbers, *capture, found)?;
    }
    Ok(())
}

/// Adds breaches to others.
fn add_all(more: &[Placed], found: &mut ListOf<Placed>) -> Result<(), AllocError>
    ensures { OnOk result (found.new ≡ found.old ++ more.now) }
{
    for placed in more {
        found.push(*placed)?;
    }
    Ok(())
}

/// All values of a program that may not be shared (E601 to E606), by position and then by code,
/// each once. `isolated` is what is known of the isolation of the program, `world` its
/// declarations.
pub fn race_forms(
    alloc: Global,
    world: &Decls,
    typed: &Typed,
    isolated: &Isolated,
) -> Result<ListOf<Placed>, AllocError>
    requires { length (world_of world.now).shapes < 2 ^ 32 }
    ensures { (decls : List Decl)
        → IsIsolated (world_of world.now) (answers_of typed.now) decls isolated.now
        → IfOk result (AreRaces (world_of world.now) (answers_of typed.now) decls) }
{
    let numbers = numbers_of(alloc, world.shapes.list().as_slice())?;
    let mut found = ListOf::new(alloc);
    add_shapes(world, &mut found)?;
    add_all(isolated.crossings.as_slice(), &mut found)?;
    add_captures(
        world,
        typed,
        &numbers,
        isolated.captures.as_slice(),
        &mut found,
    )?;
    Ok(merged(found))
}
