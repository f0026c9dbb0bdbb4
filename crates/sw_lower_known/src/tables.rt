//! Tables by key, of lists in which the first with a key counts.
ghost use Rattle.std.specs.Prelude.{◌≡◌, ◌==◌, ◌++◌, ℕ, [], ◌∷◌, Some, None, flat_map, nat_eq};
ghost use Rattle.std.specs.Prelude.{if◌then◌else◌, IfOk, OnOk};
ghost use Rattle.std.specs.List.{filter};
ghost use Rattle.std.specs.Option.{unwrap_or};
ghost use Rattle.indexmap.specs.IndexMap.{get};
ghost use Rattle.indexmap.specs.IndexSet.{contains};
ghost use Rattle.sw_isolation_rules.specs.Captures.{is_among};
ghost use Rattle.sw_isolation_rules.specs.declared.note.Capture.{Capture};
ghost use Rattle.sw_lower_rules.specs.Tables.{body_with, prop_keys, shape_keys};

use indexmap::{IndexMap, IndexSet};
use std::alloc::{AllocError, Global};
use sw_isolation_rules::{BodyIso, Capture};
use sw_isolation_table::note_first;
use sw_list::ListOf;
use sw_tree::{Decl, PropTree};

/// The isolation of bodies by their keys.
pub fn isolations_of(
    alloc: Global,
    bodies: &[BodyIso],
) -> Result<IndexMap<u32, BodyIso>, AllocError>
    ensures { IfOk result (λ table. (key : ℕ) → get nat_eq table key ≡ body_with bodies.now key) }
{
    let mut table = IndexMap::new(alloc);
    for body in bodies {
        note_first(&mut table, body.key, *body)?;
    }
    Ok(table)
}

/// Adds a capture to those of its closure.
fn add_capture(
    alloc: Global,
    table: &mut IndexMap<u32, ListOf<Capture>>,
    capture: Capture,
) -> Result<(), AllocError>
    ensures { OnOk result ((key : ℕ) → unwrap_or (get nat_eq table.new key) []
        ≡ unwrap_or (get nat_eq table.old key) [] ++ (if capture.closure == key
        then capture ∷ [] else [])) }
{
    match table.get_mut(&capture.closure) {
        Some(captures) => captures.push(capture),
        None => {
            table.insert(capture.closure, ListOf::one(alloc, capture)?)?;
            Ok(())
        }
    }
}

/// The captures of each closure in order, by the keys of closures.
pub fn groups_of(
    alloc: Global,
    captures: &[Capture],
) -> Result<IndexMap<u32, ListOf<Capture>>, AllocError>
    ensures { IfOk result (λ table. (key : ℕ) → unwrap_or (get nat_eq table key) []
        ≡ filter (λ (one : Capture). one.closure == key) captures.now) }
{
    let mut table = IndexMap::new(alloc);
    for capture in captures {
        add_capture(alloc, &mut table, *capture)?;
    }
    Ok(table)
}

/// The keys of the variables that are kept in boxes.
pub fn boxes_of(alloc: Global, boxes: &[u32]) -> Result<IndexSet<u32>, AllocError>
    ensures { IfOk result (λ set. (key : ℕ) → contains nat_eq set key ≡ is_among boxes.now key) }
{
    let mut set = IndexSet::new(alloc);
    for key in boxes {
        set.insert(*key)?;
    }
    Ok(set)
}

/// The keys of properties in order.
fn prop_keys(alloc: Global, props: &[PropTree]) -> Result<ListOf<u32>, AllocError>
    ensures { IfOk result (λ keys. keys ≡ prop_keys props.now) }
{
    let mut keys = ListOf::new(alloc);
    for prop in props {
        keys.push(prop.word.at)?;
    }
    Ok(keys)
}

/// Adds the keys of the properties of the type that a declaration makes.
fn add_shape_keys(
    alloc: Global,
    decl: &Decl,
    keys: &mut ListOf<ListOf<u32>>,
) -> Result<(), AllocError>
    ensures { OnOk result (keys.new ≡ keys.old ++ shape_keys decl.now) }
{
    match decl {
        Decl::Struct { fields: props, .. }
        | Decl::Class { props, .. }
        | Decl::Actor { props, .. } => keys.push(prop_keys(alloc, props.as_slice())?),
        Decl::Enum { .. } => keys.push(ListOf::new(alloc)),
        Decl::Entry { .. } | Decl::GlobalActor { .. } | Decl::Func(_) | Decl::Global(_) => Ok(()),
    }
}

/// The keys of the properties of each type that a program declares.
pub fn part_keys_of(alloc: Global, decls: &[Decl]) -> Result<ListOf<ListOf<u32>>, AllocError>
    ensures { IfOk result (λ keys. keys ≡ flat_map shape_keys decls.now) }
{
    let mut keys = ListOf::new(alloc);
    for decl in decls {
        add_shape_keys(alloc, decl, &mut keys)?;
    }
    Ok(keys)
}
