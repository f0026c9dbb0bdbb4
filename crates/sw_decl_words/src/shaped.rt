//! The shapes of a program.
ghost use Rattle.std.specs.Prelude.{◌≡◌, ◌++◌, ◌<◌, ◌^◌, Some, length, map, nat_eq, IfOk, OnOk};
ghost use Rattle.indexmap.specs.IndexMap.{get};
ghost use Rattle.sw_decl_words.specs.Evident.{tabled};
ghost use Rattle.sw_decl_words.specs.Shaped.{case_of, part_of, prop_type, shape_of, shapes_from};
ghost use Rattle.sw_decl_words.specs.Shaped.{written_actor};

use crate::evidence::evident_type;
use crate::members::Members;
use crate::type_words::{type_of, types_of};
use crate::words::{Meaning, Words, shapes_made};
use std::alloc::{AllocError, Global};
use sw_list::ListOf;
use sw_tree::{CaseTree, Decl, PropTree, Written};
use sw_types::{CaseList, CaseShape, Part, PartList, Shape, ShapeKind, ShapeList, Ty};

/// The global actor that is written before a declaration, by number.
pub fn written_actor(words: &Words, written: Written) -> Option<u32>
    ensures { result ≡ written_actor (get nat_eq words.now.meanings) written }
{
    match written {
        Written::At(name) => match words.get(name.id) {
            Some(Meaning::GlobalActor(number)) => Some(number),
            Some(Meaning::Shape { .. } | Meaning::Func(_) | Meaning::Global(_) | Meaning::Entry)
            | None => None,
        },
        Written::Absent | Written::Nonisolated | Written::Concurrent | Written::Nonsending => None,
    }
}

/// The type of a property, inside a type, or of a global variable: the written one, or else the
/// evident one. Where it has neither it is `Void`.
pub fn prop_type(
    alloc: Global,
    words: &Words,
    members: &Members,
    owner: Option<u32>,
    prop: &PropTree,
) -> Result<Ty, AllocError>
    ensures { IfOk result (λ ty. ty
        ≡ prop_type (tabled words.now members.now) owner prop.now) }
{
    match &prop.ty {
        Some(tree) => type_of(alloc, words, tree),
        None => Ok(evident_type(words, members, owner, &prop.value).unwrap_or(Ty::Unit)),
    }
}

/// The stored properties of the type with this number.
fn parts_of(
    alloc: Global,
    words: &Words,
    members: &Members,
    number: u32,
    props: &[PropTree],
) -> Result<PartList, AllocError>
    ensures { IfOk result (λ parts. parts
        ≡ map (part_of (tabled words.now members.now) (Some number)) props.now) }
{
    let mut parts = ListOf::new(alloc);
    for prop in props {
        parts.push(Part {
            name: prop.word.id,
            mutable: prop.mutable,
            ty: prop_type(alloc, words, members, Some(number), prop)?,
        })?;
    }
    Ok(parts)
}

/// The cases of an enum.
fn cases_of(alloc: Global, words: &Words, cases: &[CaseTree]) -> Result<CaseList, AllocError>
    ensures { IfOk result (λ made. made ≡ map (case_of (get nat_eq words.now.meanings)) cases.now) }
{
    let mut made = ListOf::new(alloc);
    for case in cases {
        made.push(CaseShape {
            name: case.word.id,
            payload: types_of(alloc, words, case.types.as_slice())?,
        })?;
    }
    Ok(made)
}

/// Adds the shape that a declaration makes, with this number.
#[tactic(auto, unfolding(crate::specs::Shaped::shape_of))]
fn add_shape(
    alloc: Global,
    words: &Words,
    members: &Members,
    number: u32,
    decl: &Decl,
    shapes: &mut ShapeList,
) -> Result<(), AllocError>
    ensures { OnOk result (shapes.new
        ≡ shapes.old ++ shape_of (tabled words.now members.now) number decl.now) }
{
    match decl {
        Decl::Struct {
            word,
            conforms,
            fields,
            ..
        } => shapes.push(Shape {
            kind: ShapeKind::Struct,
            at: word.at,
            conforms: *conforms,
            actor: None,
            parts: parts_of(alloc, words, members, number, fields.as_slice())?,
            cases: ListOf::new(alloc),
        }),
        Decl::Enum {
            word,
            conforms,
            cases,
            ..
        } => shapes.push(Shape {
            kind: ShapeKind::Enum,
            at: word.at,
            conforms: *conforms,
            actor: None,
            parts: ListOf::new(alloc),
            cases: cases_of(alloc, words, cases.as_slice())?,
        }),
        Decl::Class {
            written,
            word,
            conforms,
            props,
            ..
        } => shapes.push(Shape {
            kind: ShapeKind::Class,
            at: word.at,
            conforms: *conforms,
            actor: written_actor(words, *written),
            parts: parts_of(alloc, words, members, number, props.as_slice())?,
            cases: ListOf::new(alloc),
        }),
        Decl::Actor { word, props, .. } => shapes.push(Shape {
            kind: ShapeKind::Actor,
            at: word.at,
            conforms: false,
            actor: None,
            parts: parts_of(alloc, words, members, number, props.as_slice())?,
            cases: ListOf::new(alloc),
        }),
        Decl::Entry { .. } | Decl::GlobalActor { .. } | Decl::Func(_) | Decl::Global(_) => Ok(()),
    }
}

/// The shapes of a program, by number. A word that names no type stands for `Void`.
pub fn shapes_of(
    alloc: Global,
    words: &Words,
    members: &Members,
    decls: &[Decl],
) -> Result<ShapeList, AllocError>
    requires { length decls.now < 2 ^ 31 }
    ensures { IfOk result (λ shapes. shapes
        ≡ shapes_from (tabled words.now members.now) 0 decls.now) }
{
    let mut shapes = ListOf::new(alloc);
    let mut number = 0;
    for decl in decls {
        add_shape(alloc, words, members, number, decl, &mut shapes)?;
        number += shapes_made(decl);
    }
    Ok(shapes)
}
