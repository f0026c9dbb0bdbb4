use crate::ty::{Ty, TyList};
use sw_list::ListOf;

/// The stored properties of a type, in order.
pub type PartList = ListOf<Part>;

/// The cases of an enum, in order.
pub type CaseList = ListOf<CaseShape>;

/// The shapes of a program, by number.
pub type ShapeList = ListOf<Shape>;

/// Which kind of declaration a shape comes from.
#[derive(Clone, Copy, Debug, PartialEq, Eq)]
pub enum ShapeKind {
    Struct,
    Enum,
    Class,
    Actor,
}

/// A stored property: its name (an index into the program's names), whether it is a `var`, and its
/// type.
#[derive(Debug, Drop)]
pub struct Part {
    pub name: u32,
    pub mutable: bool,
    pub ty: Ty,
}

/// A case of an enum: its name (an index into the program's names) and the types of its payload.
#[derive(Debug, Drop)]
pub struct CaseShape {
    pub name: u32,
    pub payload: TyList,
}

/// A declared struct, enum, class or actor.
#[derive(Debug, Drop)]
pub struct Shape {
    pub kind: ShapeKind,
    /// The byte offset of its word.
    pub at: u32,
    /// Whether it declares that it conforms to `Sendable`.
    pub conforms: bool,
    /// The global actor that it is annotated with, by number.
    pub actor: Option<u32>,
    pub parts: PartList,
    pub cases: CaseList,
}
