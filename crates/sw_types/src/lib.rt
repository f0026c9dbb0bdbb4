//! Types of the language, shapes of declared types, and which types are Sendable. It knows nothing
//! of how types are spelled, and nothing of functions or values.
#![tactic(auto)]

mod acceptance;
mod holding;
mod isolation;
mod laws;
mod ordering;
mod shape;
mod shapes;
mod tables;
mod ty;

pub use acceptance::accepts;
pub use isolation::{CallKind, Iso};
pub use laws::{ranked_shapes_hold_others, shapes_count_by_parts, shapes_send_by_parts};
pub use shape::{CaseList, CaseShape, Part, PartList, Shape, ShapeKind, ShapeList};
pub use shapes::{ShapeFault, Shapes, which_hold_themselves};
pub use ty::{Ty, TyList};
