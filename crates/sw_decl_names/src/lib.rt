//! Names that are declared twice in one scope (E301), and the breaches of names and written types
//! (E301, E302) in bodies. It knows no declarations.
#![tactic(auto)]

mod bodies;
mod repeats;

pub use bodies::{bad_attribute, bad_type, in_body, in_expr};
pub use repeats::{Places, add_repeats};
