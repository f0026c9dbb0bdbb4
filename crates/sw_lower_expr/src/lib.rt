//! The code of expressions, and of assignments to them. It knows nothing of statements.
#![tactic(auto)]

mod closures;
mod keys;
mod operators;
mod places;
mod values;
mod walk;

pub use keys::key_of;
pub use places::write;
pub use walk::expr;
