//! What is noted of expressions and statements: the one walk over bodies and first values, by the
//! rules of `sw_isolation_rules`. It knows nothing of declarations, and nothing of what the notes
//! are read for.
#![tactic(auto)]

mod places;
mod walk;

pub use walk::{block, expr};
