//! The code for what names mean: variables, properties, global variables, calls and what is made.
//! It knows nothing of expressions.
#![tactic(auto)]

mod calls;
mod capturing;
mod finding;
mod giving;
mod globals;
mod parts;
mod variables;
mod words;

pub use calls::{call_closure, call_func, make, make_value};
pub use capturing::captures;
pub use finding::{shape_at, shape_of, type_of};
pub use giving::emit_value;
pub use globals::read_global;
pub use parts::read_part;
pub use variables::{read_var, write_var};
pub use words::{read_own, read_self, read_word};
