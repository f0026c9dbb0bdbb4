//! Laws, without code: what lowering makes of a program is bounded by the size of the program's
//! tree, whether the program keeps the rules or not. It knows nothing of texts.
#![tactic(auto)]

mod laws;

pub use laws::bodies_are_short;
