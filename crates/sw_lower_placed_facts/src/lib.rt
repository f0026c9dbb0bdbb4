//! Laws, without code: where calls, accesses, initialisers, closures and tasks of programs stand.
//! It knows nothing of how a program is gone through.
#![tactic(auto)]

mod laws;

pub use laws::{graphs_are_clean, graphs_are_placed, keys_have_one_kind};
