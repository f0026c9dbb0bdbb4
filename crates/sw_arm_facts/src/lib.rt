//! A law, without code: each `if` in the declarations of a spelling has an arm. The crate knows no
//! parser.
#![tactic(auto)]

mod laws;

pub use laws::spelled_ifs_have_arms;
