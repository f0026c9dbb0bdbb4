//! The grammar of programs as forms. This crate knows which tokens spell which trees, and that
//! tokens spell one program or have one unexpected token or end. It knows no parser, and nothing of
//! what a program means.
#![tactic(auto)]

mod laws;

pub use laws::{
    grammar_sets_have_their_tokens, spellings_have_a_depth, spellings_have_one_meaning,
};
