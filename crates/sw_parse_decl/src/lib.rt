//! The parser of declarations and of whole programs, over any parser of what stands in them: a
//! `Bodies` reads the values of variables and the blocks of functions. This crate knows the
//! grammar's rules for declarations, each a function that follows it, how names are interned before
//! a tree is read, and which enums the optionals of a program add to it. It knows nothing of
//! expressions and statements, and nothing of what trees mean.
#![tactic(auto)]

mod bodies;
mod decls;
mod entry;
mod enums;
mod fault;
mod functions;
mod isolations;
mod kinds;
mod laws;
mod members;
mod names;
mod programs;
mod types;

pub use bodies::Bodies;
pub use fault::ParseFault;
pub use laws::{texts_have_ids, tokens_have_one_answer};
pub use names::intern_names;
pub use programs::{MAX_NESTS, program};
