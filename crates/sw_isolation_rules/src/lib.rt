//! The rules of isolation: how each call crosses, where isolated storage may be read and written
//! (E501 to E505), what each closure captures, and what may not be shared (E601 to E606). They
//! stand in specs/ as definitions; this crate has the types that they speak of, the rules that look
//! nothing up, and the laws, and no code that goes over a program.
#![tactic(auto)]

mod laws;
mod merging;
mod note;
mod rules;
mod uses;

pub use laws::{
    breaches_have_codes_of_their_own, calls_are_of_what_is_meant, calls_have_kinds,
    calls_inside_have_kinds, captures_are_outer_variables, closures_run_apart,
    crossing_reads_have_kinds, expressions_are_noted_by_key, kinds_are_those_of_placed_graphs,
    kinds_are_those_of_the_table, merged_breaches_are_one_list,
    storage_is_inside_in_its_own_isolation, uses_are_refused_once,
};
pub use merging::merged;
pub use note::{BodyIso, Capture, Captured, Kinded, Mention, Note};
pub use rules::{accessor, inherited, is_outside, is_own, is_strong, kind_of, needs_await};
pub use uses::{Base, Callee, Context, Storage, Used};
