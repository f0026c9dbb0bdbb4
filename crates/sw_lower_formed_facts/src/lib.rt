//! Laws, without code: the functions that are made of the bodies of a program are those of a
//! well-formed graph. It knows nothing of how a program is gone through.
#![tactic(auto)]

mod laws;

pub use laws::programs_have_well_formed_graphs;
