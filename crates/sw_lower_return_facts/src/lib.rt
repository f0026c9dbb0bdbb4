//! Laws, without code: the functions of a program return their results. It knows nothing of how a
//! program is gone through.
#![tactic(auto)]

mod laws;

pub use laws::functions_return_their_results;
