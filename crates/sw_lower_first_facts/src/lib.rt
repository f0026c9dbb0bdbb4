//! Laws, without code: the functions that give a program's global variables their first values do
//! so, and read no global variable before. It knows nothing of how a program is gone through.
#![tactic(auto)]

mod laws;

pub use laws::first_values_are_given;
