//! What holds of programs that keep the rules on declarations and on types: where their
//! declarations, members and names stand, that each type that they use is declared, and that at
//! most one thing is said of a key. It has definitions and lemmas alone, for the laws on the graphs
//! of programs. It knows nothing of code.
#![tactic(auto)]

mod laws;

pub use laws::keys_have_one_type_and_one_meaning;
