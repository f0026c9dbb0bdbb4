//! The work of each form of expression stands where its code is. It has lemmas alone, one for each
//! form. It knows nothing of statements, of values, and of states and steps.
#![tactic(auto)]
