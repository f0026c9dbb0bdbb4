//! The work of each body of a program that is found by its name stands in the body's function. It has
//! definitions and lemmas alone. It knows nothing of texts, of values, and of states and steps.
#![tactic(auto)]
