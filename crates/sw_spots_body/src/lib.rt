//! The work of each form of body stands at the first spot of the body's function: of functions,
//! methods, closures and tasks, of initialisers, of getters, and of what gives a first value. It has
//! lemmas alone. It knows nothing of expressions and statements but that their work stands, of values,
//! and of states and steps.
#![tactic(auto)]
