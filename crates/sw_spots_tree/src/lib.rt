//! The work of each expression, each statement and each block stands where its code is. It has
//! definitions and lemmas alone. It knows nothing of what makes a program meet what is asked of its
//! trees, of values, and of states and steps.
#![tactic(auto)]
