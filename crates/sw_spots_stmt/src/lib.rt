//! The work of each form of statement stands where its code is. It has lemmas alone, one for each
//! form. It knows nothing of expressions but that their work stands, of values, and of states and
//! steps.
#![tactic(auto)]
