//! What holds of all that is noted of a tree, because it holds of the notes that each form adds and
//! of notes put after notes. It has definitions and lemmas alone, for the laws on the graphs of
//! programs. It knows nothing of any particular property, and nothing of code.
#![tactic(auto)]
