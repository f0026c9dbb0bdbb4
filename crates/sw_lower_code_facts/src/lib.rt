//! What holds of the code of every expression and of every block, because the steps of code have it
//! and code put after code keeps it. It has definitions and lemmas alone, for the laws on the graphs
//! of programs. It knows nothing of any particular property.
#![tactic(auto)]
