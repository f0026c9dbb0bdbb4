//! Data races on the written tree: which location a job is about to access, and when two jobs race.
//! If the states of both machines match and the tree's races, so does the graph's. It has definitions
//! and lemmas alone. It knows nothing of how a graph is made of a tree, and of programs that are
//! accepted.
#![tactic(auto)]
