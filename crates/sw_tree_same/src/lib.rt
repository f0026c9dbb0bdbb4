//! The machine on the written tree and the machine on a graph do the same, item for item, if the
//! tree's work stands in the graph: their states match after each item, and its events are equal. It
//! has definitions and lemmas alone. It knows nothing of how a graph is made of a tree, and of what
//! makes a program meet what is asked here.
#![tactic(auto)]
