//! The machine on the written tree of a program that keeps the rules does what the machine on the
//! program's graph does. It has definitions and lemmas alone. It knows nothing of texts, and of how
//! code is gone through.
#![tactic(auto)]
