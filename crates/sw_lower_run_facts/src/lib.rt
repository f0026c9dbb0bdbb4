//! What the run of code does to a function that is being made: which blocks it leaves as they are, and
//! what each step makes. It has definitions and lemmas alone, and knows nothing of the machine.
#![tactic(auto)]
