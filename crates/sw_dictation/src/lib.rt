//! Texts that are made of lines of numbers in decimal, with a blank between two numbers. A
//! `LineForm` says which lines may stand behind which, and so where a text goes wrong: at the first
//! byte with which no text goes on. Here are the definitions, the reading of one number of those
//! that may stand at a place, and the lemmas that lead from numbers to the place at which a whole
//! text goes wrong. Nothing here knows of a particular form.
#![tactic(auto)]

mod choice;

pub use choice::{number, spoken};
