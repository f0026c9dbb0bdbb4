//! A function of a graph while code for it is made, within the limits of a graph's functions. It
//! knows how each step changes the function and nothing of what the code is for.
#![tactic(auto)]

mod draft;
mod lookups;
mod numbers;
mod steps;

pub use draft::Draft;
pub use numbers::NumberTable;
