//! A page of HTML that stands alone: the lines of a program with its breaches below them, and a
//! picture. The crate knows nothing of how breaches are found and pictures are made.
#![tactic(auto)]

mod html;

pub use html::page;
