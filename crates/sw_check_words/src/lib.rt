//! The words of the command line, and what they ask for. The crate knows the commands, their
//! arguments and the option for the default of asynchronous functions. It knows nothing of what a
//! command does.
#![tactic(auto)]

mod actors;
mod command;
mod reading;
mod tool;
mod words;

pub use command::{Action, Command};
pub use reading::read;
