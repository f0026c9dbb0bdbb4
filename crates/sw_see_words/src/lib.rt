//! The words of the command line of `swiftcheck_see`, and what they ask for. The crate knows the
//! commands, their arguments and options. It knows nothing of what a command does.
#![tactic(auto)]

mod command;
mod reading;
mod tool;

pub use command::{Action, Command};
pub use reading::read;
