//! The outside of the tool: a shelf that files are fetched from, and a sink that output is written
//! to. Each has a form in memory, for tests and for callers without a file system, and one over the
//! system. The crate knows names and bytes, and nothing of programs, commands or replies.
#![tactic(auto)]

mod file_shelf;
#[cfg(test)]
mod file_shelf_tests;
mod mem_shelf;
mod mem_sink;
mod reading;
#[cfg(test)]
mod reading_tests;
mod shelf;
mod sink;
mod std_sink;
#[cfg(test)]
mod std_sink_tests;
mod steady_shelf;
mod steady_sink;
#[cfg(test)]
mod steady_tests;
mod stored_files;

pub use file_shelf::FileShelf;
pub use mem_shelf::MemShelf;
pub use mem_sink::MemSink;
pub use shelf::{FetchFault, Shelf};
pub use sink::{Sink, SinkFault};
pub use std_sink::StdSink;
pub use steady_shelf::SteadyShelf;
pub use steady_sink::SteadySink;
