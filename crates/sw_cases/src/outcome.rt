ghost use Rattle.std.specs.Prelude.{◌≡◌, ◌↔◌, IsTrue, Some, IfSome};

use crate::case::Case;
use std::alloc::{AllocError, Global};
use sw_outside::{MemShelf, MemSink};
use sw_see::Exit;

/// The program of which a call is.
#[derive(Clone, Copy)]
pub enum Program {
    /// `swiftcheck`
    Check,
    /// `swiftcheck_see`
    See,
}

impl Program {
    /// Answers words over files in memory, and writes the reply into a sink in memory.
    fn run_words(
        self,
        alloc: Global,
        words: &Vec<String>,
        shelf: &mut MemShelf,
        sink: &mut MemSink,
    ) -> Exit {
        match self {
            Program::Check => sw_check::run_words(alloc, words, shelf, sink),
            Program::See => sw_see::run_words(alloc, words, shelf, sink),
        }
    }
}

/// The files of a case in memory.
fn shelf_of(alloc: Global, case: &Case) -> Result<MemShelf, AllocError> {
    let mut shelf = MemShelf::new(alloc, case.fails.as_slice())?;
    for file in &case.files {
        shelf.add(file.name.as_str(), file.bytes.as_slice())?;
    }
    Ok(shelf)
}

/// The exit status of a call, and the bytes that it wrote.
#[derive(Drop)]
pub struct Outcome {
    pub exit: u8,
    pub bytes: Vec<u8>,
}

impl Outcome {
    /// Makes the call of a case over its files in memory.
    pub fn of(alloc: Global, program: Program, case: &Case) -> Result<Outcome, AllocError> {
        let mut shelf = shelf_of(alloc, case)?;
        let sink = &case.sink;
        let mut sink = MemSink::new(alloc, sink.step.max(1), sink.fails.as_slice(), sink.room)?;
        let exit = program
            .run_words(alloc, &case.words, &mut shelf, &mut sink)
            .status();
        let bytes = Vec::from_slice(alloc, sink.bytes())?;
        Ok(Outcome { exit, bytes })
    }

    /// Whether these are the bytes, and the exit where one is given.
    pub fn is_reply(&self, exit: Option<u8>, bytes: &[u8]) -> bool
        ensures { IsTrue result
            ↔ (IfSome exit (λ status. status ≡ self.now.exit)
            × (self.now.bytes.items ≡ bytes.now)) }
    {
        exit.unwrap_or(self.exit) == self.exit && self.bytes.as_slice() == bytes
    }

    /// The bytes as a text to print.
    pub fn text(&self) -> &str {
        match str::from_utf8(self.bytes.as_slice()) {
            Ok(text) => text,
            Err(_) => "(not UTF-8)",
        }
    }
}
