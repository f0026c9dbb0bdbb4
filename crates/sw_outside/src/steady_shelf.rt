ghost use Rattle.std.specs.Prelude.{◌≡◌, ◌≢◌, ℕ, List, Some, [], ◌<◌, ◌≤◌, length, OnOk, OnErr};
ghost use Rattle.std.specs.Prelude.{IfOk, IsErrOf};
ghost use Rattle.sw_outside.specs.Shelf.{file_of, with_file};
ghost use Rattle.sw_outside.specs.SteadyShelf.{SteadyState, after_answer};

use crate::shelf::{FetchFault, Shelf};
use crate::stored_files::{StoredFiles, copy_within};
use std::alloc::{AllocError, Global};
use std::marker::Model;

/// Files in memory of which each fetch can be read: a name that no file has stands for the empty
/// file. It counts no fault.
#[derive(Drop)]
pub struct SteadyShelf {
    stored: StoredFiles,
    received: usize,
}

impl Model for SteadyShelf {
    ghost use Rattle.sw_outside.specs.SteadyShelf.{SteadyState};

    ghost Value = { SteadyState };

    ghost view = { λ s. record { known = s.stored; received = s.received } };
}

impl SteadyShelf {
    /// A shelf without files, which keeps the allocator.
    pub fn new(alloc: Global) -> SteadyShelf
        ensures { result ≡ record { known = record { files = []; requested = [] }; received = 0 } }
    {
        SteadyShelf {
            stored: StoredFiles::new(alloc),
            received: 0,
        }
    }

    /// Adds a file, or replaces the one of its name.
    #[tactic(auto, using(crate::proofs::FileLemmas::added, crate::proofs::FileLemmas::others))]
    pub fn add(&mut self, name: &str, bytes: &[u8]) -> Result<(), AllocError>
        ensures ok { OnOk result (self.new ≡ record self.old {
          known = record self.old.known {
            files = with_file name.now bytes.now self.old.known.files;
          };
        }) }
        ensures err { OnErr result (self.new ≡ self.old) }

        // So this file is under its name, and the other names keep theirs.
        ensures added { OnOk result (file_of self.new.known.files name.now ≡ bytes.now) }
        ensures others { OnOk result ((other : List ℕ) → other ≢ name.now
            → file_of self.new.known.files other ≡ file_of self.old.known.files other) }
    {
        self.stored.add(name, bytes)
    }

    /// Records a fetch that was answered.
    fn record_answer(&mut self, name: &str, received: usize) -> Result<(), AllocError>
        ensures ok { OnOk result (self.new ≡ after_answer name.now received self.old) }
        ensures err { OnErr result (self.new ≡ self.old) }
    {
        self.stored.request(name)?;
        self.received = received;
        Ok(())
    }
}

impl Shelf for SteadyShelf {
    ghost known = { λ s. Some s.known };

    ghost received = { λ s. s.received };

    ghost faults = { λ _. 0 };

    fn fetch(&mut self, alloc: Global, name: &str, limit: usize) -> Result<Vec<u8>, FetchFault>
        // No fetch fails.
        ensures never_fails { ¬ IsErrOf result FetchFault.Failed }

        // The shelf after a fetch.
        ensures after_ok { IfOk result
            (λ bytes. self.new ≡ after_answer name.now (length bytes.items) self.old) }
        ensures after_long { IsErrOf result FetchFault.TooLong
            → self.new ≡ after_answer name.now 0 self.old }
        ensures after_memory { IsErrOf result FetchFault.Memory → self.new ≡ self.old }

        ensures within { IfOk result (λ bytes. length bytes.items ≤ limit) }
        ensures found { IfOk result (λ bytes. bytes.items ≡ file_of self.old.known.files name.now) }
        ensures long_known { IsErrOf result FetchFault.TooLong
            → limit < length (file_of self.old.known.files name.now) }
    {
        let contents = self.stored.file(name);
        match copy_within(alloc, contents, limit)? {
            Some(bytes) => {
                let received = bytes.len();
                self.record_answer(name, received)?;
                Ok(bytes)
            }
            None => {
                self.record_answer(name, 0)?;
                Err(FetchFault::TooLong)
            }
        }
    }
}
