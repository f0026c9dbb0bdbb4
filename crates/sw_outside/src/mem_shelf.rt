ghost use Rattle.std.specs.Prelude.{◌≡◌, ◌≢◌, List, ℕ, Some, [], ◌<◌, ◌≤◌, length, IsTrue};
ghost use Rattle.std.specs.Prelude.{IfNone, IfOk, OnOk, OnErr, IsErrOf};
ghost use Rattle.sw_outside.specs.MemShelf.{ShelfState, fails_at, after_fetch};
ghost use Rattle.sw_outside.specs.Rise.{Rose, raised};
ghost use Rattle.sw_outside.specs.Shelf.{with_request, file_of, with_file};

use crate::shelf::{FetchFault, Shelf};
use crate::stored_files::{StoredFiles, copy_within};
use std::alloc::{AllocError, Global};
use std::marker::Model;

/// Files in memory. A fetch of a name that no file has fails, as does one whose number, from 0, is
/// among those that were passed to `new`; a fetch that runs out of memory has no number.
#[derive(Drop)]
pub struct MemShelf {
    stored: StoredFiles,
    fails: Vec<u64>,
    received: usize,
    faults: u64,
}

impl Model for MemShelf {
    ghost use Rattle.sw_outside.specs.MemShelf.{ShelfState};

    ghost Value = { ShelfState };

    ghost view = { λ s. record {
      known = s.stored;
      fails = s.fails.items;
      received = s.received;
      faults = s.faults;
    } };
}

impl MemShelf {
    /// A shelf without files, which keeps the allocator.
    pub fn new(alloc: Global, fails: &[u64]) -> Result<MemShelf, AllocError>
        ensures { IfOk result (λ shelf. shelf ≡ record {
          known = record { files = []; requested = [] };
          fails = fails.now;
          received = 0;
          faults = 0;
        }) }
    {
        Ok(MemShelf {
            stored: StoredFiles::new(alloc),
            fails: Vec::from_slice(alloc, fails)?,
            received: 0,
            faults: 0,
        })
    }

    /// Adds a file, or replaces the one of its name.
    #[tactic(auto, using(crate::proofs::FileLemmas::added, crate::proofs::FileLemmas::others))]
    pub fn add(&mut self, name: &str, bytes: &[u8]) -> Result<(), AllocError>
        ensures ok { OnOk result (self.new ≡ record self.old {
          known = record self.old.known {
            files = with_file name.now bytes.now self.old.known.files;
          };
        }) }
        ensures err { OnErr result (self.new ≡ self.old) }

        // So this file is under its name, and the other names keep theirs.
        ensures added { OnOk result (file_of self.new.known.files name.now ≡ bytes.now) }
        ensures others { OnOk result ((other : List ℕ) → other ≢ name.now
            → file_of self.new.known.files other ≡ file_of self.old.known.files other) }
    {
        self.stored.add(name, bytes)
    }

    /// A copy of the file, or why there is none.
    #[tactic(auto, unfolding(crate::specs::Shelf::file_of))]
    fn copy_of(&self, alloc: Global, name: &str, limit: usize) -> Result<Vec<u8>, FetchFault>
        ensures ok { OnOk result (¬ IsTrue (fails_at self.now name.now)) }
        ensures found { IfOk result (λ bytes. bytes.items ≡ file_of self.now.known.files name.now) }
        ensures within { IfOk result (λ bytes. length bytes.items ≤ limit) }
        ensures failed { IsErrOf result FetchFault.Failed → IsTrue (fails_at self.now name.now) }
        ensures long { IsErrOf result FetchFault.TooLong → ¬ IsTrue (fails_at self.now name.now) }
        ensures above { IsErrOf result FetchFault.TooLong
            → limit < length (file_of self.now.known.files name.now) }
    {
        let number = self.stored.requests() as u64;
        let bytes = self.stored.find(name).ok_or(FetchFault::Failed)?;
        if self.fails.contains(&number) {
            return Err(FetchFault::Failed);
        }
        copy_within(alloc, bytes, limit)?.ok_or(FetchFault::TooLong)
    }

    /// Records a fetch that was answered.
    fn record_fetch(&mut self, name: &str, received: usize, faults: u64) -> Result<(), AllocError>
        ensures ok { OnOk result (self.new ≡ after_fetch name.now received faults self.old) }
        ensures err { OnErr result (self.new ≡ self.old) }
    {
        self.stored.request(name)?;
        self.received = received;
        self.faults = faults;
        Ok(())
    }
}

impl Shelf for MemShelf {
    ghost known = { λ s. Some s.known };

    ghost received = { λ s. s.received };

    ghost faults = { λ s. s.faults };

    fn fetch(&mut self, alloc: Global, name: &str, limit: usize) -> Result<Vec<u8>, FetchFault>
        // Failed comes exactly where the number or the name makes the fetch fail.
        ensures passes { OnOk result (¬ IsTrue (fails_at self.old name.now)) }
        ensures fails { IsErrOf result FetchFault.Failed → IsTrue (fails_at self.old name.now) }
        ensures passes_long { IsErrOf result FetchFault.TooLong
            → ¬ IsTrue (fails_at self.old name.now) }

        // The shelf after a fetch.
        ensures after_ok { IfOk result
            (λ bytes. self.new
            ≡ after_fetch name.now (length bytes.items) self.old.faults self.old) }
        ensures after_failed { IsErrOf result FetchFault.Failed
            → self.new ≡ after_fetch name.now 0 (raised self.old.faults) self.old }
        ensures after_long { IsErrOf result FetchFault.TooLong
            → self.new ≡ after_fetch name.now 0 self.old.faults self.old }
        ensures after_memory { IsErrOf result FetchFault.Memory → self.new ≡ self.old }

        ensures never_falls { self.old.faults ≤ self.new.faults }
        ensures failed { IsErrOf result FetchFault.Failed → Rose self.old.faults self.new.faults }
        ensures steady_ok { OnOk result (self.new.faults ≡ self.old.faults) }
        ensures steady_long { IsErrOf result FetchFault.TooLong
            → self.new.faults ≡ self.old.faults }
        ensures requested_ok { OnOk result
            (Some self.new.known ≡ Some (with_request name.now self.old.known)) }
        ensures requested_failed { IsErrOf result FetchFault.Failed
            → Some self.new.known ≡ Some (with_request name.now self.old.known) }
        ensures requested_long { IsErrOf result FetchFault.TooLong
            → Some self.new.known ≡ Some (with_request name.now self.old.known) }
        ensures memory_known { IsErrOf result FetchFault.Memory
            → Some self.new.known ≡ Some self.old.known }
        ensures memory_received { IsErrOf result FetchFault.Memory
            → self.new.received ≡ self.old.received }
        ensures memory_faults { IsErrOf result FetchFault.Memory
            → self.new.faults ≡ self.old.faults }
        ensures within { IfOk result (λ bytes. length bytes.items ≤ limit) }
        ensures found { IfOk result (λ bytes. bytes.items ≡ file_of self.old.known.files name.now) }
        ensures long_known { IsErrOf result FetchFault.TooLong
            → limit < length (file_of self.old.known.files name.now) }
        ensures long_unknown { IsErrOf result FetchFault.TooLong
            → IfNone (Some self.old.known) (limit < self.new.received) }
    {
        match self.copy_of(alloc, name, limit) {
            Ok(bytes) => {
                let received = bytes.len();
                self.record_fetch(name, received, self.faults)?;
                Ok(bytes)
            }
            Err(FetchFault::Failed) => {
                self.record_fetch(name, 0, self.faults.saturating_add(1))?;
                Err(FetchFault::Failed)
            }
            Err(FetchFault::TooLong) => {
                self.record_fetch(name, 0, self.faults)?;
                Err(FetchFault::TooLong)
            }
            Err(FetchFault::Memory) => Err(FetchFault::Memory),
        }
    }
}
