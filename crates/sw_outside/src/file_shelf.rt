ghost use Rattle.std.specs.Prelude.{◌≡◌, ◌+◌, ◌≤◌, ◌<◌, length, IfOk, OnOk, IsErrOf, option_map, ⊤};
ghost use Rattle.sw_outside.specs.Rise.{Rose, raised};
ghost use Rattle.sw_outside.specs.Shelf.{with_request, unknown};

use crate::reading::{ReadFault, read_whole};
use crate::shelf::{FetchFault, Shelf};
use std::alloc::Global;
use std::fs;
use std::marker::Model;
use std::rt::Files;

/// The files of the system. Their contents are unknown.
#[derive(Drop)]
pub struct FileShelf<'a, R> {
    rt: &'a R,
    received: usize,
    faults: u64,
}

impl<'a, R> Model for FileShelf<'a, R> {
    ghost use Rattle.sw_outside.specs.Counts.{Counts};

    ghost Value = { Counts };

    ghost view = { λ s. record { received = s.received; faults = s.faults } };
}

impl<'a, R: Files> FileShelf<'a, R> {
    /// The files that `rt` reaches, with no fault counted.
    pub fn new(rt: &'a R) -> FileShelf<'a, R>
        ensures { result ≡ record { received = 0; faults = 0 } }
    {
        FileShelf {
            rt,
            received: 0,
            faults: 0,
        }
    }

    /// Counts a fault of the system in a fetch that received this number of bytes.
    fn fail(&mut self, received: usize) -> FetchFault
        ensures fault { result ≡ FetchFault.Failed }
        ensures counts { self.new
            ≡ record { received = received; faults = raised self.old.faults } }
        ensures never_falls { self.old.faults ≤ self.new.faults }
    {
        self.received = received;
        self.faults = self.faults.saturating_add(1);
        FetchFault::Failed
    }
}

impl<R: Files> Shelf for FileShelf<'_, R> {
    ghost known = { λ _. unknown };

    ghost received = { λ s. s.received };

    ghost faults = { λ s. s.faults };

    fn fetch(&mut self, alloc: Global, name: &str, limit: usize) -> Result<Vec<u8>, FetchFault>
        // The bytes received are those that are returned, and never more than one above the limit.
        ensures received_ok { IfOk result (λ bytes. self.new.received ≡ length bytes.items) }
        ensures received_long { IsErrOf result FetchFault.TooLong → self.new.received ≡ limit + 1 }
        ensures received_failed { IsErrOf result FetchFault.Failed → self.new.received ≤ limit + 1 }
        ensures one_fault { IsErrOf result FetchFault.Failed
            → self.new.faults ≡ raised self.old.faults }

        // Two of the trait's clauses on known contents, which say nothing here.
        ensures requested_ok { OnOk result (unknown ≡ option_map (with_request name.now) unknown) }
        ensures found { OnOk result ⊤ }

        ensures never_falls { self.old.faults ≤ self.new.faults }
        ensures failed { IsErrOf result FetchFault.Failed → Rose self.old.faults self.new.faults }
        ensures steady_ok { OnOk result (self.new.faults ≡ self.old.faults) }
        ensures steady_long { IsErrOf result FetchFault.TooLong
            → self.new.faults ≡ self.old.faults }
        ensures memory_received { IsErrOf result FetchFault.Memory
            → self.new.received ≡ self.old.received }
        ensures memory_faults { IsErrOf result FetchFault.Memory
            → self.new.faults ≡ self.old.faults }
        ensures within { IfOk result (λ bytes. length bytes.items ≤ limit) }
        ensures long_unknown { IsErrOf result FetchFault.TooLong
            → limit < self.new.received }
    {
        let Ok(mut file) = fs::open(self.rt, name) else {
            return Err(self.fail(0));
        };
        let mut bytes = Vec::new(alloc);
        match read_whole(&mut file, limit, &mut bytes) {
            Ok(whole) => {
                self.received = bytes.len();
                if whole {
                    Ok(bytes)
                } else {
                    Err(FetchFault::TooLong)
                }
            }
            Err(ReadFault::Failed) => Err(self.fail(bytes.len())),
            Err(ReadFault::Memory) => Err(FetchFault::Memory),
        }
    }
}
