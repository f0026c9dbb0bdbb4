ghost use Rattle.std.specs.Prelude.{◌≡◌, ℕ, Option, ◌<◌, ◌≤◌, length, option_map, IfOk, OnOk};
ghost use Rattle.std.specs.Prelude.{IfSome, IfNone, IsErrOf};
ghost use Rattle.sw_outside.specs.declared.shelf.FetchFault.TheVariants.{Memory};
ghost use Rattle.sw_outside.specs.Rise.{Rose};
ghost use Rattle.sw_outside.specs.Shelf.{KnownShelf, file_of, with_request};

use std::alloc::{AllocError, AllocFailed, Global};
use thiserror::Error;

/// Why a fetch gives no file.
#[derive(Clone, Copy, Debug, PartialEq, Eq, Error)]
pub enum FetchFault {
    /// The outside failed, and the shelf counted it.
    #[error("the file cannot be read")]
    Failed,
    /// The file is longer than the limit of the fetch.
    #[error("the file is too long")]
    TooLong,
    #[error("out of memory")]
    Memory,
}

impl From<AllocError> for FetchFault {
    ghost from_gives = { λ _ e. e ≡ Memory };

    fn from(_: AllocError) -> Self {
        FetchFault::Memory
    }
}

impl<T: Drop> From<AllocFailed<T>> for FetchFault {
    ghost from_gives = { λ _ e. e ≡ Memory };

    fn from(_: AllocFailed<T>) -> Self {
        FetchFault::Memory
    }
}

/// Files by name. A fetch reads a file and changes none.
pub trait Shelf {
    /// The files, and the names requested so far; `None` where the contents are unknown.
    ghost known: { Self → Option KnownShelf };

    /// The number of bytes that the last fetch received.
    ghost received: { Self → ℕ };

    /// The number of faults of the outside, in a counter of 64 bits that stays at its last value.
    ghost faults: { Self → ℕ };

    /// The bytes of a file of at most `limit` bytes. Every fetch but one that runs out of memory
    /// adds its name to those requested.
    fn fetch(&mut self, alloc: Global, name: &str, limit: usize) -> Result<Vec<u8>, FetchFault>
        // Only a fault of the outside raises the count.
        ensures never_falls { faults self.old ≤ faults self.new }
        ensures failed { IsErrOf result FetchFault.Failed
            → Rose (faults self.old) (faults self.new) }
        ensures steady_ok { OnOk result (faults self.new ≡ faults self.old) }
        ensures steady_long { IsErrOf result FetchFault.TooLong
            → faults self.new ≡ faults self.old }

        // The files stay, and the name is added.
        ensures requested_ok { OnOk result
            (known self.new ≡ option_map (with_request name.now) (known self.old)) }
        ensures requested_failed { IsErrOf result FetchFault.Failed
            → known self.new ≡ option_map (with_request name.now) (known self.old) }
        ensures requested_long { IsErrOf result FetchFault.TooLong
            → known self.new ≡ option_map (with_request name.now) (known self.old) }

        // Out of memory, the shelf stays as it was.
        ensures memory_known { IsErrOf result FetchFault.Memory → known self.new ≡ known self.old }
        ensures memory_received { IsErrOf result FetchFault.Memory
            → received self.new ≡ received self.old }
        ensures memory_faults { IsErrOf result FetchFault.Memory
            → faults self.new ≡ faults self.old }

        // The bytes that are returned, and when the file is too long.
        ensures within { IfOk result (λ bytes. length bytes.items ≤ limit) }
        ensures found { IfOk result
            (λ bytes. IfSome (known self.old) (λ t. bytes.items ≡ file_of t.files name.now)) }
        ensures long_known { IsErrOf result FetchFault.TooLong
            → IfSome (known self.old) (λ t. limit < length (file_of t.files name.now)) }
        ensures long_unknown { IsErrOf result FetchFault.TooLong
            → IfNone (known self.old) (limit < received self.new) };
}
