//! Why a line isn't read.

use std::alloc::AllocError;

/// Why a line isn't read.
#[derive(Clone, Copy, Debug, PartialEq, Eq)]
pub(crate) enum Slip {
    /// At this byte the text stops being the beginning of one.
    Bad { at: usize },
    Memory,
}

impl From<AllocError> for Slip {
    ghost use Rattle.std.specs.Prelude.{◌≡◌};
    ghost use Rattle.sw_cert.specs.declared.slip.Slip.{Slip};

    ghost from_gives = { λ _ slip. slip ≡ Slip.Memory };

    fn from(_error: AllocError) -> Slip {
        Slip::Memory
    }
}
