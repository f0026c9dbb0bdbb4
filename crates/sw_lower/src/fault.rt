use std::alloc::{AllocError, AllocFailed};
use thiserror::Error;

/// Why a program has no functions.
#[derive(Clone, Copy, Debug, PartialEq, Eq, Error)]
pub enum LowerFault {
    /// The first function that is too large, by its key.
    #[error("E{code} at {at}")]
    Breach { code: u16, at: u32 },
    /// What lowering asks for isn't known, or there is no number of 32 bits for a block or for a
    /// function. No program that was judged lacks it.
    #[error("what lowering asks for isn't known")]
    Missing,
    #[error("out of memory")]
    Memory,
}

impl From<AllocError> for LowerFault {
    ghost use Rattle.std.specs.Prelude.{◌≡◌};
    ghost use Rattle.sw_lower.specs.declared.fault.LowerFault.{LowerFault};

    ghost from_gives = { λ _ fault. fault ≡ LowerFault.Memory };

    fn from(_error: AllocError) -> LowerFault {
        LowerFault::Memory
    }
}

impl<T: Drop> From<AllocFailed<T>> for LowerFault {
    ghost use Rattle.std.specs.Prelude.{◌≡◌};
    ghost use Rattle.sw_lower.specs.declared.fault.LowerFault.{LowerFault};

    ghost from_gives = { λ _ fault. fault ≡ LowerFault.Memory };

    fn from(_error: AllocFailed<T>) -> LowerFault {
        LowerFault::Memory
    }
}
