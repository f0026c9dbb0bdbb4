use std::alloc::AllocError;
use thiserror::Error;

/// Why a body has no function.
#[derive(Clone, Copy, Debug, PartialEq, Eq, Error)]
pub enum BodyFault {
    /// The function with this key has more registers than a function of a graph.
    #[error("too many registers in the function at {function}")]
    TooManyRegisters { function: u32 },
    /// The function with this key has more points than a function of a graph.
    #[error("too many points in the function at {function}")]
    TooManyPoints { function: u32 },
    /// The function has more blocks than there are numbers of 32 bits. No program of a text has so
    /// many.
    #[error("too many blocks")]
    TooManyBlocks,
    /// The code asks for what isn't known. No program that was judged lacks it.
    #[error("what the code asks for isn't known")]
    Missing,
    #[error("out of memory")]
    Memory,
}

impl From<AllocError> for BodyFault {
    ghost use Rattle.std.specs.Prelude.{◌≡◌};
    ghost use Rattle.sw_lower_code.specs.declared.fault.BodyFault.TheVariants.{Memory};

    ghost from_gives = { λ _ fault. fault ≡ Memory };

    fn from(_error: AllocError) -> BodyFault {
        BodyFault::Memory
    }
}
