use std::alloc::AllocError;
use thiserror::Error;

/// Why a piece of code isn't made to its end.
#[derive(Clone, Copy, Debug, PartialEq, Eq, Error)]
pub enum CodeFault {
    /// The function would have more registers than a function of a graph.
    #[error("too many registers")]
    Registers,
    /// The function would have more blocks than there are numbers of 32 bits. No program of a text
    /// has so many.
    #[error("too many blocks")]
    Blocks,
    /// The code asks for what isn't known. No program that was judged lacks it.
    #[error("what the code asks for isn't known")]
    Missing,
    #[error("out of memory")]
    Memory,
}

impl From<AllocError> for CodeFault {
    ghost use Rattle.std.specs.Prelude.{◌≡◌};
    ghost use Rattle.sw_lower_plans.specs.declared.fault.CodeFault.TheVariants.{Memory};

    ghost from_gives = { λ _ fault. fault ≡ Memory };

    fn from(_error: AllocError) -> CodeFault {
        CodeFault::Memory
    }
}
