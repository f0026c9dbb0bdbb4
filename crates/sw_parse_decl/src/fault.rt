//! Why a text is no program.

use std::alloc::AllocError;
use thiserror::Error;

/// Why tokens gave no tree: their one syntax fault, or a lack of memory.
#[derive(Clone, Copy, Debug, PartialEq, Eq, Error)]
pub enum ParseFault {
    /// The first token that can't be taken, by its index in the list; the list's length stands for
    /// the end.
    #[error("unexpected token {token}")]
    Unexpected { token: u32 },
    /// The first token that opens a nest too many, by its index in the list.
    #[error("token {token} is nested too deeply")]
    TooDeep { token: u32 },
    /// Memory for the tree ran out.
    #[error("out of memory")]
    Memory,
}

impl From<AllocError> for ParseFault {
    ghost use Rattle.std.specs.Prelude.{◌≡◌};
    ghost use Rattle.sw_parse_decl.specs.declared.fault.ParseFault.TheVariants.{Memory};

    ghost from_gives = { λ _ fault. fault ≡ Memory };

    fn from(_error: AllocError) -> ParseFault {
        ParseFault::Memory
    }
}
