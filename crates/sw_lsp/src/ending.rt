//! How a session ends.
ghost use Rattle.std.specs.Prelude.{◌≡◌};
ghost use Rattle.sw_lsp.specs.Session.{ended_as};

use crate::phase::Phase;
use std::alloc::AllocError;
use thiserror::Error;

/// How a session ends if no read and no write fails, and memory lasts.
#[derive(Clone, Copy, Debug, PartialEq, Eq)]
pub enum Ending {
    /// The client has ended it, as it should.
    Done,
    /// The client has ended it before it was to.
    Dropped,
    /// The input has ended between two frames.
    Closed,
    /// The input has ended in a frame.
    CutOff,
    /// The input has a header that doesn't end, or that declares too long a body.
    TooLong,
}

/// Why a session stops without an ending.
#[derive(Clone, Copy, Debug, PartialEq, Eq, Error)]
pub enum Stop {
    #[error("a read failed")]
    NotRead,
    #[error("a write failed")]
    NotWritten,
    #[error("out of memory")]
    Memory,
    #[error("2^64 turns")]
    TooManyTurns,
}

impl From<AllocError> for Stop {
    ghost use Rattle.std.specs.Prelude.{◌≡◌};
    ghost use Rattle.sw_lsp.specs.declared.ending.Stop.TheVariants.{Memory};

    ghost from_gives = { λ _ stop. stop ≡ Memory };

    fn from(_error: AllocError) -> Stop {
        Stop::Memory
    }
}

/// How a session ends by what the client says, if it has ended.
pub fn ended_as(phase: Phase) -> Option<Ending>
    ensures { result ≡ ended_as phase }
{
    match phase {
        Phase::Waiting | Phase::Running | Phase::Stopping => None,
        Phase::Done => Some(Ending::Done),
        Phase::Dropped => Some(Ending::Dropped),
    }
}
