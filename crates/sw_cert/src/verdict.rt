//! What is wrong with a certificate.

use std::alloc::AllocError;
use thiserror::Error;

/// How many bytes a certificate has at most.
pub const CERTIFICATE_LIMIT: usize = 4_194_304;

/// Why a certificate isn't accepted.
#[derive(Clone, Copy, Debug, PartialEq, Eq, Error)]
pub enum CertFault {
    /// At this byte, or at the end, the text stops being the beginning of a certificate.
    #[error("not in form at {at}")]
    BadForm { at: u32 },
    /// This function's first block has no line, or one with a state that doesn't include the state
    /// at the entry. It is the first such function.
    #[error("entry of function {function}")]
    Entry { function: u32 },
    /// The line that begins at this byte is the first that doesn't hold: a test of its block fails.
    #[error("not passed at {at}")]
    Fails { at: u32 },
    /// The line that begins at this byte is the first that doesn't hold: a block that follows its
    /// block has no line, or one with a state that doesn't include the state there.
    #[error("not closed at {at}")]
    Open { at: u32 },
    #[error("out of memory")]
    Memory,
}

impl From<AllocError> for CertFault {
    ghost use Rattle.std.specs.Prelude.{◌≡◌};
    ghost use Rattle.sw_cert.specs.declared.verdict.CertFault.{CertFault};

    ghost from_gives = { λ _ fault. fault ≡ CertFault.Memory };

    fn from(_error: AllocError) -> CertFault {
        CertFault::Memory
    }
}
