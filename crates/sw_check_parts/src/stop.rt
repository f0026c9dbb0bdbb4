use crate::outcome::Outcome;
use std::alloc::AllocError;

/// Why a command goes no further.
#[derive(Drop)]
pub enum Stop {
    /// This part refuses, so that the reply is known.
    Refused(Outcome),
    /// A fetch failed.
    NotRead,
    /// Memory ran out.
    Memory,
}

impl From<AllocError> for Stop {
    ghost use Rattle.std.specs.Prelude.{◌≡◌};
    ghost use Rattle.sw_check_parts.specs.declared.stop.Stop.TheVariants.{Memory};

    ghost from_gives = { λ _ stop. stop ≡ Memory };

    fn from(_: AllocError) -> Stop {
        Stop::Memory
    }
}
