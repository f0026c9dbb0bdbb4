use std::alloc::AllocError;
use thiserror::Error;

/// Why the machine with clocks didn't take an item.
#[derive(Clone, Copy, Debug, PartialEq, Eq, Error)]
pub enum ClockFault {
    /// The item would make a 257th job.
    #[error("more than 256 jobs")]
    ManyJobs,
    /// Memory ran out.
    #[error("out of memory")]
    Memory,
}

impl From<AllocError> for ClockFault {
    ghost use Rattle.std.specs.Prelude.{◌≡◌};
    ghost use Rattle.sw_hb.specs.declared.fault.ClockFault.TheVariants.{Memory};

    ghost from_gives = { λ _ fault. fault ≡ Memory };

    fn from(_error: AllocError) -> ClockFault {
        ClockFault::Memory
    }
}
