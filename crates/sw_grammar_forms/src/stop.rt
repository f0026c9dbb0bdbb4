//! Why reading stopped.

use std::alloc::{AllocError, AllocFailed};

/// Why reading stopped.
#[derive(Clone, Copy, Debug, PartialEq, Eq)]
pub enum Stop {
    /// A token can't be taken. From it on `left` tokens are left; 0 stands for the end.
    Unexpected { left: usize },
    /// A token opens a nest more than may be open. From it on `left` tokens are left.
    TooDeep { left: usize },
    /// Memory for the tree ran out.
    Memory,
}

impl From<AllocError> for Stop {
    ghost use Rattle.std.specs.Prelude.{◌≡◌};
    ghost use Rattle.sw_grammar_forms.specs.declared.stop.Stop.TheVariants.{Memory};

    ghost from_gives = { λ _ stop. stop ≡ Memory };

    fn from(_error: AllocError) -> Stop {
        Stop::Memory
    }
}

impl<T: Drop> From<AllocFailed<T>> for Stop {
    ghost use Rattle.std.specs.Prelude.{◌≡◌};
    ghost use Rattle.sw_grammar_forms.specs.declared.stop.Stop.TheVariants.{Memory};

    ghost from_gives = { λ _ stop. stop ≡ Memory };

    fn from(_error: AllocFailed<T>) -> Stop {
        Stop::Memory
    }
}
