//! Breaches in order.
ghost use Rattle.sw_decl_words.specs.Placed.{IsFirstPlaced};

/// A breach: where it stands, and its code. They are ordered by position, then by code.
#[derive(Clone, Copy, Debug, PartialEq, Eq, PartialOrd, Ord)]
pub struct Placed {
    /// A byte offset into the source.
    pub at: u32,
    /// The number of the code: 301 of E301.
    pub code: u16,
}

/// The first of the breaches.
pub fn first_of(list: &[Placed]) -> Option<Placed>
    ensures { IsFirstPlaced list.now result }
{
    list.iter().copied().min()
}
