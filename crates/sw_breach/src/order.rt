ghost use Rattle.std.specs.Prelude.{◌≡◌};
ghost use Rattle.std.specs.Cmp.{IsTotalOrder};
ghost use Rattle.sw_breach.specs.Order.{breach_cmp};
ghost use Rattle.sw_breach.specs.declared.Breach.{Breach};

use crate::Breach;
use std::cmp::Ordering;

impl Breach {
    /// Compares by position, then by code, then by note; no note comes before a note.
    pub fn compare(&self, other: &Breach) -> Ordering
        ensures { result ≡ breach_cmp self.now other.now }
    {
        self.at
            .cmp(&other.at)
            .then(self.code.cmp(&other.code))
            .then(self.note.cmp(&other.note))
    }
}

/// A law, without code: [`Breach::compare`] is a total order, and only equal breaches compare as
/// equal.
pub fn breaches_are_in_order()
    ensures total { IsTotalOrder breach_cmp }
    ensures equal { (one other : Breach) → breach_cmp one other ≡ Ordering.Equal → one ≡ other }
{}
