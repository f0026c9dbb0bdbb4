ghost use Rattle.std.specs.Prelude.{◌≡◌, ◌≤◌, length};
ghost use Rattle.sw_replay.specs.Items.{written_out};
ghost use Rattle.sw_replay.specs.Left.{items_left};

use crate::iter::Iter;
use std::marker::Model;
use sw_list::ListOf;

/// The most items that a schedule has.
pub const MAX_ITEMS: usize = 1_000_000;

/// The items of a schedule in order, at most [`MAX_ITEMS`]. Each is the number of a job that takes
/// one step. Contracts see the list of the items. It is kept as runs: each is a job and how often
/// the job stands there, one time after the other.
#[derive(Debug, Drop)]
pub struct Schedule {
    runs: ListOf<(u32, u32)>,
}

impl Model for Schedule {
    ghost use Rattle.std.specs.Prelude.{ℕ, ◌≤◌, List, length};
    ghost use Rattle.sw_replay.specs.declared.items.TheConstants.{MAX_ITEMS};
    ghost use Rattle.sw_replay.specs.Items.{written_out};

    ghost Value = { List ℕ };

    ghost view = { λ schedule. written_out schedule.runs };

    ghost invariant = { λ schedule. length (written_out schedule.runs) ≤ MAX_ITEMS };
}

impl Schedule {
    /// The schedule whose list of items is that of the runs, written out.
    pub fn new(runs: ListOf<(u32, u32)>) -> Schedule
        requires { length (written_out runs) ≤ MAX_ITEMS }
        ensures { result ≡ written_out runs }
    {
        Schedule { runs }
    }

    /// Lends the runs, each a job and how often it stands in the list, which is that of the runs
    /// written out. A run may be of no item.
    pub fn runs(&self) -> &[(u32, u32)]
        ensures value { written_out result.now ≡ self.now }
        ensures few { length self.now ≤ MAX_ITEMS }
    {
        self.runs.as_slice()
    }

    /// The items, one after the other.
    pub fn iter(&self) -> Iter<'_>
        ensures value { items_left result ≡ self.now }
        ensures few { length self.now ≤ MAX_ITEMS }
    {
        Iter::new(self.runs())
    }
}
