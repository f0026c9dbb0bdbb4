//! The region state that a line shows.
ghost use Rattle.std.specs.Prelude.{◌≡◌, ℕ, ◌^◌, ◌<◌, ◌∷◌, length, Contains, IfOk};
ghost use Rattle.std.specs.List.Sorted.{IsStrictlyIncreasing};
ghost use Rattle.sw_partition.specs.Regions.{size_of};
ghost use Rattle.sw_cert.specs.Certificate.{IsLineOf};
ghost use Rattle.sw_cert.specs.Shown.{Shows};
ghost use Rattle.sw_cert.specs.Stating.{ArePairsIn, IsGivenAll};

use crate::line::{Line, Pair};
use std::alloc::{AllocError, Global};
use sw_partition::Partition;

/// Gives each pair's element alone away.
fn give_all(state: &mut Partition, pairs: &[Pair])
    requires few { length state.old.labels < 2 ^ 32 }
    requires small { (site : ℕ) → Contains state.old.sites site → site < 2 ^ 32 }
    requires pairs { ArePairsIn state.old pairs.now }
    ensures { IsGivenAll state.old pairs.now state.new }
{
    for pair in pairs {
        state.give_one(pair.element as u32, pair.site as u32);
    }
}

/// The state that a line shows, of a function with these elements and these sites.
pub(crate) fn state_of(
    alloc: Global,
    elements: u32,
    sites: &[u32],
    line: &Line,
) -> Result<Partition, AllocError>
    requires some { 0 < elements }
    requires rising { IsStrictlyIncreasing sites.now }
    requires line { (blocks : ℕ) × IsLineOf
        (record { blocks = blocks; elements = elements; sites = sites.now }) line.now }
    ensures size { IfOk result (λ state. size_of state ≡ elements ∷ sites.now) }
    ensures shows { IfOk result (Shows line.now) }
{
    let mut state = Partition::new(alloc, elements, sites)?;
    give_all(&mut state, line.pairs.as_slice());
    state.set_classes(line.classes.get().as_slice());
    Ok(state)
}
