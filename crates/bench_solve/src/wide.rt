//! Two wide states, of which one takes the other in.
ghost use Rattle.std.specs.Prelude.{◌≡◌, ◌<◌, [], ◌∷◌, IfOk};
ghost use Rattle.sw_partition.specs.Regions.{size_of};

use std::alloc::{AllocError, Global};
use std::sync::ledger::{Blank, Ledger};
use sw_partition::Partition;
use sw_solve::{Lattice, Steps};

/// A state of `elements` elements, each alone.
pub fn alone(alloc: Global, elements: u32) -> Result<Partition, AllocError>
    requires { 0 < elements }
    ensures { IfOk result (λ state. size_of state ≡ elements ∷ []) }
{
    Partition::new(alloc, elements, &[])
}

/// A state of `elements` elements, each with the one as far from the end as it is from element 0.
pub fn paired(alloc: Global, elements: u32) -> Result<Partition, AllocError>
    requires { 0 < elements }
    ensures { IfOk result (λ state. size_of state ≡ elements ∷ []) }
{
    let mut state = alone(alloc, elements)?;
    for x in 0..elements / 2 {
        state.join(x, elements - 1 - x);
    }
    Ok(state)
}

/// Joins the other state into the first, and says whether that changed it.
pub fn take_in<L: Ledger>(state: &mut Partition, other: &Partition, blank: Blank) -> bool
    requires size { size_of state.old ≡ size_of other.now }
    requires name { blank.name ≡ L.name }
    requires parts { blank.parts ≡ L.parts }
    requires part { 0 < blank.parts }
{
    let mut steps = Steps::<L>::new(blank);
    state.join_with(other, &mut steps)
}
