//! Tests of a region state, and what is wrong where one fails.
ghost use Rattle.std.specs.Prelude.{◌≡◌, ◌<◌, ◌↔◌, ◌⊎◌, None, Some, length};
ghost use Rattle.sw_breach.specs.declared.Breach.{Breach};
ghost use Rattle.sw_partition.specs.Regions.{size_of, HasSomePair};
ghost use Rattle.sw_region_flow.specs.Walks.{IsGivenAway, IsNotFree, TestFails};
ghost use Rattle.sw_region_ops.specs.Runs.{Fits};

use sw_breach::{Breach, GIVEN_AWAY};
use sw_partition::Partition;
use sw_region_ops::Op;

/// What is wrong where an element is used at a position, if it was given away.
fn given_away(state: &Partition, x: u32, at: u32) -> Option<Breach>
    requires { x < length state.now.labels }
    ensures breach { (breach : Breach) → (result ≡ Some breach)
        ↔ IsGivenAway x at state.now breach }
    ensures none { result ≡ None → ¬ (HasSomePair state.now x) }
{
    match state.need(x) {
        Some(site) => Some(Breach {
            code: GIVEN_AWAY,
            at,
            note: Some(site),
        }),
        None => None,
    }
}

/// What is wrong where an element that wasn't given away would be, at a position.
fn not_free(state: &Partition, x: u32, at: u32, code: u16) -> Option<Breach>
    requires element { x < length state.now.labels }
    requires not_given { ¬ (HasSomePair state.now x) }
    ensures { (breach : Breach) → (result ≡ Some breach) ↔ IsNotFree x at code state.now breach }
{
    if state.is_free(x) {
        None
    } else {
        Some(Breach {
            code,
            at,
            note: None,
        })
    }
}

/// What is wrong where an element would be given away at a position, if it isn't free.
fn not_given(state: &Partition, x: u32, at: u32, code: u16) -> Option<Breach>
    requires { x < length state.now.labels }
    ensures { (breach : Breach) → (result ≡ Some breach)
        ↔ (IsGivenAway x at state.now breach ⊎ IsNotFree x at code state.now breach) }
{
    match given_away(state, x, at) {
        Some(breach) => Some(breach),
        None => not_free(state, x, at, code),
    }
}

/// What is wrong where an operation is a test that fails.
pub(crate) fn test(op: &Op, state: &Partition) -> Option<Breach>
    requires { Fits (size_of state.now) op.now }
    ensures { (breach : Breach) → (result ≡ Some breach) ↔ TestFails op.now state.now breach }
{
    match *op {
        Op::Need { x, at } => given_away(state, x, at),
        Op::Free { x, at, code } => not_given(state, x, at, code),
        Op::Fresh { .. } | Op::Put { .. } | Op::Join { .. } | Op::Give { .. } => None,
    }
}
