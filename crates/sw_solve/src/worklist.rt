//! The passes of the solver.
ghost use Rattle.std.specs.Prelude.{◌≡◌, ℕ, ◌+◌, ◌*◌, ◌<◌, ◌≤◌, List, [], ◌∷◌, length, All, Option};
ghost use Rattle.std.specs.Prelude.{None, IsSome, ◌↔◌, IfSome, IfOk, OnOk, vec_len, replicate};
ghost use Rattle.sw_solve.specs.Annotation.{value_at, IsClosed, IsBound, IsAtMostEverywhere};
ghost use Rattle.sw_solve.specs.Work.{TakesIn, IsSpread, IsVisited, edge_count};
ghost use Rattle.sw_solve.specs.Ways.{HasWay};

use crate::answer::Solution;
use crate::counter::Steps;
use crate::order::Lattice;
use crate::problem::Flow;
use crate::waiting::Worklist;
use std::alloc::{AllocError, Global};
use std::sync::ledger::Ledger;

/// Takes the value into the slot, and answers whether the slot rose.
fn merge<T: Lattice, L: Ledger>(
    alloc: Global,
    slot: &mut Option<T>,
    value: &T,
    steps: &mut Steps<L>,
) -> Result<bool, AllocError>
    requires { IfSome slot.old (λ x. T.size x ≡ T.size value.now) }
    ensures merged { IfOk result
        (λ rose. TakesIn T.le T.size T.rank value.now slot.old slot.new rose) }
    ensures counted { steps.new ≤ steps.old + 1 }
{
    match slot {
        None => {
            *slot = Some(value.copy(alloc)?);
            Ok(true)
        }
        Some(there) => Ok(there.join_with(value, steps)),
    }
}

/// Takes the value into the slot of the point, and lists the point if that rose.
fn offer<T: Lattice, L: Ledger>(
    alloc: Global,
    point: u32,
    value: &T,
    slots: &mut Vec<Option<T>>,
    list: &mut Worklist,
    steps: &mut Steps<L>,
) -> Result<(), AllocError>
    requires slot { point < vec_len slots.old }
    requires room { point < list.old.room }
    requires sized { (p : ℕ) → IfSome (value_at slots.old.items p)
        (λ x. T.size x ≡ T.size value.now) }
    ensures spread { OnOk result
        (IsSpread T.le T.size T.rank (point ∷ []) value.now
        slots.old.items slots.new.items list.old list.new) }
    ensures counted { steps.new ≤ steps.old + 1 }
{
    if merge(alloc, &mut slots[point as usize], value, steps)? {
        list.push(point)?;
    }
    Ok(())
}

/// Takes the value into the slots of the targets.
fn spread<T: Lattice, L: Ledger>(
    alloc: Global,
    targets: &[u32],
    value: &T,
    slots: &mut Vec<Option<T>>,
    list: &mut Worklist,
    steps: &mut Steps<L>,
) -> Result<(), AllocError>
    requires targets { All (λ q. q < vec_len slots.old) targets.now }
    requires room { list.old.room ≡ vec_len slots.old }
    requires sized { (p : ℕ) → IfSome (value_at slots.old.items p)
        (λ x. T.size x ≡ T.size value.now) }
    ensures spread { OnOk result
        (IsSpread T.le T.size T.rank targets.now value.now
        slots.old.items slots.new.items list.old list.new) }
    ensures counted { steps.new ≤ steps.old + length targets.now }
{
    for target in targets {
        offer(alloc, *target, value, slots, list, steps)?;
    }
    Ok(())
}

/// Passes the value at the point on to the points that follow.
fn visit<F: Flow, L: Ledger>(
    alloc: Global,
    flow: &F,
    point: u32,
    slots: &mut Vec<Option<F::Fact>>,
    list: &mut Worklist,
    steps: &mut Steps<L>,
) -> Result<(), AllocError>
    requires point { point < F.count flow.now }
    requires slots { vec_len slots.old ≡ F.count flow.now }
    requires room { list.old.room ≡ vec_len slots.old }
    requires sized { (p : ℕ)
        → IfSome (value_at slots.old.items p) (λ x. F.Fact.size x ≡ F.fact_size flow.now) }
    ensures visited { OnOk result
        (IsVisited F.Fact.le F.Fact.size F.Fact.rank (F.leads flow.now) (F.successors flow.now)
        point (value_at slots.old.items point) slots.old.items slots.new.items list.old list.new) }
    ensures counted { steps.new ≤ steps.old + length (F.successors flow.now point) }
{
    let Some(before) = &slots[point as usize] else {
        return Ok(());
    };
    let made = flow.after(alloc, point, before)?;
    let targets = flow.next(alloc, point)?;
    spread(alloc, targets.as_slice(), &made, slots, list, steps)
}

/// Places for the points below `count`, with nothing at any.
fn no_values<T: Lattice>(alloc: Global, count: u32) -> Result<Vec<Option<T>>, AllocError>
    ensures { IfOk result (λ slots. slots.items ≡ replicate count None) }
{
    let mut slots = Vec::with_capacity(alloc, count as usize)?;
    for _ in 0..count {
        slots.push(None)?;
    }
    Ok(slots)
}

/// The least annotation of the flow's points that is closed: point 0 has at least the value that
/// enters, and with the value at a point each point that follows has at least what the step makes
/// of it. A point that no way leads to has nothing. A point is looked at again only when its value
/// rose, so there are at most as many joins as edges times one more than the height.
pub fn solve<F: Flow, L: Ledger>(
    alloc: Global,
    flow: &F,
    steps: &mut Steps<L>,
) -> Result<Solution<F::Fact>, AllocError>
    requires { 0 < F.count flow.now }
    ensures points { IfOk result (λ s. length s ≡ F.count flow.now) }
    ensures closed { IfOk result (IsClosed F.Fact.le F.Fact.size
        (F.fact_size flow.now) (F.enters flow.now) (F.leads flow.now) (F.successors flow.now)) }
    ensures least { IfOk result (λ s. (a : List (Option F.Fact))
        → IsClosed F.Fact.le F.Fact.size
        (F.fact_size flow.now) (F.enters flow.now) (F.leads flow.now) (F.successors flow.now) a
        → IsAtMostEverywhere F.Fact.le s a) }

    // Also among the annotations that bound from above, of which the closed ones are some.
    ensures lowest { IfOk result (λ s. (a : List (Option F.Fact))
        → IsBound F.Fact.le F.Fact.size
        (F.fact_size flow.now) (F.enters flow.now) (F.leads flow.now) (F.successors flow.now) a
        → IsAtMostEverywhere F.Fact.le s a) }
    ensures reached { IfOk result (λ s. (p : ℕ)
        → IsSome (value_at s p) ↔ HasWay (F.successors flow.now) p) }
    ensures joins { steps.new ≤ steps.old
        + edge_count (F.successors flow.now) (F.count flow.now)
        * (F.Fact.height (F.fact_size flow.now) + 1) }
{
    let count = flow.points();
    let mut slots = no_values(alloc, count)?;
    let mut list = Worklist::new(alloc, count)?;
    slots[0] = Some(flow.entry(alloc)?);
    list.push(0)?;
    while let Some(point) = list.pop() {
        visit(alloc, flow, point, &mut slots, &mut list, steps)?;
    }
    Ok(Solution::of_values(slots))
}
