//! The state at the entry of a function, and the operations at a point.
ghost use Rattle.std.specs.Prelude.{◌≡◌, ◌≢◌, ◌<◌, ℕ, List, [], ◌++◌, Bool, Some, length, Contains};
ghost use Rattle.std.specs.Prelude.{slice_get, if◌then◌else◌, option_and_then, IsSome, IfSome};
ghost use Rattle.std.specs.Prelude.{IfOk};
ghost use Rattle.std.specs.List.Sorted.{IsStrictlyIncreasing};
ghost use Rattle.sw_graph.specs.Points.{point_in};
ghost use Rattle.sw_graph.specs.declared.function.Function.{Function};
ghost use Rattle.sw_region_ops.specs.Elements.{element_at};
ghost use Rattle.sw_region_ops.specs.Entry.{listed, lent_from, IsMet, IsEntry, IsEntryOf};
ghost use Rattle.sw_region_ops.specs.Table.{ops_at};

use crate::context::Context;
use crate::elements::element_at;
use crate::op::OpList;
use std::alloc::{AllocError, Global};
use sw_graph::Graph;
use sw_partition::Partition;

/// Puts an element with `Here`, unless it is `sending`.
fn lend(state: &mut Partition, element: Option<u32>, sends: bool)
    requires { IfSome element (λ x. x < length state.old.labels) }
    ensures sized { length state.new.labels ≡ length state.old.labels }
    ensures met { (count : ℕ) (sites met : List ℕ) → Contains met 0
        → IsMet count sites met state.old
        → IsMet count sites (met ++ (if sends then [] else listed element)) state.new }
{
    if sends {
        return;
    }
    if let Some(x) = element {
        state.join(x, 0);
    }
}

/// Puts the elements that a function is lent with `Here`.
fn lend_all(state: &mut Partition, elements: &[Option<u32>], sending: &[bool])
    requires { (r x : ℕ) → element_at elements.now r ≡ Some x → x < length state.old.labels }
    ensures { (count : ℕ) (sites met : List ℕ) → Contains met 0 → IsMet count sites met state.old
        → IsMet count sites (met ++ lent_from elements.now 0 sending.now) state.new }
{
    for (index, sends) in sending.iter().enumerate() {
        lend(state, element_at(elements, index), *sends);
    }
}

impl Context<'_> {
    /// The state at the entry of the function: what it is lent is with `Here`.
    pub fn enter(&self, alloc: Global, sites: &[u32]) -> Result<Partition, AllocError>
        requires { IsStrictlyIncreasing sites.now }
        ensures { IfOk result (IsEntry self.now sites.now) }
    {
        let mut state = Partition::new(alloc, self.element_count(), sites)?;
        lend_all(&mut state, self.elements(), self.body().sending.as_slice());
        Ok(state)
    }
}

/// The operations of the instruction at a point of a function.
pub fn ops_of(alloc: Global, graph: &Graph, function: u32, point: u32) -> Result<OpList, AllocError>
    requires { IsSome (option_and_then (λ body. point_in body point)
        (slice_get graph.now.functions function)) }
    ensures { IfOk result (λ ops. ops ≡ ops_at graph.now function point) }
{
    let context = Context::new(alloc, graph, function as usize)?;
    context.point_ops(alloc, graph.point(function, point).unwrap())
}

/// The region state at the entry of a function, over its elements and its sites.
pub fn enter(alloc: Global, graph: &Graph, function: u32) -> Result<Partition, AllocError>
    requires { function < length graph.now.functions }
    ensures { IfOk result (λ state. (body : Function)
        → slice_get graph.now.functions function ≡ Some body
        → IsEntryOf graph.now body state) }
{
    let context = Context::new(alloc, graph, function as usize)?;
    let sites = context.sites(alloc)?;
    context.enter(alloc, &sites)
}
