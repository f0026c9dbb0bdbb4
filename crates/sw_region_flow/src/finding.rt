//! The region breaches of a function and of a graph.
ghost use Rattle.std.specs.Prelude.{◌≡◌, ℕ, ◌+◌, ◌<◌, ◌≤◌, ◌↔◌, ◌⊎◌, Some, length, slice_get};
ghost use Rattle.std.specs.Prelude.{Contains, IsSome, IfOk, OnOk};
ghost use Rattle.sw_solve.specs.Annotation.{value_at};
ghost use Rattle.sw_solve.specs.Layout.{IsLeastOfBlocks};
ghost use Rattle.sw_solve.specs.Ways.{HasWay};
ghost use Rattle.sw_breach.specs.declared.Breach.{Breach};
ghost use Rattle.sw_graph.specs.declared.function.Function.{Function};
ghost use Rattle.sw_region_flow.specs.Analysis.{block_ops_at, layout, targets_at};
ghost use Rattle.sw_region_flow.specs.Analysis.{IsLeastOfFunction};
ghost use Rattle.sw_region_flow.specs.Breaches.{IsBreachIn, IsBreachOf, AreBreaches};
ghost use Rattle.sw_region_flow.specs.Least.{FailsAt, IsLeastAtBlocks};
ghost use Rattle.sw_region_flow.specs.Work.{joins_of, graph_joins};
ghost use Rattle.sw_region_ops.specs.Setting.{setting_of};

use crate::block_flow::BlockFlow;
use crate::listing::in_order;
use crate::walking::walk;
use std::alloc::{AllocError, Global};
use std::sync::ledger::Ledger;
use sw_breach::Breach;
use sw_graph::Graph;
use sw_list::ListOf;
use sw_partition::Partition;
use sw_solve::{Lattice, Solution, Steps, solve};

/// Adds what is wrong on the way through a block, if control reaches it.
#[tactic(auto, using(crate::proofs::Visiting::visit_none))]
fn visit(
    alloc: Global,
    flow: &BlockFlow,
    states: &Solution<Partition>,
    block: u32,
    found: &mut ListOf<Breach>,
) -> Result<(), AllocError>
    requires block { block < length flow.now.setting.body.blocks }
    requires states { IsLeastOfBlocks (layout flow.now) states.now }
    ensures { OnOk result ((breach : Breach) → Contains found.new breach
        ↔ (Contains found.old breach
        ⊎ FailsAt (block_ops_at flow.now.setting) states.now block breach)) }
{
    let Some(state) = states.at(block) else {
        return Ok(());
    };
    let ops = flow.ops(alloc, block)?;
    let mut state = state.copy(alloc)?;
    walk(found, ops.as_slice(), &mut state)?;
    Ok(())
}

/// Adds what is wrong on the ways through the blocks that control reaches.
fn visit_all(
    alloc: Global,
    flow: &BlockFlow,
    states: &Solution<Partition>,
    found: &mut ListOf<Breach>,
) -> Result<(), AllocError>
    requires { IsLeastOfBlocks (layout flow.now) states.now }
    ensures { OnOk result ((breach : Breach) → Contains found.new breach
        ↔ (Contains found.old breach ⊎ IsBreachIn flow.now.setting breach)) }
{
    for block in 0..flow.blocks() {
        visit(alloc, flow, states, block, found)?;
    }
    Ok(())
}

/// The least annotation of a function's points, at the blocks: the state with which control comes
/// to each; none where no way leads to it. `steps` counts the joins of states.
pub fn states<L: Ledger>(
    alloc: Global,
    graph: &Graph,
    function: u32,
    steps: &mut Steps<L>,
) -> Result<Solution<Partition>, AllocError>
    requires { function < length graph.now.functions }
    ensures least { IfOk result (λ states. (body : Function)
        → slice_get graph.now.functions function ≡ Some body
        → IsLeastAtBlocks (setting_of graph.now body) states) }

    // No closed annotation of the blocks is less.
    ensures blocks { IfOk result (λ states. (body : Function)
        → slice_get graph.now.functions function ≡ Some body
        → IsLeastOfFunction (setting_of graph.now body) states) }
    ensures reached { IfOk result (λ states. (body : Function)
        → slice_get graph.now.functions function ≡ Some body → (block : ℕ)
        → IsSome (value_at states block) ↔ HasWay (targets_at body.blocks) block) }
    ensures joins { (body : Function) → slice_get graph.now.functions function ≡ Some body
        → steps.new ≤ steps.old + joins_of (setting_of graph.now body) }
{
    let flow = BlockFlow::new(alloc, graph, function as usize)?;
    let states = solve(alloc, &flow, steps)?;
    Ok(states)
}

/// Adds the breaches of a function of a graph.
fn add_breaches<L: Ledger>(
    alloc: Global,
    graph: &Graph,
    function: usize,
    found: &mut ListOf<Breach>,
    steps: &mut Steps<L>,
) -> Result<(), AllocError>
    requires { function < length graph.now.functions }
    ensures found { OnOk result ((body : Function)
        → slice_get graph.now.functions function ≡ Some body → (breach : Breach)
        → Contains found.new breach ↔ (Contains found.old breach
        ⊎ IsBreachIn (setting_of graph.now body) breach)) }
    ensures joins { (body : Function) → slice_get graph.now.functions function ≡ Some body
        → steps.new ≤ steps.old + joins_of (setting_of graph.now body) }
{
    let flow = BlockFlow::new(alloc, graph, function)?;
    let states = solve(alloc, &flow, steps)?;
    visit_all(alloc, &flow, &states, found)?;
    Ok(())
}

/// The breaches of all functions of a graph, function by function.
fn collect<L: Ledger>(
    alloc: Global,
    graph: &Graph,
    steps: &mut Steps<L>,
) -> Result<ListOf<Breach>, AllocError>
    ensures found { IfOk result (λ found. (breach : Breach)
        → Contains found breach ↔ IsBreachOf graph.now breach) }
    ensures joins { steps.new ≤ steps.old + graph_joins graph.now }
{
    let mut found = ListOf::new(alloc);
    for function in 0..graph.functions.len() {
        add_breaches(alloc, graph, function, &mut found, steps)?;
    }
    Ok(found)
}

/// All region breaches of a graph, by position, then by code. Those of one position and one code
/// are one, with the least note. `steps` counts the joins of states.
pub fn breaches<L: Ledger>(
    alloc: Global,
    graph: &Graph,
    steps: &mut Steps<L>,
) -> Result<Vec<Breach>, AllocError>
    ensures breaches { IfOk result (λ list. AreBreaches graph.now list.items) }
    ensures joins { steps.new ≤ steps.old + graph_joins graph.now }
{
    let found = collect(alloc, graph, steps)?;
    Ok(in_order(found.into_vec()))
}
