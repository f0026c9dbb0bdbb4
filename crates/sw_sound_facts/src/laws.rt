//! The law.
ghost use Rattle.std.specs.Prelude.{ℕ, List};
ghost use Rattle.sw_graph.specs.declared.graph.Graph.{Graph};
ghost use Rattle.sw_graph.specs.Clean.{IsClean};
ghost use Rattle.sw_graph.specs.Supplied.{IsSupplied};
ghost use Rattle.sw_value.specs.Racing.{Racing};
ghost use Rattle.sw_value.specs.Reach.{reach};
ghost use Rattle.sw_region_flow.specs.Passing.{IsPassed};

/// No state that items lead to has two running jobs about to access one location of which one
/// writes: a `var` part of an object or an actor, a global `var`, or a captured variable. The items
/// may be any list, so this holds over all interleavings.
pub fn passed_graphs_never_race()
    ensures { (graph : Graph) → IsClean graph → IsSupplied graph → IsPassed graph
        → (items : List ℕ) → ¬ Racing graph (reach graph items) }
{}
