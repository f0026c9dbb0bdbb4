//! The laws.
ghost use Rattle.std.specs.Prelude.{ℕ, List, Option};
ghost use Rattle.sw_graph.specs.declared.graph.Graph.{Graph};
ghost use Rattle.sw_graph.specs.Clean.{IsClean};
ghost use Rattle.sw_graph.specs.Supplied.{IsSupplied};
ghost use Rattle.sw_value.specs.Reach.{reach};
ghost use Rattle.sw_partition.specs.Regions.{Regions};
ghost use Rattle.sw_region_flow.specs.Passing.{IsPassed};
ghost use Rattle.sw_view_facts.specs.Views.{Colours};
ghost use Rattle.sw_secure_facts.specs.Secure.{IsSecure};
ghost use Rattle.sw_secure_job_facts.specs.Begins.{AreAnnotated};
ghost use Rattle.sw_before.specs.Events.{events_of};
ghost use Rattle.sw_before.specs.Unordered.{AreOrdered};
ghost use Rattle.sw_order_facts.specs.Informed.{IsInformed};

/// No list of items leaves two conflicting accesses unordered. So no schedule has to be looked at to
/// know that a detector of data races finds none.
pub fn passed_graphs_order_their_accesses()
    ensures { (graph : Graph) → IsClean graph → IsSupplied graph → IsPassed graph
        → (items : List ℕ) → AreOrdered (events_of graph items) }
{}

/// Whatever the items, there are colours with which the state that they lead to is secure and
/// informed: jobs and owners know of the events what they have to.
pub fn states_know_their_past()
    ensures { (graph : Graph) → IsClean graph → IsSupplied graph
        → (states : ℕ → List (Option Regions)) → AreAnnotated graph states → (items : List ℕ)
        → (colours : Colours) × IsSecure graph states (reach graph items) colours
        × IsInformed graph (reach graph items) colours (events_of graph items) }
{}
