//! The laws.
ghost use Rattle.std.specs.Prelude.{Option, List, ℕ};
ghost use Rattle.sw_graph.specs.declared.graph.Graph.{Graph};
ghost use Rattle.sw_value.specs.declared.state.State.{State};
ghost use Rattle.sw_partition.specs.Regions.{Regions};
ghost use Rattle.sw_store_facts.specs.Sound.{HaveHeres};
ghost use Rattle.sw_view_facts.specs.Views.{Colours};
ghost use Rattle.sw_secure_facts.specs.Secure.{HeresFit};
ghost use Rattle.sw_secure_facts.specs.Memory.{OwnsMemory};
ghost use Rattle.sw_secure_facts.specs.Executing.{Executing};

/// Each frame has a colour for its `Here`.
pub fn secure_states_have_heres()
    ensures { (graph : Graph) (states : ℕ → List (Option Regions)) (state : State)
        (colours : Colours) → HeresFit state colours → HaveHeres graph states state colours }
{}
