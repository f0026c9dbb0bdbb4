//! The law.
ghost use Rattle.std.specs.Prelude.{ℕ, Option, List};
ghost use Rattle.sw_graph.specs.declared.graph.Graph.{Graph};
ghost use Rattle.sw_value.specs.declared.state.State.{State};
ghost use Rattle.sw_value.specs.Racing.{Racing};
ghost use Rattle.sw_partition.specs.Regions.{Regions};
ghost use Rattle.sw_view_facts.specs.Views.{Colours};
ghost use Rattle.sw_secure_facts.specs.Secure.{IsSecure};

/// No two jobs are about to access one location of which one of them writes. Of two jobs that access
/// a cell with a colour, both hold that colour live in their top frames; of two that access a part
/// of an actor, of an object of a class with a global actor, or a global, both stand on that actor.
pub fn secure_states_never_race()
    ensures { (graph : Graph) (states : ℕ → List (Option Regions)) (state : State)
        (colours : Colours) → IsSecure graph states state colours → Racing graph state → ⊥ }
{}
