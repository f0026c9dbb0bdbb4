ghost use Rattle.std.specs.Prelude.{◌≡◌, ◌↔◌, ℕ};
ghost use Rattle.sw_graph.specs.declared.graph.Graph.{Graph};
ghost use Rattle.sw_value.specs.declared.state.State.{State};
ghost use Rattle.sw_value.specs.Racing.{Racing};
ghost use Rattle.sw_value.specs.Reach.{step_of};
ghost use Rattle.sw_race.specs.Step.{IsNowhereStuck, BringsInItsOwn, HasRival};
ghost use Rattle.sw_race.specs.Target.{target_at};

/// The step of a job leaves the targets of all other jobs as they are. From a state that is not
/// racing, and in which no running job is stuck, it brings in races of that job alone. So the state
/// after it is racing exactly where that job has a rival.
pub fn steps_bring_in_races_of_one_job()
    ensures targets { (graph : Graph) (state : State) (j k : ℕ) → ¬ (k ≡ j) →
        target_at graph (step_of graph state j) k ≡ target_at graph state k }
    ensures one_job { (graph : Graph) (state : State) (j : ℕ) → IsNowhereStuck graph state →
        BringsInItsOwn graph state j }
    ensures racing { (graph : Graph) (state : State) (j : ℕ) → IsNowhereStuck graph state →
        ¬ Racing graph state →
        (Racing graph (step_of graph state j) ↔ HasRival graph (step_of graph state j) j) }
{}
