ghost use Rattle.std.specs.Prelude.{◌≡◌, ℕ, ◌≤◌, ◌⊎◌, Some, None, List, length};
ghost use Rattle.sw_graph.specs.declared.graph.Graph.{Graph};
ghost use Rattle.sw_value.specs.declared.race.Access.{Access};
ghost use Rattle.sw_value.specs.declared.race.Race.{Race};
ghost use Rattle.sw_value.specs.declared.state.State.{State};
ghost use Rattle.sw_value.specs.Access.{next_access};
ghost use Rattle.sw_value.specs.Act.{act_of};
ghost use Rattle.sw_value.specs.Racing.{Racing, IsLeastRace};
ghost use Rattle.sw_value.specs.Reach.{step_of, reach, Reached};
ghost use Rattle.sw_value.specs.Start.{start_of};
ghost use Rattle.sw_value.specs.Transition.{Transition, transition_of, Describes};

use crate::frame::{MAX_FRAMES, NO_REGISTER};
use crate::job::MAX_JOBS;

/// However long the items are, there are never more jobs than the machine allows, and no more cells
/// than items.
pub fn states_stay_in_bounds()
    ensures jobs { (graph : Graph) (items : List ℕ) →
        length (reach graph items).jobs ≤ MAX_JOBS }
    ensures cells { (graph : Graph) (items : List ℕ) →
        length (reach graph items).cells ≤ length items }
{}

/// A job whose item does nothing accesses nothing, such as a job that is stuck, one that has ended,
/// and every job of a machine that is halted.
pub fn idle_jobs_access_nothing()
    ensures idle { (graph : Graph) (state : State) (job : ℕ) →
        act_of graph state job ≡ None → next_access graph state job ≡ None }
{}

/// Every state has a least race, or no two of its jobs race. It has one least race, and an access
/// that a job makes names that job.
pub fn races_are_decided()
    ensures decided { (graph : Graph) (state : State) →
        ((race : Race) × IsLeastRace graph state race) ⊎ (Racing graph state → ⊥) }
    ensures one { (graph : Graph) (state : State) (a b : Race) →
        IsLeastRace graph state a → IsLeastRace graph state b → a ≡ b }
    ensures named { (graph : Graph) (state : State) (job : ℕ) (access : Access) →
        next_access graph state job ≡ Some access → access.job ≡ job }
{}

/// The transition of an item says of its step which executor the job enters or leaves, which job is
/// made, whose end it follows, whether the job ends, and which access it makes.
pub fn transitions_describe()
    ensures describes { (graph : Graph) (state : State) (item : ℕ) (t : Transition) →
        transition_of graph state item ≡ Some t →
        Describes graph state (step_of graph state item) item t }
{}

/// The start is reached, and so is what a step leads to from a state that is reached.
pub fn steps_reach()
    ensures starts { (graph : Graph) → Reached graph (start_of graph) }
    ensures goes_on { (graph : Graph) (state : State) (item : ℕ) → Reached graph state →
        Reached graph (step_of graph state item) }
{}

/// The numbers that the definitions of the machine take from here.
pub fn machine_numbers()
    ensures frames { MAX_FRAMES ≡ 4096 }
    ensures jobs { MAX_JOBS ≡ 65536 }
    ensures no_register { NO_REGISTER ≡ 512 }
{}
