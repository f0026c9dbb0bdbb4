ghost use Rattle.std.specs.Prelude.{◌≡◌, ◌≤◌, ◌<◌, ◌⊎◌, ℕ, Some, List, length};
ghost use Rattle.sw_graph.specs.declared.graph.Graph.{Graph};
ghost use Rattle.sw_graph.specs.Placed.{IsPlaced};
ghost use Rattle.sw_graph.specs.Supplied.{IsSupplied};
ghost use Rattle.sw_value.specs.declared.effect.Act.{Act};
ghost use Rattle.sw_value.specs.declared.effect.Act.TheVariants.{Wake, Execute};
ghost use Rattle.sw_value.specs.declared.effect.Effect.{Effect};
ghost use Rattle.sw_value.specs.declared.race.Place.{Place};
ghost use Rattle.sw_value.specs.declared.state.State.{State};
ghost use Rattle.sw_value.specs.declared.value.Value.{Value};
ghost use Rattle.sw_value.specs.Act.{act_of};
ghost use Rattle.sw_value.specs.Reach.{step_of, reach};
ghost use Rattle.sw_value.specs.State.{result_of};
ghost use Rattle.sw_value.specs.Transition.{made_by};
ghost use Rattle.sw_machine_let_facts.specs.Lets.{RunsFirst};
ghost use Rattle.sw_machine_name_facts.specs.Given.{ActGives, EffectGives, Fills, IsStepped};
ghost use Rattle.sw_machine_name_facts.specs.Given.{Source, made_cell};
ghost use Rattle.sw_machine_name_facts.specs.Names.{FixedNames, JobNames, PlaceNames};
ghost use Rattle.sw_machine_name_facts.specs.Names.{ResultNames, StandsOn};

/// What an effect gives is named by a register of the job that executes it, by what never changes
/// of a cell that such a register names, by a location that the job reads, or by a global that is
/// none. What a job goes on with after it waited is what the other job ended with.
pub fn steps_give_what_they_find()
    ensures effects { (graph : Graph) (state : State) (j : ℕ) (e : Effect)
        → act_of graph state j ≡ Some (Execute e) → (k : ℕ) → EffectGives e k
        → Source graph state j k }
    ensures wakes { (graph : Graph) (state : State) (j ended r : ℕ) (v : Value)
        → act_of graph state j ≡ Some (Wake ended r v) → result_of state ended ≡ Some v }
{}

/// After a step the registers of a job name what they named before, or it is the job that stepped or
/// that was made, and the act gives the name or makes the cell. So it is with what jobs ended with,
/// and with the actors on which frames run.
pub fn names_go_from_place_to_place()
    ensures jobs { (graph : Graph) (state : State) (j : ℕ) (act : Act)
        → act_of graph state j ≡ Some act → (i k : ℕ) → JobNames (step_of graph state j) i k
        → JobNames state i k
        ⊎ (IsStepped j act i × (ActGives act k ⊎ (made_cell act ≡ Some k))) }
    ensures results { (graph : Graph) (state : State) (j : ℕ) (act : Act)
        → act_of graph state j ≡ Some act → (i k : ℕ) → ResultNames (step_of graph state j) i k
        → ResultNames state i k ⊎ ((i ≡ j) × ActGives act k) }
    ensures executors { (graph : Graph) (state : State) (j : ℕ) (act : Act)
        → act_of graph state j ≡ Some act → (i c : ℕ) → StandsOn (step_of graph state j) i c
        → StandsOn state i c ⊎ (IsStepped j act i × (StandsOn state j c ⊎ ActGives act c)) }
{}

/// After a step a place names what it named before, or the act gives the name, and fills the place.
/// What never changes of a cell names what it named, or the cell is made.
pub fn places_are_filled_in_three_ways()
    ensures places { (graph : Graph) → IsPlaced graph → IsSupplied graph → (items : List ℕ)
        (j : ℕ) (act : Act) → act_of graph (reach graph items) j ≡ Some act
        → (place : Place) (k : ℕ) → PlaceNames (step_of graph (reach graph items) j) place k
        → PlaceNames (reach graph items) place k
        ⊎ (ActGives act k × Fills graph (reach graph items) j act place) }
    ensures fixed { (graph : Graph) → IsPlaced graph → IsSupplied graph → (items : List ℕ)
        (j : ℕ) (act : Act) → act_of graph (reach graph items) j ≡ Some act → (c k : ℕ)
        → FixedNames graph (step_of graph (reach graph items) j) c k
        → FixedNames graph (reach graph items) c k ⊎ ((made_cell act ≡ Some c) × ActGives act k) }
{}

/// A cell that is made has the next number, and so has a job. Neither goes away.
pub fn cells_and_jobs_are_numbered_in_turn()
    ensures cell { (graph : Graph) (state : State) (j : ℕ) (act : Act)
        → act_of graph state j ≡ Some act → (c : ℕ) → made_cell act ≡ Some c
        → (c ≡ length state.cells) × (c < length (step_of graph state j).cells) }
    ensures job { (graph : Graph) (state : State) (j : ℕ) (act : Act)
        → act_of graph state j ≡ Some act → (i : ℕ) → made_by act ≡ Some i
        → i ≡ length state.jobs }
    ensures cells { (graph : Graph) (state : State) (j : ℕ)
        → length state.cells ≤ length (step_of graph state j).cells }
    ensures jobs { (graph : Graph) (state : State) (j : ℕ) (act : Act)
        → act_of graph state j ≡ Some act → (i : ℕ) → i < length (step_of graph state j).jobs
        → (i < length state.jobs) ⊎ (made_by act ≡ Some i) }
{}

/// As long as a job runs a function that gives a global its first value, it is the one job there is.
pub fn first_values_are_given_alone()
    ensures { (graph : Graph) → IsPlaced graph → (items : List ℕ) (j : ℕ)
        → RunsFirst graph (reach graph items) j → (i : ℕ) → i < length (reach graph items).jobs
        → i ≡ j }
{}
