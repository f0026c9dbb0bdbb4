ghost use Rattle.std.specs.Prelude.{◌≡◌, ℕ, false, IsSome, Some, List, ◌++◌, slice_get};
ghost use Rattle.sw_graph.specs.declared.function.GlobalKind.{GlobalKind};
ghost use Rattle.sw_graph.specs.declared.graph.Graph.{Graph};
ghost use Rattle.sw_graph.specs.Placed.{IsPlaced};
ghost use Rattle.sw_value.specs.declared.cell.HeapCell.TheVariants.{Object, Actor};
ghost use Rattle.sw_value.specs.declared.race.Place.{Place};
ghost use Rattle.sw_value.specs.declared.race.Place.TheVariants.{Prop, Global};
ghost use Rattle.sw_value.specs.declared.state.State.{State};
ghost use Rattle.sw_value.specs.declared.value.Value.{Value};
ghost use Rattle.sw_value.specs.Reach.{step_of, reach};
ghost use Rattle.sw_machine_kind_facts.specs.Kinded.{Kinded};
ghost use Rattle.sw_graph.specs.Supplied.{IsSupplied};
ghost use Rattle.sw_machine_access_facts.specs.Footprint.{Writes};
ghost use Rattle.sw_machine_access_facts.specs.Location.{IsLocation, content_of};
ghost use Rattle.sw_machine_let_facts.specs.Lets.{IsInCell, IsLet, IsPastFirsts, Changes, RunsFirst};

/// The write footprint of a step in all cells: of the parts of objects and actors, `let`s too, and
/// of what boxes hold it changes nothing but what the next access of its job writes. It is so in
/// each state that items lead to, and in each kinded state, reached or not. What has no value yet is
/// left out, since a step may make a cell.
pub fn steps_change_what_they_write()
    ensures reached { (graph : Graph) → IsPlaced graph → IsSupplied graph → (items : List ℕ)
        (j : ℕ) (place : Place) → IsInCell place → IsSome (content_of (reach graph items) place)
        → ¬ Writes graph (reach graph items) j place
        → content_of (step_of graph (reach graph items) j) place
        ≡ content_of (reach graph items) place }
    ensures kinded { (graph : Graph) → IsPlaced graph → IsSupplied graph → (state : State)
        → Kinded graph state → (j : ℕ) (place : Place) → IsInCell place
        → IsSome (content_of state place) → ¬ Writes graph state j place
        → content_of (step_of graph state j) place ≡ content_of state place }
{}

/// A `let` of an object or an actor, a part that has a value and is no location, keeps the value by
/// each step and by any further items. It never becomes a location.
pub fn lets_stay()
    ensures step { (graph : Graph) → IsPlaced graph → IsSupplied graph → (items : List ℕ)
        (j c i : ℕ) → IsSome (content_of (reach graph items) (Prop c i))
        → ¬ IsLocation graph (reach graph items) (Prop c i)
        → content_of (step_of graph (reach graph items) j) (Prop c i)
        ≡ content_of (reach graph items) (Prop c i) }
    ensures items { (graph : Graph) → IsPlaced graph → IsSupplied graph → (items more : List ℕ)
        (c i : ℕ) → IsSome (content_of (reach graph items) (Prop c i))
        → ¬ IsLocation graph (reach graph items) (Prop c i)
        → content_of (reach graph (items ++ more)) (Prop c i)
        ≡ content_of (reach graph items) (Prop c i) }
    ensures stays { (graph : Graph) (state : State) (j c i : ℕ)
        → IsSome (content_of state (Prop c i)) → ¬ IsLocation graph state (Prop c i)
        → ¬ IsLocation graph (step_of graph state j) (Prop c i) }
{}

/// Where a step of a placed graph changes a global that is a `let`, its job runs, and the top frame
/// is of a function that gives a global its first value. It is so in each state, reached or not.
pub fn global_lets_get_first_values()
    ensures firsts { (graph : Graph) → IsPlaced graph → (state : State) (j g : ℕ)
        → ¬ IsLocation graph state (Global g) → Changes graph state j (Global g)
        → RunsFirst graph state j }
{}

/// Once no frame is of a function that gives a global its first value, none is after any further
/// items, and each global that is a `let` keeps what it has.
pub fn global_lets_stay()
    ensures past { (graph : Graph) → IsPlaced graph → (items more : List ℕ)
        → IsPastFirsts graph (reach graph items)
        → IsPastFirsts graph (reach graph (items ++ more)) }
    ensures items { (graph : Graph) → IsPlaced graph → (items more : List ℕ) (g : ℕ)
        → IsPastFirsts graph (reach graph items) → ¬ IsLocation graph (reach graph items) (Global g)
        → content_of (reach graph (items ++ more)) (Global g)
        ≡ content_of (reach graph items) (Global g) }
{}

/// What is declared a `let` is no location, in each graph and state. So what the laws say of parts
/// and globals that are no locations, they say of each `let`.
pub fn lets_are_no_locations()
    ensures objects { (graph : Graph) (state : State) (c i k : ℕ) (parts : List Value)
        → slice_get state.cells c ≡ Some (Object k parts) → IsLet graph k i
        → ¬ IsLocation graph state (Prop c i) }
    ensures actors { (graph : Graph) (state : State) (c i k : ℕ) (parts : List Value)
        → slice_get state.cells c ≡ Some (Actor k parts) → IsLet graph k i
        → ¬ IsLocation graph state (Prop c i) }
    ensures globals { (graph : Graph) (state : State) (g : ℕ) (kind : GlobalKind)
        → slice_get graph.globals g ≡ Some kind → kind.mutable ≡ false
        → ¬ IsLocation graph state (Global g) }
{}
