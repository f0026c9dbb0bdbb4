ghost use Rattle.std.specs.Prelude.{◌≡◌, ℕ, false, IsTrue, IsSome, Some, List, slice_get};
ghost use Rattle.sw_graph.specs.declared.function.GlobalKind.{GlobalKind};
ghost use Rattle.sw_graph.specs.declared.graph.Graph.{Graph};
ghost use Rattle.sw_value.specs.declared.cell.HeapCell.TheVariants as cell;
ghost use Rattle.sw_value.specs.declared.race.Access.{Access};
ghost use Rattle.sw_value.specs.declared.race.Place.{Place};
ghost use Rattle.sw_value.specs.declared.race.Place.TheVariants.{Prop, Global, BoxOf};
ghost use Rattle.sw_value.specs.declared.state.State.{State};
ghost use Rattle.sw_value.specs.declared.value.Value.{Value};
ghost use Rattle.sw_value.specs.Access.{next_access};
ghost use Rattle.sw_value.specs.Act.{act_of};
ghost use Rattle.sw_value.specs.Reach.{step_of};
ghost use Rattle.sw_machine_access_facts.specs.Footprint.{Reads, Writes};
ghost use Rattle.sw_machine_access_facts.specs.Location.{IsLocation, IsVar, content_of, with_content};

/// The write footprint of a step: it changes no location but the one that the next access of its
/// job writes, if there is such an access. No location goes away, whatever the step does.
pub fn steps_write_what_they_access()
    ensures writes { (graph : Graph) (state : State) (j : ℕ) (place : Place)
        → IsLocation graph state place → ¬ Writes graph state j place
        → content_of (step_of graph state j) place ≡ content_of state place }
    ensures stays { (graph : Graph) (state : State) (j : ℕ) (place : Place)
        → IsLocation graph state place → IsLocation graph (step_of graph state j) place }
{}

/// The read footprint of a step: what an item makes its job do doesn't depend on what stands at a
/// location, unless the next access of the job reads it. So a store doesn't depend on what it
/// writes over. A global that has no value yet is left out: a job that is about to load it is stuck
/// and accesses nothing, and with a value there it would go on.
pub fn steps_read_what_they_access()
    ensures reads { (graph : Graph) (state : State) (j : ℕ) (place : Place) (value : Value)
        → IsLocation graph state place → IsSome (content_of state place)
        → ¬ Reads graph state j place
        → act_of graph (with_content place value state) j ≡ act_of graph state j }
{}

/// The next access of a job is the job's own, and of a location. What is read has a value. So has
/// each part and each box; a global that is written may have none, where its first value is stored.
pub fn accesses_are_of_locations()
    ensures job { (graph : Graph) (state : State) (j : ℕ) (access : Access)
        → next_access graph state j ≡ Some access → access.job ≡ j }
    ensures location { (graph : Graph) (state : State) (j : ℕ) (access : Access)
        → next_access graph state j ≡ Some access → IsLocation graph state access.place }
    ensures read { (graph : Graph) (state : State) (j : ℕ) (access : Access)
        → next_access graph state j ≡ Some access → access.writes ≡ false
        → IsSome (content_of state access.place) }
    ensures parts { (graph : Graph) (state : State) (c i : ℕ)
        → IsLocation graph state (Prop c i) → IsSome (content_of state (Prop c i)) }
    ensures boxes { (graph : Graph) (state : State) (c : ℕ)
        → IsLocation graph state (BoxOf c) → IsSome (content_of state (BoxOf c)) }
{}

/// Every box is a location, and so is every global `var` and every `var` part of an object or an
/// actor. So the laws on locations leave out none of them.
pub fn variables_are_locations()
    ensures boxes { (graph : Graph) (state : State) (c : ℕ) (value : Value)
        → slice_get state.cells c ≡ Some (cell.BoxOf value) → IsLocation graph state (BoxOf c) }
    ensures globals { (graph : Graph) (state : State) (g : ℕ) (kind : GlobalKind)
        → slice_get graph.globals g ≡ Some kind → IsTrue kind.mutable
        → IsLocation graph state (Global g) }
    ensures objects { (graph : Graph) (state : State) (c i k : ℕ) (parts : List Value)
        → slice_get state.cells c ≡ Some (cell.Object k parts) → IsSome (slice_get parts i)
        → IsVar graph k i → IsLocation graph state (Prop c i) }
    ensures actors { (graph : Graph) (state : State) (c i k : ℕ) (parts : List Value)
        → slice_get state.cells c ≡ Some (cell.Actor k parts) → IsSome (slice_get parts i)
        → IsVar graph k i → IsLocation graph state (Prop c i) }
{}

/// Another value at a place that has one stands there, and changes no other place.
pub fn contents_are_apart()
    ensures same { (state : State) (place : Place) (value : Value)
        → IsSome (content_of state place)
        → content_of (with_content place value state) place ≡ Some value }
    ensures others { (state : State) (place other : Place) (value : Value) → ¬ (other ≡ place)
        → content_of (with_content place value state) other ≡ content_of state other }
{}
