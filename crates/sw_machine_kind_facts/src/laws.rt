ghost use Rattle.std.specs.Prelude.{◌≡◌, ℕ, Bool, false, IsTrue, IsSome, Some, None, List, length};
ghost use Rattle.std.specs.Prelude.{slice_get};
ghost use Rattle.sw_graph.specs.declared.graph.Graph.{Graph};
ghost use Rattle.sw_graph.specs.declared.function.Function.{Function};
ghost use Rattle.sw_graph.specs.declared.function.RegKind.{RegKind};
ghost use Rattle.sw_graph.specs.Kinds.{IsCaptured};
ghost use Rattle.sw_graph.specs.Placed.{EachFunction, FunctionAt, IsPlaced};
ghost use Rattle.sw_graph.specs.Ways.{Way};
ghost use Rattle.sw_value.specs.declared.cell.HeapCell.{HeapCell};
ghost use Rattle.sw_value.specs.declared.frame.Frame.{Frame};
ghost use Rattle.sw_value.specs.declared.job.Job.{Job};
ghost use Rattle.sw_value.specs.declared.state.State.{State};
ghost use Rattle.sw_value.specs.declared.value.Value.{Value};
ghost use Rattle.sw_value.specs.Act.{act_of};
ghost use Rattle.sw_value.specs.Effect.{effect_of, is_stuck};
ghost use Rattle.sw_value.specs.Job.{top_frame, is_running};
ghost use Rattle.sw_value.specs.Reach.{step_of, reach};
ghost use Rattle.sw_value.specs.Start.{start_of};
ghost use Rattle.sw_value.specs.Value.{reference_of};
ghost use Rattle.sw_graph.specs.Annotations.{ReachesReturns, StoresBefore};
ghost use Rattle.sw_graph.specs.Stores.{StoresFirst};
ghost use Rattle.sw_machine_kind_facts.specs.Kinded.{Kinded, KindedLater};
ghost use Rattle.sw_machine_kind_facts.specs.Kinds.{HasKind, CellFits};
ghost use Rattle.sw_machine_kind_facts.specs.Operands.{HasNext};
ghost use Rattle.sw_machine_kind_facts.specs.Standing.{FrameFits, awaited_at};
ghost use Rattle.sw_machine_kind_facts.specs.Stuck.{GetsStuck};
ghost use Rattle.sw_graph.specs.Supplied.{IsSupplied, BeginsWell, SetsGlobals};
ghost use Rattle.sw_graph.specs.Supplied.{IsPlain, ReturnsResult};
ghost use Rattle.sw_graph.specs.Sure.{SureWay, MayLackResult};

/// However long the items are that lead a supplied graph to a state, no running job of it is stuck:
/// its next instruction finds its operands, each of the kind of its register. So an item that names
/// a running job executes an instruction, unless the machine is halted.
pub fn machine_is_never_stuck()
    ensures never_stuck { (graph : Graph) → IsSupplied graph → (items : List ℕ) (j : ℕ) (job : Job)
        (frame : Frame) → slice_get (reach graph items).jobs j ≡ Some job → IsTrue (is_running job)
        → top_frame job ≡ Some frame
        → is_stuck (effect_of graph (reach graph items) (length job.frames) frame) ≡ false }
    ensures executes { (graph : Graph) → IsSupplied graph → (items : List ℕ) (j : ℕ) (job : Job)
        → (reach graph items).halted ≡ None → slice_get (reach graph items).jobs j ≡ Some job
        → IsTrue (is_running job) → IsSome (act_of graph (reach graph items) j) }
    ensures operands { (graph : Graph) → IsSupplied graph → (state : State)
        (kinded : Kinded graph state) (j : ℕ) (job : Job) → slice_get state.jobs j ≡ Some job
        → IsTrue (is_running job) → HasNext graph kinded.world.cells state job }
    ensures kinded { (graph : Graph) → IsSupplied graph → (items : List ℕ)
        → Kinded graph (reach graph items) }
{}

/// The start is kinded, and so is what a step leads to from a state that is kinded, reached or not:
/// each cell and job keeps its kind and result, and there may be more of them.
pub fn steps_keep_kinds()
    ensures starts { (graph : Graph) → IsSupplied graph → Kinded graph (start_of graph) }
    ensures keeps { (graph : Graph) → IsSupplied graph → (state : State) (item : ℕ)
        → (kinded : Kinded graph state)
        → KindedLater graph kinded.world (step_of graph state item) }
{}

/// What a kinded state says of each frame, and of each cell that a value names: they are there, and
/// fit.
pub fn kinded_states_fit()
    ensures frames { (graph : Graph) (state : State) (kinded : Kinded graph state) (j i : ℕ)
        (job : Job) (frame : Frame) → slice_get state.jobs j ≡ Some job
        → slice_get job.frames i ≡ Some frame
        → FrameFits graph kinded.world.cells (awaited_at job i) frame }
    ensures cells { (graph : Graph) (state : State) (kinded : Kinded graph state) (v : Value)
        (kind : RegKind) (c : ℕ) → HasKind graph.shapes kinded.world.cells v kind
        → reference_of v ≡ Some c → (cell : HeapCell) × (from : RegKind)
        × (slice_get state.cells c ≡ Some cell) × CellFits graph kinded.world cell from
        × IsCaptured (Some from) (Some kind) }
{}

/// A placed graph is supplied where its functions return their results, and those of first values
/// give these to their globals. A plain graph is supplied where its functions return their results.
pub fn graphs_are_supplied()
    ensures placed { (graph : Graph) → IsPlaced graph → EachFunction graph ReturnsResult
        → ((g f : ℕ) → slice_get graph.starts g ≡ Some f → FunctionAt graph f (StoresFirst g))
        → IsSupplied graph }
    ensures plain { (graph : Graph) → IsPlain graph → EachFunction graph ReturnsResult
        → IsSupplied graph }
{}

/// A way that constants leave is a way. A graph may be supplied though a way leads to a return of
/// nothing in a function that gives something: constants rule that way out.
pub fn constants_rule_out_ways()
    ensures ways { (function : Function) (p : ℕ) (passed : List ℕ) → SureWay function p passed
        → Way function p passed }
    ensures fewer { (graph : Graph) × IsSupplied graph × MayLackResult graph }
{}

/// How it is shown of a function that it returns its result, and that it gives a global a first
/// value: by an annotation of its points.
pub fn annotations_show_supplies()
    ensures results { (function : Function) (reached : ℕ → Bool)
        → ReachesReturns function reached → ReturnsResult function }
    ensures values { (g : ℕ) (function : Function) (stored : ℕ → Bool)
        → StoresBefore g function stored → StoresFirst g function }
{}

/// Each part of what is asked of a supplied graph is needed: without it some graph gets stuck that
/// has the others.
pub fn supplies_are_needed()
    ensures begins { (graph : Graph) × EachFunction graph ReturnsResult × SetsGlobals graph
        × GetsStuck graph }
    ensures returns { (graph : Graph) × BeginsWell graph × SetsGlobals graph × GetsStuck graph }
    ensures globals { (graph : Graph) × BeginsWell graph × EachFunction graph ReturnsResult
        × GetsStuck graph }
{}
