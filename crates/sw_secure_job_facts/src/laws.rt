//! The laws.
ghost use Rattle.std.specs.Prelude.{◌≡◌, ℕ, Option, Some, List, [], ◌∷◌};
ghost use Rattle.sw_graph.specs.declared.function.Function.{Function};
ghost use Rattle.sw_graph.specs.declared.graph.Graph.{Graph};
ghost use Rattle.sw_graph.specs.Clean.{IsClean};
ghost use Rattle.sw_graph.specs.Points.{Point};
ghost use Rattle.sw_graph.specs.Supplied.{IsSupplied};
ghost use Rattle.sw_value.specs.declared.effect.Act.TheVariants.{Dispatch, Wake};
ghost use Rattle.sw_value.specs.declared.effect.Effect.TheVariants.{Spawn, Leave, Halt};
ghost use Rattle.sw_value.specs.declared.frame.Frame.{Frame};
ghost use Rattle.sw_value.specs.declared.job.Job.{Job};
ghost use Rattle.sw_value.specs.declared.state.State.{State};
ghost use Rattle.sw_value.specs.declared.state.TrapKind.{TrapKind};
ghost use Rattle.sw_value.specs.declared.value.Value.{Value};
ghost use Rattle.sw_value.specs.Act.{act_of};
ghost use Rattle.sw_value.specs.Reach.{step_of};
ghost use Rattle.sw_value.specs.Start.{start_of, start_frames};
ghost use Rattle.sw_partition.specs.Regions.{Regions};
ghost use Rattle.sw_owner_facts.specs.Colours.{Colour};
ghost use Rattle.sw_owner_facts.specs.View.{Frame as Spot};
ghost use Rattle.sw_region_facts.specs.Annotated.{Annotates};
ghost use Rattle.sw_view_facts.specs.Views.{Colours};
ghost use Rattle.sw_secure_facts.specs.Executing.{Executing, MayJoin, StaysSecure};
ghost use Rattle.sw_secure_facts.specs.Painting.{PaintsTask, made_by};
ghost use Rattle.sw_secure_facts.specs.Secure.{IsSecure};
ghost use Rattle.sw_secure_job_facts.specs.Begins.{AreAnnotated, HeresBegin};

/// A step that makes a task. There are colours that it leads to.
pub fn tasks_stay_secure()
    ensures stays { (graph : Graph) (states : ℕ → List (Option Regions)) (state : State)
        (colours : Colours) (q : Spot) (number : ℕ) (job : Job) (f : Frame) (function : Function)
        (point : Point) (r : ℕ) (frame : Frame) (made cell next : ℕ)
        → Executing graph states state colours q number job f function point
        (Spawn r frame made cell next)
        → StaysSecure graph states state colours q number f point (Spawn r frame made cell next) }
    ensures paints { (graph : Graph) (states : ℕ → List (Option Regions)) (state : State)
        (colours : Colours) (q : Spot) (number : ℕ) (job : Job) (f : Frame) (function : Function)
        (point : Point) (r : ℕ) (frame : Frame) (made cell next : ℕ)
        → Executing graph states state colours q number job f function point
        (Spawn r frame made cell next)
        → (after : Colours) × PaintsTask state colours q.job made number f frame
        (made_by graph colours q.job number point (Spawn r frame made cell next)) after }
{}

/// A step that returns from a frame, to the one below or as the last of its job, and one that traps.
pub fn returns_stay_secure()
    ensures returns { (graph : Graph) (states : ℕ → List (Option Regions)) (state : State)
        (colours : Colours) (q : Spot) (number : ℕ) (job : Job) (f : Frame) (function : Function)
        (point : Point) (v : Value)
        → Executing graph states state colours q number job f function point (Leave v)
        → StaysSecure graph states state colours q number f point (Leave v) }
    ensures traps { (graph : Graph) (states : ℕ → List (Option Regions)) (state : State)
        (colours : Colours) (q : Spot) (number : ℕ) (job : Job) (f : Frame) (function : Function)
        (point : Point) (kind : TrapKind) (at : ℕ)
        → Executing graph states state colours q number job f function point (Halt kind at)
        → StaysSecure graph states state colours q number f point (Halt kind at) }
{}

/// A job gets its executor, or goes on with the result of another.
pub fn jobs_stay_secure()
    ensures dispatches { (graph : Graph) (states : ℕ → List (Option Regions)) (state : State)
        (colours : Colours) (j : ℕ) → IsSecure graph states state colours
        → act_of graph state j ≡ Some Dispatch → IsSecure graph states (step_of graph state j) colours }
    ensures wakes { (graph : Graph) (states : ℕ → List (Option Regions)) (state : State)
        (colours : Colours) (j ended r : ℕ) (v : Value) → IsSecure graph states state colours
        → act_of graph state j ≡ Some (Wake ended r v)
        → IsSecure graph states (step_of graph state j) colours }
{}

/// Before any item the state is secure, if each frame's `Here` has the colour of its actor, or one of
/// the job.
pub fn starts_are_secure()
    ensures { (graph : Graph) → IsClean graph → IsSupplied graph
        → (states : ℕ → List (Option Regions)) → AreAnnotated graph states
        → (row : List Colour) → HeresBegin (start_frames graph) row
        → IsSecure graph states (start_of graph) (record { cells = []; heres = row ∷ [] }) }
{}
