//! Laws on calls, returns and jobs: what each does to the view of a state.
ghost use Rattle.std.specs.Prelude.{◌≡◌, ◌≢◌, ◌⊎◌, ◌<◌, ℕ, false, IsTrue, Option, Some, None, List};
ghost use Rattle.std.specs.Prelude.{[]};
ghost use Rattle.std.specs.Prelude.{◌∷◌, length, slice_get};
ghost use Rattle.std.specs.List.{Contains};
ghost use Rattle.sw_graph.specs.declared.function.Function.{Function};
ghost use Rattle.sw_graph.specs.declared.graph.Graph.{Graph};
ghost use Rattle.sw_graph.specs.Bodies.{has_self};
ghost use Rattle.sw_value.specs.declared.effect.Act.TheVariants.{Dispatch, Wake};
ghost use Rattle.sw_value.specs.declared.cell.HeapCell.TheVariants.{TaskOf};
ghost use Rattle.sw_value.specs.declared.effect.Effect.TheVariants.{New, Spawn};
ghost use Rattle.sw_value.specs.declared.frame.Frame.{Frame};
ghost use Rattle.sw_value.specs.declared.job.Job.{Job};
ghost use Rattle.sw_value.specs.declared.state.State.{State};
ghost use Rattle.sw_value.specs.declared.state.TrapKind.{TrapKind};
ghost use Rattle.sw_value.specs.declared.value.Value.{Value};
ghost use Rattle.sw_value.specs.Act.{act_of};
ghost use Rattle.sw_value.specs.Job.{leave, new_job, wake};
ghost use Rattle.sw_value.specs.Reach.{after_effect, step_of};
ghost use Rattle.sw_value.specs.State.{add_job, halt, in_job};
ghost use Rattle.sw_owner_facts.specs.Calls.{Called, Handed, IsOnActor, IsOnNone, JobEnded};
ghost use Rattle.sw_owner_facts.specs.Calls.{ResultWith, Returned, Spawned};
ghost use Rattle.sw_owner_facts.specs.Colours.{Actor, Colour};
ghost use Rattle.sw_owner_facts.specs.Owned.{IsSound};
ghost use Rattle.sw_owner_facts.specs.View.{Element, HoldsLive, InOneRegion, IsDisconnected};
ghost use Rattle.sw_owner_facts.specs.View.{IsFrame};
ghost use Rattle.sw_owner_facts.specs.View.{above, bottom};
ghost use Rattle.sw_owner_facts.specs.View.{Frame as Spot};
ghost use Rattle.sw_owner_facts.specs.Within.{Dispatched};
ghost use Rattle.sw_partition.specs.Regions.{Regions};
ghost use Rattle.sw_region_ops.specs.Elements.{elements_of};
ghost use Rattle.sw_region_facts.specs.Moves.{Sets};
ghost use Rattle.sw_reach_facts.specs.Reached.{colours_of};
ghost use Rattle.sw_view_facts.specs.Calling.{Enters};
ghost use Rattle.sw_view_facts.specs.Dispatching.{Dispatches};
ghost use Rattle.sw_view_facts.specs.Entering.{IsFirstFrame, TakesLent};
ghost use Rattle.sw_view_facts.specs.Returning.{Leaves};
ghost use Rattle.sw_view_facts.specs.Steps.{TopAt};
ghost use Rattle.sw_view_facts.specs.Views.{Colours, annotated, frame_at, here_at, shape_with};
ghost use Rattle.sw_view_facts.specs.Views.{view_at, view_of};

/// A call of any kind puts a frame on top, if the callee's elements that share a colour are in one
/// region, and what it holds has the colour of its `Here` or was sent to it. The register that
/// waits is with each element that the result may come from. The shape of the new frame is read off
/// the frame that the machine pushes.
pub fn calls_push_frames()
    ensures shape { (graph : Graph) (states : ℕ → List (Option Regions)) (state : State) (p : Spot)
        (f t : Frame) (function : Function) (regions : Spot → Option Regions)
        (colours after : Colours) (made : Regions)
        → Enters graph states state p f t function regions colours after made
        → (view_at graph states (step_of graph state p.job) after).shape (above p)
        ≡ shape_with graph (Some function) t (slice_get graph.functions t.function) }
    ensures called { (graph : Graph) (states : ℕ → List (Option Regions)) (state : State) (p : Spot)
        (f t : Frame) (function : Function) (regions : Spot → Option Regions)
        (colours after : Colours) (made : Regions)
        → Enters graph states state p f t function regions colours after made
        → (c : Regions) (sources : List Element)
        → annotated states (step_of graph state p.job) p ≡ Some c
        → Sets (elements_of graph.shapes function.regs) t.result sources made c
        → ((y z : Element) (d : Colour)
        → HoldsLive (view_at graph states (step_of graph state p.job) after) (above p) y d
        → HoldsLive (view_at graph states (step_of graph state p.job) after) (above p) z d
        → InOneRegion (view_at graph states (step_of graph state p.job) after) (above p) y z)
        → ((y : Element) (d : Colour)
        → HoldsLive (view_at graph states (step_of graph state p.job) after) (above p) y d
        → (here_at after (above p) ≡ d)
        ⊎ IsDisconnected (view_of graph regions state colours) p.job d)
        → Called (view_of graph regions state colours)
        (view_at graph states (step_of graph state p.job) after) p }
    ensures shares { (graph : Graph) (states : ℕ → List (Option Regions)) (state : State) (p : Spot)
        (f t : Frame) (function : Function) (regions : Spot → Option Regions)
        (colours after : Colours) (made : Regions)
        → Enters graph states state p f t function regions colours after made
        → (c : Regions) (sources : List Element)
        → annotated states (step_of graph state p.job) p ≡ Some c
        → Sets (elements_of graph.shapes function.regs) t.result sources made c
        → (s : Element) → Contains sources s
        → ResultWith (view_of graph regions state colours)
        (view_at graph states (step_of graph state p.job) after) p s }
{}

/// A frame that begins with values that it is lent holds the colour of its `Here` alone, all of it
/// in one region.
pub fn frames_hold_what_is_lent()
    ensures own { (graph : Graph) (regions : Spot → Option Regions) (state : State)
        (colours : Colours) (q : Spot) (t : Frame) (callee : Function) (values : List Value)
        (e : Regions) → TakesLent graph regions state colours q t callee values e
        → (y : Element) (d : Colour) → HoldsLive (view_of graph regions state colours) q y d
        → here_at colours q ≡ d }
    ensures together { (graph : Graph) (regions : Spot → Option Regions) (state : State)
        (colours : Colours) (q : Spot) (t : Frame) (callee : Function) (values : List Value)
        (e : Regions) → TakesLent graph regions state colours q t callee values e
        → (y z : Element) (d : Colour) → HoldsLive (view_of graph regions state colours) q y d
        → HoldsLive (view_of graph regions state colours) q z d
        → InOneRegion (view_of graph regions state colours) q y z }
{}

/// A return takes the top frame away, and the frame below gets the value, if its colours may be
/// handed to it. The return of the last frame ends the job.
pub fn returns_pop_frames()
    ensures returned { (graph : Graph) (states : ℕ → List (Option Regions)) (state : State)
        (p : Spot) (f t : Frame) (function callee : Function) (v : Value) (colours after : Colours)
        → Leaves graph state p f t function callee v colours after
        → ((c : Colour) → Contains (colours_of state.cells colours.cells v) c
        → Handed (view_at graph states state colours) p t.result c)
        → Returned (view_at graph states state colours)
        (view_at graph states (step_of graph state p.job) after) p t.result }
    ensures ended { (graph : Graph) (states : ℕ → List (Option Regions)) (state next : State)
        (j : ℕ) (job : Job) (t : Frame) (v : Value) (colours after : Colours)
        → TopAt state (bottom j) job t → next ≡ in_job (leave v) j state
        → after.cells ≡ colours.cells
        → ((p : Spot) → p.job ≢ j → here_at after p ≡ here_at colours p)
        → JobEnded (view_at graph states state colours)
        (view_at graph states next after) j }
{}

/// A job more, of one frame, if what it holds has the colour of its `Here` or was sent to it, and
/// it stands on its actor or on none. The task's cell is then made in the state with that job.
pub fn tasks_add_jobs()
    ensures then { (state : State) (j r job cell next : ℕ) (frame : Frame)
        → after_effect j (Spawn r frame job cell next) state
        ≡ after_effect j (New r (TaskOf job) cell next) (add_job (new_job (frame ∷ [])) state) }
    ensures top { (state : State) (frame : Frame) (q : Spot) (job : Job) (f : Frame)
        → TopAt state q job f → TopAt (add_job (new_job (frame ∷ [])) state) q job f }
    ensures shape { (graph : Graph) (later : Spot → Option Regions) (state : State) (frame : Frame)
        (after : Colours)
        → (view_of graph later (add_job (new_job (frame ∷ [])) state) after).shape
        (bottom (length state.jobs))
        ≡ shape_with graph None frame (slice_get graph.functions frame.function) }
    ensures spawned { (graph : Graph) (regions later : Spot → Option Regions) (state : State)
        (frame : Frame) (colours after : Colours) → after.cells ≡ colours.cells
        → ((p : Spot) → p.job < length state.jobs → here_at after p ≡ here_at colours p)
        → ((p : Spot) → p.job < length state.jobs → later p ≡ regions p)
        → ((x y : Element) (c : Colour)
        → HoldsLive (view_of graph later (add_job (new_job (frame ∷ [])) state) after)
        (bottom (length state.jobs)) x c
        → HoldsLive (view_of graph later (add_job (new_job (frame ∷ [])) state) after)
        (bottom (length state.jobs)) y c
        → InOneRegion (view_of graph later (add_job (new_job (frame ∷ [])) state) after)
        (bottom (length state.jobs)) x y)
        → ((x : Element) (c : Colour)
        → HoldsLive (view_of graph later (add_job (new_job (frame ∷ [])) state) after)
        (bottom (length state.jobs)) x c
        → (here_at after (bottom (length state.jobs)) ≡ c)
        ⊎ IsDisconnected (view_of graph regions state colours) (length state.jobs) c)
        → ((a : Actor)
        × IsOnActor (view_of graph later (add_job (new_job (frame ∷ [])) state) after)
        (bottom (length state.jobs)) a)
        ⊎ IsOnNone (view_of graph later (add_job (new_job (frame ∷ [])) state) after)
        (bottom (length state.jobs))
        → Spawned (view_of graph regions state colours)
        (view_of graph later (add_job (new_job (frame ∷ [])) state) after) (length state.jobs) }
{}

/// A job gets its executor if that is free: then no running job stands on its actor.
pub fn dispatches_give_executors()
    ensures asks { (graph : Graph) (state : State) (j : ℕ) → act_of graph state j ≡ Some Dispatch
        → Dispatches state (step_of graph state j) j }
    ensures dispatched { (graph : Graph) (states : ℕ → List (Option Regions)) (state next : State)
        (j : ℕ) (colours : Colours) → Dispatches state next j
        → Dispatched (view_at graph states state colours)
        (view_at graph states next colours) j }
{}

/// A job goes on with the result of another, which reaches no colour.
pub fn waking_keeps_soundness()
    ensures asks { (graph : Graph) (state : State) (j ended r : ℕ) (v : Value)
        → act_of graph state j ≡ Some (Wake ended r v)
        → step_of graph state j ≡ in_job (wake r v) j state }
    ensures woken { (graph : Graph) (states : ℕ → List (Option Regions)) (state next : State) (q : Spot)
        (job : Job) (f : Frame) (function : Function) (r : ℕ) (v : Value) (colours : Colours)
        (a : Regions) → TopAt state q job f
        → slice_get graph.functions f.function ≡ Some function
        → next ≡ in_job (wake r v) q.job state → (IsTrue (has_self function) → r ≢ 0)
        → annotated states state q ≡ Some a
        → ((colour : Colour) → Contains (colours_of state.cells colours.cells v) colour → ⊥)
        → IsSound (view_at graph states state colours)
        → IsSound (view_at graph states next colours) }
{}

/// A trap halts the machine, and leaves the view as it is.
pub fn traps_change_no_view()
    ensures { (graph : Graph) (states : ℕ → List (Option Regions)) (state : State)
        (kind : TrapKind) (at : ℕ) (colours : Colours)
        → view_at graph states (halt kind at state) colours
        ≡ view_at graph states state colours }
{}

/// Before any item the view is sound: no job runs, and no frame holds more than its `Here`.
pub fn first_frames_are_sound()
    ensures { (graph : Graph) (regions : Spot → Option Regions) (state : State) (colours : Colours)
        → ((p : Spot) → IsFrame (view_of graph regions state colours) p
        → (h : Frame) × (frame_at state p ≡ Some h) × IsFirstFrame graph state colours p h)
        → ((j : ℕ) → (view_of graph regions state colours).running j ≡ false)
        → IsSound (view_of graph regions state colours) }
{}
