//! Laws on effects that change the top frame of the job that executes them, and no other frame.
ghost use Rattle.std.specs.Prelude.{◌≡◌, ◌≢◌, ◌+◌, ℕ, true, false, IsTrue, Option, Some, None};
ghost use Rattle.std.specs.Prelude.{List, [], length};
ghost use Rattle.std.specs.Prelude.{slice_get};
ghost use Rattle.std.specs.List.{Contains};
ghost use Rattle.sw_graph.specs.declared.function.Function.{Function};
ghost use Rattle.sw_graph.specs.declared.function.RegKind.{RegKind};
ghost use Rattle.sw_graph.specs.declared.graph.Graph.{Graph};
ghost use Rattle.sw_graph.specs.Bodies.{has_self};
ghost use Rattle.sw_graph.specs.Points.{Point, block_start, point_in};
ghost use Rattle.sw_value.specs.declared.effect.Act.TheVariants.{Execute};
ghost use Rattle.sw_value.specs.declared.effect.Effect.{Effect};
ghost use Rattle.sw_value.specs.declared.effect.Effect.TheVariants.{Set};
ghost use Rattle.sw_value.specs.declared.frame.Frame.{Frame};
ghost use Rattle.sw_value.specs.declared.job.Job.{Job};
ghost use Rattle.sw_value.specs.declared.state.State.{State};
ghost use Rattle.sw_value.specs.declared.value.Value.{Value};
ghost use Rattle.sw_value.specs.Act.{execution_of};
ghost use Rattle.sw_value.specs.Effect.{point_effect};
ghost use Rattle.sw_value.specs.Reach.{after_effect, step_of};
ghost use Rattle.sw_value.specs.Value.{value_at};
ghost use Rattle.sw_machine_kind_facts.specs.Kinds.{HasKind, Referents};
ghost use Rattle.sw_owner_facts.specs.Colours.{Colour, OfJob};
ghost use Rattle.sw_owner_facts.specs.Owned.{IsSound};
ghost use Rattle.sw_owner_facts.specs.View.{Element, HoldsLive, IsFrame, IsUnheld, Register};
ghost use Rattle.sw_owner_facts.specs.View.{Frame as Spot};
ghost use Rattle.sw_owner_facts.specs.Within.{BeginsClosing, GivenAway, Weakened};
ghost use Rattle.sw_partition.specs.Regions.{Regions};
ghost use Rattle.sw_region_ops.specs.Elements.{element_at, elements_of};
ghost use Rattle.sw_region_facts.specs.FrameRegions.{IsWeaker, LiveIn, TogetherIn};
ghost use Rattle.sw_region_facts.specs.Moves.{IsSent, Makes, Sets, copied_from};
ghost use Rattle.sw_reach_facts.specs.Coloured.{ColoursFit, ConformancesHold};
ghost use Rattle.sw_reach_facts.specs.Reached.{colours_of};
ghost use Rattle.sw_view_facts.specs.Changes.{HoldsIn, KeepsShape};
ghost use Rattle.sw_view_facts.specs.Effects.{is_inside, next_of, register_of, turn_of};
ghost use Rattle.sw_view_facts.specs.Executing.{Executes};
ghost use Rattle.sw_view_facts.specs.Renaming.{HasHere, MayUnite, united};
ghost use Rattle.sw_view_facts.specs.Standing.{StandsAt};
ghost use Rattle.sw_view_facts.specs.Steps.{ChangesFrame, SameCall, TopAt};
ghost use Rattle.sw_view_facts.specs.Views.{Colours, annotated, closes_at, colours_by, here_at};
ghost use Rattle.sw_view_facts.specs.Views.{is_return, isolation_in, makes_itself, over, shape_by};
ghost use Rattle.sw_view_facts.specs.Views.{view_at, view_of};

/// A running job executes the effect of the point at which its top frame stands. If it is one of
/// these effects, only that frame changes, and in it at most one register.
pub fn effects_change_one_frame()
    ensures executed { (graph : Graph) (state : State) (q : Spot) (job : Job) (f : Frame)
        (function : Function) (point : Point) (e : Effect)
        → StandsAt graph state q job f function point
        → point_effect graph state (length job.frames) f point ≡ e
        → execution_of e ≡ Some (Execute e)
        → step_of graph state q.job ≡ after_effect q.job e state }
    ensures frame { (state : State) (q : Spot) (job : Job) (f : Frame) → TopAt state q job f
        → (e : Effect) → is_inside e ≡ true
        → ChangesFrame state (after_effect q.job e state) q f (turn_of e f) }
    ensures registers { (e : Effect) (f : Frame) (s : ℕ) → (register_of e ≡ Some s → ⊥)
        → value_at (turn_of e f).regs s ≡ value_at f.regs s }
{}

/// When a frame has the shape that it had: it wasn't about to return, it doesn't begin to close,
/// and its own `self` stays. It closes at a return directly after the point that makes what its
/// function initialises, and nowhere else.
pub fn frames_keep_their_shapes()
    ensures shape { (graph : Graph) (state : State) (q : Spot) (job : Job) (f : Frame)
        (function : Function) (point : Point) → StandsAt graph state q job f function point
        → (e : Effect) (next : ℕ) → next_of e ≡ Some next → is_return (Some point) ≡ false
        → closes_at graph function next ≡ false
        → (IsTrue (has_self function) → register_of e ≡ Some 0 → ⊥)
        → KeepsShape graph f (turn_of e f) }
    ensures opens { (graph : Graph) (function : Function) (p : ℕ) (point : Point)
        → point_in function p ≡ Some point → makes_itself graph function point ≡ false
        → closes_at graph function (p + 1) ≡ false }
    ensures stays_open { (graph : Graph) (function : Function) (p : ℕ)
        → is_return (point_in function p) ≡ false → closes_at graph function p ≡ false }
    ensures block_opens { (graph : Graph) (function : Function) (n p : ℕ)
        → block_start function n ≡ Some p → closes_at graph function p ≡ false }
    ensures closes { (graph : Graph) (function : Function) (p : ℕ) (point : Point)
        → point_in function p ≡ Some point → makes_itself graph function point ≡ true
        → is_return (point_in function (p + 1)) ≡ true
        → closes_at graph function (p + 1) ≡ true }
    ensures shut { (graph : Graph) (function : Function) (f g : Frame) → SameCall f g
        → slice_get graph.functions f.function ≡ Some function
        → isolation_in function g.regs ≡ isolation_in function f.regs
        → closes_at graph function g.point ≡ true → (under : Option Function)
        → shape_by graph under (Some g)
        ≡ record (shape_by graph under (Some f)) { closing = true } }
{}

/// Region operations change no state of the machine: a top frame in a weaker region state is a view
/// that is weakened, and an element that the operations send is given away.
pub fn region_states_change()
    ensures weakens { (graph : Graph) (regions later : Spot → Option Regions) (state : State)
        (colours : Colours) (q : Spot) (job : Job) (f : Frame) → TopAt state q job f
        → (function : Function) → slice_get graph.functions f.function ≡ Some function
        → (a c : Regions) → regions q ≡ Some a → later q ≡ Some c
        → ((p : Spot) → p ≢ q → later p ≡ regions p)
        → IsWeaker (elements_of graph.shapes function.regs) a c
        → Weakened (view_of graph regions state colours) (view_of graph later state colours) }
    ensures gives { (graph : Graph) (regions later : Spot → Option Regions) (state : State)
        (colours : Colours) (q : Spot) (job : Job) (f : Frame) → TopAt state q job f
        → (function : Function) → slice_get graph.functions f.function ≡ Some function
        → (a c : Regions) → regions q ≡ Some a → later q ≡ Some c
        → ((p : Spot) → p ≢ q → later p ≡ regions p)
        → IsWeaker (elements_of graph.shapes function.regs) a c → (x : Element)
        → IsSent (elements_of graph.shapes function.regs) a c x
        → GivenAway (view_of graph regions state colours) (view_of graph later state colours) q
        x }
{}

/// An effect keeps soundness, whatever it does: it sets no register; or the register holds only
/// what some elements held, with which it is together; or it holds a new colour alone.
pub fn effects_keep_soundness()
    ensures goes_on { (graph : Graph) (states : ℕ → List (Option Regions)) (state next : State)
        (q : Spot) (f : Frame) (function : Function) (e : Effect)
        (regions later : Spot → Option Regions) (colours after : Colours) (a c : Regions)
        → Executes graph states state next q f function e regions later colours after a c
        → KeepsShape graph f (turn_of e f) → register_of e ≡ None
        → IsWeaker (elements_of graph.shapes function.regs) a c
        → IsSound (view_of graph regions state colours)
        → IsSound (view_of graph later next after) }
    ensures sets { (graph : Graph) (states : ℕ → List (Option Regions)) (state next : State)
        (q : Spot) (f : Frame) (function : Function) (e : Effect)
        (regions later : Spot → Option Regions) (colours after : Colours) (a c : Regions)
        → Executes graph states state next q f function e regions later colours after a c
        → KeepsShape graph f (turn_of e f) → (r : ℕ) (sources : List Element)
        → register_of e ≡ Some r → Sets (elements_of graph.shapes function.regs) r sources a c
        → ((colour : Colour) → Contains (colours_by next after (Some (turn_of e f)) r) colour
        → (y : Element) × Contains sources y
        × HoldsIn state colours f (here_at colours q) y colour)
        → IsSound (view_of graph regions state colours)
        → IsSound (view_of graph later next after) }
    ensures freshens { (graph : Graph) (states : ℕ → List (Option Regions)) (state next : State)
        (q : Spot) (f : Frame) (function : Function) (e : Effect)
        (regions later : Spot → Option Regions) (colours after : Colours) (a c : Regions)
        → Executes graph states state next q f function e regions later colours after a c
        → KeepsShape graph f (turn_of e f) → (r number : ℕ) → register_of e ≡ Some r
        → ((x y : Element) → x ≢ Register r → y ≢ Register r
        → TogetherIn (elements_of graph.shapes function.regs) a x y
        → TogetherIn (elements_of graph.shapes function.regs) c x y)
        → ((x : Element) → x ≢ Register r
        → LiveIn (elements_of graph.shapes function.regs) c x
        → LiveIn (elements_of graph.shapes function.regs) a x)
        → IsUnheld (view_of graph regions state colours) (OfJob q.job number)
        → ((colour : Colour) → Contains (colours_by next after (Some (turn_of e f)) r) colour
        → colour ≡ OfJob q.job number)
        → IsSound (view_of graph regions state colours)
        → IsSound (view_of graph later next after) }
{}

/// A store whole: operands come together, their colours become one, and then the effect sets no
/// register. And a maker whole: the effect makes a cell with a new colour, and then the colours of
/// its operands become one with that.
pub fn stores_and_makers_keep_soundness()
    ensures stores { (graph : Graph) (states : ℕ → List (Option Regions)) (state next : State)
        (q : Spot) (f : Frame) (function : Function) (e : Effect) (colours : Colours)
        (a c : Regions) (y : Element) (kept : Colour) (numbers : List ℕ)
        → Executes graph states state next q f function e (over (annotated states state) q c)
        (annotated states next) (united q.job numbers kept colours)
        (united q.job numbers kept colours) c c
        → KeepsShape graph f (turn_of e f) → register_of e ≡ None
        → annotated states state q ≡ Some a
        → IsWeaker (elements_of graph.shapes function.regs) a c
        → ((p : Spot)
        → IsFrame (view_of graph (over (annotated states state) q c) state colours) p
        → HasHere colours p)
        → HoldsLive (view_of graph (over (annotated states state) q c) state colours) q y kept
        → ((n : ℕ) → Contains numbers n
        → MayUnite (view_of graph (over (annotated states state) q c) state colours) q y kept n)
        → IsSound (view_at graph states state colours)
        → IsSound (view_at graph states next (united q.job numbers kept colours)) }
    ensures makes { (graph : Graph) (states : ℕ → List (Option Regions)) (state next : State)
        (q : Spot) (f : Frame) (function : Function) (e : Effect) (colours after : Colours)
        (a c : Regions) (y : Element) (kept : Colour) (numbers : List ℕ)
        → Executes graph states state next q f function e (annotated states state)
        (annotated states next) colours after a c
        → KeepsShape graph f (turn_of e f) → (r number : ℕ) (xs : List Element)
        → register_of e ≡ Some r → Makes (elements_of graph.shapes function.regs) r xs a c
        → IsUnheld (view_at graph states state colours) (OfJob q.job number)
        → ((colour : Colour) → Contains (colours_by next after (Some (turn_of e f)) r) colour
        → colour ≡ OfJob q.job number)
        → ((p : Spot) → IsFrame (view_at graph states next after) p → HasHere after p)
        → HoldsLive (view_at graph states next after) q y kept
        → ((n : ℕ) → Contains numbers n
        → MayUnite (view_at graph states next after) q y kept n)
        → IsSound (view_at graph states state colours)
        → IsSound (view_at graph states next (united q.job numbers kept after)) }
{}

/// Copies, fields, payloads and loads: the register gets a value that reaches no more than the
/// value of another register. If one of the two isn't tracked, the value reaches nothing.
pub fn parts_are_taken()
    ensures { (graph : Graph) → ConformancesHold graph → (world : Referents) (state : State)
        (colours : Colours) → ColoursFit graph world state.cells colours.cells
        → (states : ℕ → List (Option Regions)) (next : State) (q : Spot) (f : Frame)
        (function : Function) (r s n : ℕ) (v w : Value) (from to : RegKind)
        (regions later : Spot → Option Regions) (a c : Regions)
        → Executes graph states state next q f function (Set r v n) regions later colours colours a
        c
        → KeepsShape graph f (turn_of (Set r v n) f)
        → value_at f.regs s ≡ Some w → slice_get function.regs s ≡ Some from
        → HasKind graph.shapes world.cells w from → slice_get function.regs r ≡ Some to
        → HasKind graph.shapes world.cells v to
        → ((colour : Colour) → Contains (colours_of state.cells colours.cells v) colour
        → Contains (colours_of state.cells colours.cells w) colour)
        → Sets (elements_of graph.shapes function.regs) r
        (copied_from (element_at (elements_of graph.shapes function.regs) r)
        (element_at (elements_of graph.shapes function.regs) s) s) a c
        → IsSound (view_of graph regions state colours)
        → IsSound (view_of graph later next colours) }
{}

/// An initialiser that makes its actor, or its object of a class with a global actor, has only its
/// return left.
pub fn initialisers_begin_to_close()
    ensures { (graph : Graph) (states : ℕ → List (Option Regions)) (state next : State) (q : Spot)
        (f : Frame) (function : Function) (e : Effect) (regions later : Spot → Option Regions)
        (colours after : Colours) (a c : Regions)
        → Executes graph states state next q f function e regions later colours after a c
        → ((under : Option Function) → shape_by graph under (Some (turn_of e f))
        ≡ record (shape_by graph under (Some f)) { closing = true })
        → BeginsClosing (view_of graph regions state colours) (view_of graph later next after) q }
{}
