//! The laws. In each the job of q runs, and its top frame stands at the instruction.
ghost use Rattle.std.specs.Prelude.{◌≡◌, ℕ, Option, Some, None, List, [], ◌∷◌, false, length};
ghost use Rattle.sw_graph.specs.declared.function.Function.{Function};
ghost use Rattle.sw_graph.specs.declared.graph.Graph.{Graph};
ghost use Rattle.sw_graph.specs.declared.instr.Instr.TheVariants.{Copy, Field, Payload, LoadBox};
ghost use Rattle.sw_graph.specs.declared.instr.Instr.TheVariants.{LoadProp, Make, Const};
ghost use Rattle.sw_graph.specs.declared.instr.Instr.TheVariants.{LoadGlobal, StoreBox, StoreProp};
ghost use Rattle.sw_graph.specs.declared.instr.Instr.TheVariants.{StoreGlobal, NewBox, NewObject, Print};
ghost use Rattle.sw_graph.specs.declared.instr.Instr.TheVariants.{Yield};
ghost use Rattle.sw_graph.specs.declared.instr.Literal.{Literal};
ghost use Rattle.sw_graph.specs.declared.instr.Operand.{Operand};
ghost use Rattle.sw_graph.specs.Points.{Middle};
ghost use Rattle.sw_value.specs.declared.cell.Slot.TheVariants.{Part, Content};
ghost use Rattle.sw_value.specs.declared.frame.Frame.{Frame};
ghost use Rattle.sw_value.specs.declared.job.Job.{Job};
ghost use Rattle.sw_value.specs.declared.state.State.{State};
ghost use Rattle.sw_value.specs.declared.value.Value.{Value};
ghost use Rattle.sw_value.specs.Effect.{loaded};
ghost use Rattle.sw_value.specs.Reach.{step_of};
ghost use Rattle.sw_value.specs.Value.{value_at};
ghost use Rattle.sw_owner_facts.specs.Colours.{Colour, OfJob};
ghost use Rattle.sw_owner_facts.specs.View.{Here, IsUnheld, Register};
ghost use Rattle.sw_owner_facts.specs.View.{Frame as Spot};
ghost use Rattle.sw_partition.specs.Regions.{Regions};
ghost use Rattle.sw_region_ops.specs.Elements.{element_at, elements_of};
ghost use Rattle.sw_region_facts.specs.Moves.{tracked};
ghost use Rattle.sw_view_facts.specs.Memory.{coloured_more};
ghost use Rattle.sw_view_facts.specs.Renaming.{united};
ghost use Rattle.sw_view_facts.specs.Standing.{StandsAt};
ghost use Rattle.sw_view_facts.specs.Views.{Colours, annotated, frame_at, makes_itself, view_of};
ghost use Rattle.sw_store_facts.specs.Sound.{HasSlotColour, HasSoundView, HaveHeres, IsColoured};
ghost use Rattle.sw_store_facts.specs.Sound.{IsOfHere, MayBecomeOne, stored_with};

/// A register gets the value of another, a part of it, or a value of its payload.
pub fn copies_keep_soundness()
    ensures copy { (graph : Graph) (states : ℕ → List (Option Regions)) (state : State)
        (colours : Colours) → IsColoured graph states state colours → (q : Spot) (job : Job)
        (f : Frame) (function : Function) (at dst : ℕ) (src : Operand)
        → StandsAt graph state q job f function (Middle (Copy at dst src))
        → HasSoundView graph states (step_of graph state q.job) colours }
    ensures field { (graph : Graph) (states : ℕ → List (Option Regions)) (state : State)
        (colours : Colours) → IsColoured graph states state colours → (q : Spot) (job : Job)
        (f : Frame) (function : Function) (at dst : ℕ) (src : Operand) (part : ℕ)
        → StandsAt graph state q job f function (Middle (Field at dst src part))
        → HasSoundView graph states (step_of graph state q.job) colours }
    ensures payload { (graph : Graph) (states : ℕ → List (Option Regions)) (state : State)
        (colours : Colours) → IsColoured graph states state colours → (q : Spot) (job : Job)
        (f : Frame) (function : Function) (at dst : ℕ) (src : Operand) (index : ℕ)
        → StandsAt graph state q job f function (Middle (Payload at dst src index))
        → HasSoundView graph states (step_of graph state q.job) colours }
{}

/// A register gets what is in a box, or in an object that is tracked, if that reaches the colour of
/// its cell alone.
pub fn loads_keep_soundness()
    ensures boxes { (graph : Graph) (states : ℕ → List (Option Regions)) (state : State)
        (colours : Colours) → IsColoured graph states state colours → (q : Spot) (job : Job)
        (f : Frame) (function : Function) (at dst : ℕ) (cell : Operand)
        → StandsAt graph state q job f function (Middle (LoadBox at dst cell))
        → HasSlotColour state colours f cell Content
        → HasSoundView graph states (step_of graph state q.job) colours }
    ensures parts { (graph : Graph) (states : ℕ → List (Option Regions)) (state : State)
        (colours : Colours) → IsColoured graph states state colours → (q : Spot) (job : Job)
        (f : Frame) (function : Function) (at dst : ℕ) (cell : Operand) (part number : ℕ)
        → StandsAt graph state q job f function (Middle (LoadProp at dst cell part))
        → element_at (elements_of graph.shapes function.regs) cell.reg ≡ Some number
        → HasSlotColour state colours f cell (Part part)
        → HasSoundView graph states (step_of graph state q.job) colours }
{}

/// A register gets a literal, which reaches nothing.
pub fn literals_keep_soundness()
    ensures { (graph : Graph) (states : ℕ → List (Option Regions)) (state : State)
        (colours : Colours) → IsColoured graph states state colours → (q : Spot) (job : Job)
        (f : Frame) (function : Function) (at dst : ℕ) (l : Literal)
        → StandsAt graph state q job f function (Middle (Const at dst l))
        → HasSoundView graph states (step_of graph state q.job) colours }
{}

/// A register gets what is in a global, or in a cell that isn't tracked, if that reaches the colour
/// of the frame's `Here` alone.
pub fn reads_of_what_is_here_keep_soundness()
    ensures globals { (graph : Graph) (states : ℕ → List (Option Regions)) (state : State)
        (colours : Colours) → IsColoured graph states state colours → (q : Spot) (job : Job)
        (f : Frame) (function : Function) (at dst global : ℕ)
        → StandsAt graph state q job f function (Middle (LoadGlobal at dst global))
        → ((v : Value) → value_at state.globals global ≡ Some v → IsOfHere state colours q v)
        → HasSoundView graph states (step_of graph state q.job) colours }
    ensures parts { (graph : Graph) (states : ℕ → List (Option Regions)) (state : State)
        (colours : Colours) → IsColoured graph states state colours → (q : Spot) (job : Job)
        (f : Frame) (function : Function) (at dst : ℕ) (cell : Operand) (part : ℕ)
        → StandsAt graph state q job f function (Middle (LoadProp at dst cell part))
        → element_at (elements_of graph.shapes function.regs) cell.reg ≡ None
        → ((v : Value) → loaded state f cell (Part part) ≡ Some v → IsOfHere state colours q v)
        → HasSoundView graph states (step_of graph state q.job) colours }
{}

/// A register is stored in a box, in a part of a cell or in a global, and colours of what comes
/// together by that become one.
pub fn stores_keep_soundness()
    ensures boxes { (graph : Graph) (states : ℕ → List (Option Regions)) (state : State)
        (colours : Colours) → IsColoured graph states state colours
        → HaveHeres graph states state colours → (q : Spot) (job : Job) (f : Frame)
        (function : Function) (at : ℕ) (cell src : Operand)
        → StandsAt graph state q job f function (Middle (StoreBox at cell src)) → (kept : Colour)
        (numbers : List ℕ)
        → MayBecomeOne state colours q f
        (tracked (elements_of graph.shapes function.regs) (cell ∷ src ∷ [])) kept numbers
        → HasSoundView graph states (step_of graph state q.job)
        (united q.job numbers kept colours) }
    ensures parts { (graph : Graph) (states : ℕ → List (Option Regions)) (state : State)
        (colours : Colours) → IsColoured graph states state colours
        → HaveHeres graph states state colours → (q : Spot) (job : Job) (f : Frame)
        (function : Function) (at : ℕ) (cell : Operand) (part : ℕ) (src : Operand)
        → StandsAt graph state q job f function (Middle (StoreProp at cell part src))
        → (kept : Colour) (numbers : List ℕ)
        → MayBecomeOne state colours q f (stored_with (elements_of graph.shapes function.regs)
        (element_at (elements_of graph.shapes function.regs) cell.reg) cell src) kept numbers
        → HasSoundView graph states (step_of graph state q.job)
        (united q.job numbers kept colours) }
    ensures globals { (graph : Graph) (states : ℕ → List (Option Regions)) (state : State)
        (colours : Colours) → IsColoured graph states state colours
        → HaveHeres graph states state colours → (q : Spot) (job : Job) (f : Frame)
        (function : Function) (at global : ℕ) (src : Operand)
        → StandsAt graph state q job f function (Middle (StoreGlobal at global src))
        → (kept : Colour) (numbers : List ℕ)
        → MayBecomeOne state colours q f
        (Here ∷ tracked (elements_of graph.shapes function.regs) (src ∷ [])) kept numbers
        → HasSoundView graph states (step_of graph state q.job)
        (united q.job numbers kept colours) }
{}

/// A struct, or a case of an enum, is made of registers.
pub fn makers_keep_soundness()
    ensures { (graph : Graph) (states : ℕ → List (Option Regions)) (state : State)
        (colours : Colours) → IsColoured graph states state colours → (q : Spot) (job : Job)
        (f : Frame) (function : Function) (at dst shape : ℕ) (tag : Option ℕ)
        (args : List Operand)
        → StandsAt graph state q job f function (Middle (Make at dst shape tag args))
        → HasSoundView graph states (step_of graph state q.job) colours }
{}

/// A box, or an object that is tracked, is made with a colour of its own that nothing live holds,
/// and that colour becomes one with others of what it is made of.
pub fn new_cells_keep_soundness()
    ensures boxes { (graph : Graph) (states : ℕ → List (Option Regions)) (state : State)
        (colours : Colours) → IsColoured graph states state colours
        → HaveHeres graph states state colours → length colours.cells ≡ length state.cells
        → (q : Spot) (job : Job) (f : Frame) (function : Function) (at dst number : ℕ)
        (src : Operand) → StandsAt graph state q job f function (Middle (NewBox at dst src))
        → element_at (elements_of graph.shapes function.regs) dst ≡ Some number → (own : ℕ)
        → IsUnheld (view_of graph (annotated states state) state colours) (OfJob q.job own)
        → (kept : Colour) (numbers : List ℕ)
        → ((g : Frame) → frame_at (step_of graph state q.job) q ≡ Some g
        → MayBecomeOne (step_of graph state q.job)
        (coloured_more (Some (OfJob q.job own)) colours) q g
        (Register dst ∷ tracked (elements_of graph.shapes function.regs) (src ∷ [])) kept numbers)
        → HasSoundView graph states (step_of graph state q.job)
        (united q.job numbers kept (coloured_more (Some (OfJob q.job own)) colours)) }
    ensures objects { (graph : Graph) (states : ℕ → List (Option Regions)) (state : State)
        (colours : Colours) → IsColoured graph states state colours
        → HaveHeres graph states state colours → length colours.cells ≡ length state.cells
        → (q : Spot) (job : Job) (f : Frame) (function : Function) (at dst shape number : ℕ)
        (args : List Operand)
        → StandsAt graph state q job f function (Middle (NewObject at dst shape args))
        → makes_itself graph function (Middle (NewObject at dst shape args)) ≡ false
        → element_at (elements_of graph.shapes function.regs) dst ≡ Some number → (own : ℕ)
        → IsUnheld (view_of graph (annotated states state) state colours) (OfJob q.job own)
        → (kept : Colour) (numbers : List ℕ)
        → ((g : Frame) → frame_at (step_of graph state q.job) q ≡ Some g
        → MayBecomeOne (step_of graph state q.job)
        (coloured_more (Some (OfJob q.job own)) colours) q g
        (Register dst ∷ tracked (elements_of graph.shapes function.regs) args) kept numbers)
        → HasSoundView graph states (step_of graph state q.job)
        (united q.job numbers kept (coloured_more (Some (OfJob q.job own)) colours)) }
{}

/// A register gets the value of `Void`, which reaches nothing, where a line is printed or the job
/// yields.
pub fn prints_and_yields_keep_soundness()
    ensures prints { (graph : Graph) (states : ℕ → List (Option Regions)) (state : State)
        (colours : Colours) → IsColoured graph states state colours → (q : Spot) (job : Job)
        (f : Frame) (function : Function) (at dst : ℕ) (args : List Operand)
        → StandsAt graph state q job f function (Middle (Print at dst args))
        → HasSoundView graph states (step_of graph state q.job) colours }
    ensures yields { (graph : Graph) (states : ℕ → List (Option Regions)) (state : State)
        (colours : Colours) → IsColoured graph states state colours → (q : Spot) (job : Job)
        (f : Frame) (function : Function) (at dst : ℕ)
        → StandsAt graph state q job f function (Middle (Yield at dst))
        → HasSoundView graph states (step_of graph state q.job) colours }
{}
