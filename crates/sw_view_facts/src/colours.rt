//! Laws on the colours of a view: what registers reach, and colours that become one.
ghost use Rattle.std.specs.Prelude.{◌≡◌, ◌⊎◌, ℕ, Option, Some, None, List, [], ◌∷◌, ◌++◌, length};
ghost use Rattle.std.specs.List.{Contains};
ghost use Rattle.sw_graph.specs.declared.graph.Graph.{Graph};
ghost use Rattle.sw_value.specs.declared.cell.HeapCell.{HeapCell};
ghost use Rattle.sw_value.specs.declared.cell.HeapCell.TheVariants.{Closure};
ghost use Rattle.sw_value.specs.declared.cell.Slot.{Slot};
ghost use Rattle.sw_value.specs.declared.effect.Effect.{Effect};
ghost use Rattle.sw_value.specs.declared.effect.Effect.TheVariants.{New, Write};
ghost use Rattle.sw_value.specs.declared.frame.Frame.{Frame};
ghost use Rattle.sw_value.specs.declared.state.State.{State};
ghost use Rattle.sw_value.specs.declared.value.Value.{Value};
ghost use Rattle.sw_value.specs.declared.value.Value.TheVariants as value;
ghost use Rattle.sw_value.specs.Frame.{set_field};
ghost use Rattle.sw_value.specs.Reach.{after_effect};
ghost use Rattle.sw_machine_kind_facts.specs.Kinded.{Kinded};
ghost use Rattle.sw_owner_facts.specs.Colours.{Colour, OfJob};
ghost use Rattle.sw_owner_facts.specs.Owned.{IsOwned, IsSound};
ghost use Rattle.sw_owner_facts.specs.View.{Element, HoldsLive, IsFrame, IsTop, IsUnheld, View};
ghost use Rattle.sw_owner_facts.specs.View.{Frame as Spot};
ghost use Rattle.sw_owner_facts.specs.Within.{Recoloured};
ghost use Rattle.sw_partition.specs.Regions.{Regions};
ghost use Rattle.sw_reach_facts.specs.Reached.{colours_of};
ghost use Rattle.sw_view_facts.specs.Changes.{KeepsReach};
ghost use Rattle.sw_view_facts.specs.Effects.{register_of, turn_of, value_by};
ghost use Rattle.sw_view_facts.specs.Memory.{RegistersName, coloured_more};
ghost use Rattle.sw_view_facts.specs.Renaming.{AllButOne, HasHere, MayUnite, recoloured_by};
ghost use Rattle.sw_view_facts.specs.Renaming.{renames, united};
ghost use Rattle.sw_view_facts.specs.Views.{Colours, colours_by, view_of};

/// What registers reach stays: if memory stays, if a slot is written, and if a cell is made, since
/// in a kinded state registers refer to cells that are there.
pub fn registers_keep_what_they_reach()
    ensures same { (state next : State) (colours after : Colours) → next.cells ≡ state.cells
        → after.cells ≡ colours.cells → KeepsReach state next colours after }
    ensures written { (state : State) (colours after : Colours) (j n : ℕ) (slot : Slot) (v : Value)
        (next : ℕ) → after.cells ≡ colours.cells
        → KeepsReach state (after_effect j (Write n slot v next) state) colours after }
    ensures added { (state : State) (colours : Colours) (j r : ℕ) (cell : HeapCell)
        (number next : ℕ) (colour : Option Colour) → length colours.cells ≡ length state.cells
        → RegistersName state
        → KeepsReach state (after_effect j (New r cell number next) state) colours
        (coloured_more colour colours) }
    ensures named { (graph : Graph) (state : State) → Kinded graph state → RegistersName state }
{}

/// The register that an effect sets reaches no more than the value that it gets; a struct that gets
/// another part no more than before and than that part. The value of `Void` reaches nothing.
pub fn registers_show_their_values()
    ensures value { (state : State) (colours : Colours) (f : Frame) (e : Effect) (r : ℕ) (v : Value)
        (c : Colour) → register_of e ≡ Some r → value_by e ≡ Some v
        → Contains (colours_by state colours (Some (turn_of e f)) r) c
        → Contains (colours_of state.cells colours.cells v) c }
    ensures field { (state : State) (colours : Colours) (f : Frame) (r i : ℕ) (v : Value)
        (next : ℕ) (c : Colour)
        → Contains (colours_by state colours (Some (set_field r i v next f)) r) c
        → Contains (colours_by state colours (Some f) r) c
        ⊎ Contains (colours_of state.cells colours.cells v) c }
    ensures void { (state : State) (colours : Colours) (f : Frame) (c : Colour)
        → Contains (colours_of state.cells colours.cells value.Unit) c → ⊥ }
{}

/// The reference to a cell that is made with a colour reaches that colour alone, and to one without
/// a colour nothing, unless it is a closure.
pub fn cells_show_what_they_are_given()
    ensures bare { (cells : List HeapCell) (colours : List (Option Colour)) (cell : HeapCell)
        → length colours ≡ length cells
        → ((f : ℕ) (captures : List Value) → cell ≡ Closure f captures → ⊥)
        → colours_of (cells ++ cell ∷ []) (colours ++ None ∷ []) (value.Cell (length cells)) ≡ [] }
    ensures own { (cells : List HeapCell) (colours : List (Option Colour)) (cell : HeapCell)
        (own : Colour) → length colours ≡ length cells
        → colours_of (cells ++ cell ∷ []) (colours ++ Some own ∷ []) (value.Cell (length cells))
        ≡ own ∷ [] }
{}

/// Colours of a job that become another one, everywhere. The view stays sound if the top frame
/// holds the colour that is kept, and each of the others is that one, or is held together with it,
/// or is held by nothing that is live; and also if none of them is held, whosever the kept one is.
pub fn colours_unite()
    ensures recoloured { (graph : Graph) (regions : Spot → Option Regions) (state : State)
        (colours : Colours)
        → ((p : Spot) → IsFrame (view_of graph regions state colours) p → HasHere colours p)
        → (job number : ℕ) (kept : Colour)
        → Recoloured (view_of graph regions state colours)
        (view_of graph regions state (recoloured_by (renames job number kept) colours)) job number
        kept }
    ensures unite { (graph : Graph) (regions : Spot → Option Regions) (state : State) (q : Spot)
        (y : Element) (kept : Colour) (numbers : List ℕ) (colours : Colours)
        → ((p : Spot) → IsFrame (view_of graph regions state colours) p → HasHere colours p)
        → IsTop (view_of graph regions state colours) q
        → HoldsLive (view_of graph regions state colours) q y kept
        → ((n : ℕ) → Contains numbers n
        → MayUnite (view_of graph regions state colours) q y kept n)
        → IsSound (view_of graph regions state colours)
        → IsSound (view_of graph regions state (united q.job numbers kept colours)) }
    ensures hand_over { (graph : Graph) (regions : Spot → Option Regions) (state : State) (job : ℕ)
        (kept : Colour) (numbers : List ℕ) (colours : Colours)
        → ((p : Spot) → IsFrame (view_of graph regions state colours) p → HasHere colours p)
        → ((n : ℕ) → Contains numbers n
        → IsUnheld (view_of graph regions state colours) (OfJob job n))
        → IsSound (view_of graph regions state colours)
        → IsSound (view_of graph regions state (united job numbers kept colours)) }
{}

/// Of colours that a frame holds live, one can be kept such that each of the others is the job's
/// own.
pub fn some_colour_is_kept()
    ensures { (w : View) (p : Spot) → IsOwned w → (first : Colour) (rest : List Colour)
        → ((c : Colour) → Contains (first ∷ rest) c → (x : Element) × HoldsLive w p x c)
        → (kept : Colour) × Contains (first ∷ rest) kept × AllButOne p kept (first ∷ rest) }
{}
