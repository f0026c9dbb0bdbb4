//! Laws on references, and on the colours that values reach. `C` is the type of colours.
ghost use Rattle.std.specs.Prelude.{◌≡◌, ◌⊎◌, ◌<◌, ℕ, ℤ, Bool, true, Option, Some, None, List, []};
ghost use Rattle.std.specs.Prelude.{◌∷◌};
ghost use Rattle.std.specs.Prelude.{◌++◌, length, map, flat_map, slice_get, slice_index_or};
ghost use Rattle.std.specs.List.{Contains};
ghost use Rattle.std.specs.Option.{option_map};
ghost use Rattle.sw_graph.specs.declared.function.RegKind.{RegKind};
ghost use Rattle.sw_graph.specs.declared.graph.Graph.{Graph};
ghost use Rattle.sw_graph.specs.Clean.{IsClean, is_untracked};
ghost use Rattle.sw_value.specs.declared.cell.HeapCell.{HeapCell};
ghost use Rattle.sw_value.specs.declared.cell.HeapCell.TheVariants.{Closure};
ghost use Rattle.sw_value.specs.declared.cell.Slot.{Slot};
ghost use Rattle.sw_value.specs.declared.frame.Frame.{Frame};
ghost use Rattle.sw_value.specs.declared.job.Job.{Job};
ghost use Rattle.sw_value.specs.declared.job.Status.TheVariants.{Ended};
ghost use Rattle.sw_value.specs.declared.state.State.{State};
ghost use Rattle.sw_value.specs.declared.value.Value.{Value};
ghost use Rattle.sw_value.specs.declared.value.Value.TheVariants as value;
ghost use Rattle.sw_value.specs.Cell.{with_slot};
ghost use Rattle.sw_value.specs.Lists.{changed_at};
ghost use Rattle.sw_value.specs.Value.{field_of, made, payload_of, reference_of, value_at};
ghost use Rattle.sw_value.specs.Value.{with_field};
ghost use Rattle.sw_machine_kind_facts.specs.Kinded.{Kinded};
ghost use Rattle.sw_machine_kind_facts.specs.Kinds.{HasKind, Referents};
ghost use Rattle.sw_reach_facts.specs.Coloured.{CaptureEarlier, ColoursFit, ConformancesHold};
ghost use Rattle.sw_reach_facts.specs.Coloured.{GoesUntracked, HaveColours};
ghost use Rattle.sw_reach_facts.specs.Named.{NamesCells, values_in};
ghost use Rattle.sw_reach_facts.specs.Reached.{colours_of, references};

/// What values refer to, by their forms: a reference to its cell, a struct and a case of an enum to
/// what their parts refer to, and any other value to nothing.
pub fn references_go_by_form()
    ensures cell { (c : ℕ) → references (value.Cell c) ≡ c ∷ [] }
    ensures group { (vs : List Value) → references (value.Group vs) ≡ flat_map references vs }
    ensures choice { (tag : ℕ) (vs : List Value)
        → references (value.Case tag vs) ≡ flat_map references vs }
    ensures integer { (n : ℤ) → references (value.Int n) ≡ [] }
    ensures truth { (b : Bool) → references (value.Bool b) ≡ [] }
    ensures void { references value.Unit ≡ [] }
{}

/// Whatever the registers, globals, cells and results of a kinded state refer to is there.
pub fn values_name_cells()
    ensures registers { (graph : Graph) (state : State) → Kinded graph state → (j i : ℕ) (job : Job)
        (frame : Frame) (r : ℕ) (v : Value) → slice_get state.jobs j ≡ Some job
        → slice_get job.frames i ≡ Some frame → value_at frame.regs r ≡ Some v
        → NamesCells state.cells v }
    ensures globals { (graph : Graph) (state : State) → Kinded graph state → (g : ℕ) (v : Value)
        → value_at state.globals g ≡ Some v → NamesCells state.cells v }
    ensures contents { (graph : Graph) (state : State) → Kinded graph state → (n : ℕ)
        (cell : HeapCell) (v : Value) → slice_get state.cells n ≡ Some cell
        → Contains (values_in cell) v → NamesCells state.cells v }
    ensures results { (graph : Graph) (state : State) → Kinded graph state → (j : ℕ) (job : Job)
        (v : Value) → slice_get state.jobs j ≡ Some job → job.status ≡ Ended v
        → NamesCells state.cells v }
{}

/// In a clean graph the structs and enums that declare that they are Sendable hold what is. A value
/// of an untracked kind refers to cells that go to places of untracked kinds alone, however deep in
/// structs and enums the references stand.
pub fn untracked_values_refer_to_untracked()
    ensures conformances { (graph : Graph) → IsClean graph → ConformancesHold graph }
    ensures references { (graph : Graph) → ConformancesHold graph → (cells : List RegKind)
        (v : Value) (kind : RegKind) → HasKind graph.shapes cells v kind
        → is_untracked graph (Some kind) ≡ true → (c : ℕ) → Contains (references v) c
        → GoesUntracked graph cells c }
{}

/// A value of an untracked kind reaches no colour, neither directly nor by what closures captured.
/// So nothing that may cross between isolations leads to memory of another owner.
pub fn untracked_values_reach_no_colour<C>()
    ensures { (graph : Graph) → ConformancesHold graph → (world : Referents)
        (cells : List HeapCell) (colours : List (Option C)) → ColoursFit graph world cells colours
        → (v : Value) (kind : RegKind) → HasKind graph.shapes world.cells v kind
        → is_untracked graph (Some kind) ≡ true → (colour : C)
        → Contains (colours_of cells colours v) colour → ⊥ }
{}

/// In a kinded state of a clean graph colours fit if only cells have one that may: nothing more
/// needs to be kept from step to step.
pub fn colours_fit_kinded_states<C>()
    ensures { (graph : Graph) → IsClean graph → (state : State) (kinded : Kinded graph state)
        (colours : List (Option C)) → HaveColours graph state.cells colours
        → ColoursFit graph kinded.world state.cells colours }
{}

/// A reference to a cell with a colour reaches that colour alone. One to a closure without a colour
/// reaches what its captures reach, if closures captured what was there before them.
pub fn cells_show_colours<C>()
    ensures own { (cells : List HeapCell) (colours : List (Option C)) (v : Value) (c : ℕ)
        (colour : C) → reference_of v ≡ Some c → c < length cells
        → slice_index_or colours c None ≡ Some colour
        → colours_of cells colours v ≡ colour ∷ [] }
    ensures closure { (cells : List HeapCell) (colours : List (Option C)) → CaptureEarlier cells
        → (v : Value) (c f : ℕ) (captures : List Value) → reference_of v ≡ Some c
        → slice_get cells c ≡ Some (Closure f captures)
        → slice_index_or colours c None ≡ None
        → colours_of cells colours v ≡ flat_map (colours_of cells colours) captures }
    ensures capture { (cells : List HeapCell) (colours : List (Option C)) → CaptureEarlier cells
        → (v : Value) (c f : ℕ) (captures : List Value) (w : Value) (colour : C)
        → reference_of v ≡ Some c → slice_get cells c ≡ Some (Closure f captures)
        → slice_index_or colours c None ≡ None → Contains captures w
        → Contains (colours_of cells colours w) colour
        → Contains (colours_of cells colours v) colour }
{}

/// A part of a struct and a value of a payload reach no more than the whole. What is made of values
/// reaches what they reach, and a struct with another part no more than the struct and the part.
pub fn parts_reach_less<C>()
    ensures part { (cells : List HeapCell) (colours : List (Option C)) (v : Value) (i : ℕ)
        (w : Value) (colour : C) → field_of i v ≡ Some w
        → Contains (colours_of cells colours w) colour
        → Contains (colours_of cells colours v) colour }
    ensures payload { (cells : List HeapCell) (colours : List (Option C)) (v : Value) (i : ℕ)
        (w : Value) (colour : C) → payload_of i v ≡ Some w
        → Contains (colours_of cells colours w) colour
        → Contains (colours_of cells colours v) colour }
    ensures made { (cells : List HeapCell) (colours : List (Option C)) (tag : Option ℕ)
        (vs : List Value)
        → colours_of cells colours (made tag vs) ≡ flat_map (colours_of cells colours) vs }
    ensures with_field { (cells : List HeapCell) (colours : List (Option C)) (i : ℕ) (w v : Value)
        (colour : C) → Contains (colours_of cells colours (with_field i w v)) colour
        → Contains (colours_of cells colours v) colour
        ⊎ Contains (colours_of cells colours w) colour }
{}

/// What a value reaches stays when a cell is added that it doesn't refer to, and when a slot of any
/// cell is written: a cell with slots shows its own colour, whatever is in it.
pub fn colours_stay<C>()
    ensures added { (cells : List HeapCell) (colours : List (Option C)) (cell : HeapCell)
        (colour : Option C) (v : Value) → length colours ≡ length cells → NamesCells cells v
        → colours_of (cells ++ cell ∷ []) (colours ++ colour ∷ []) v
        ≡ colours_of cells colours v }
    ensures written { (cells : List HeapCell) (colours : List (Option C)) (c : ℕ) (slot : Slot)
        (w v : Value)
        → colours_of (changed_at (with_slot slot w) c cells) colours v
        ≡ colours_of cells colours v }
{}

/// Where colours are renamed, or turned into those of another type, what a value reaches is renamed
/// with them.
pub fn colours_are_renamed<C, D>()
    ensures { (rename : C → D) (cells : List HeapCell) (colours : List (Option C)) (v : Value)
        → colours_of cells (map (option_map rename) colours) v
        ≡ map rename (colours_of cells colours v) }
{}
