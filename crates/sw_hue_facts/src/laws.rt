//! The laws.
ghost use Rattle.std.specs.Prelude.{◌≡◌, ◌⊎◌, ◌<◌, ℕ, Bool, Option, Some, List, [], ◌∷◌, ◌++◌};
ghost use Rattle.std.specs.Prelude.{length, flat_map, Contains};
ghost use Rattle.std.specs.Option.{option_map, option_to_list};
ghost use Rattle.sw_graph.specs.declared.graph.Graph.{Graph};
ghost use Rattle.sw_value.specs.declared.cell.HeapCell.{HeapCell};
ghost use Rattle.sw_value.specs.declared.cell.HeapCell.TheVariants.{TaskOf};
ghost use Rattle.sw_value.specs.declared.cell.Slot.{Slot};
ghost use Rattle.sw_value.specs.declared.state.State.{State};
ghost use Rattle.sw_value.specs.declared.value.Value.{Value};
ghost use Rattle.sw_value.specs.Cell.{with_slot};
ghost use Rattle.sw_value.specs.Lists.{changed_at};
ghost use Rattle.sw_value.specs.Value.{reference_of};
ghost use Rattle.sw_color_rules.specs.declared.colors.Colors.{Colors};
ghost use Rattle.sw_color_rules.specs.declared.colors.Owner.{Owner};
ghost use Rattle.sw_color_rules.specs.declared.colors.Palette.{Palette};
ghost use Rattle.sw_color_rules.specs.declared.colors.Tint.{Tint};
ghost use Rattle.sw_color_rules.specs.declared.colors.Tint.TheVariants.{Bare};
ghost use Rattle.sw_color_rules.specs.Changes.{Begin, Fresh, Mark, Pop, Push, after_change};
ghost use Rattle.sw_color_rules.specs.Changes.{after_changes, on_palette};
ghost use Rattle.sw_color_rules.specs.Palette.{IsWhole};
ghost use Rattle.sw_color_rules.specs.Plans as plans;
ghost use Rattle.sw_color_rules.specs.Plans.{merges, new_cell};
ghost use Rattle.sw_color_rules.specs.Tints.{colors_in, colors_of, held, in_order};
ghost use Rattle.sw_color_rules.specs.Ranges.{AreBelow, AreMade};
ghost use Rattle.sw_late_facts.specs.Hues.{hue, hue_by};
ghost use Rattle.sw_late_facts.specs.Late.{givings};
ghost use Rattle.sw_owner_facts.specs.Colours.{Actor, Colour, OfActor, OfJob};
ghost use Rattle.sw_owner_facts.specs.View.{Frame as Spot};
ghost use Rattle.sw_reach_facts.specs.Coloured.{CaptureEarlier};
ghost use Rattle.sw_reach_facts.specs.Named.{NamesCells, values_in};
ghost use Rattle.sw_reach_facts.specs.Reached.{colours_of};
ghost use Rattle.sw_secure_facts.specs.Painting.{passed};
ghost use Rattle.sw_secure_facts.specs.Painting.{MayUnite, Unites, handed, with_here, with_job};
ghost use Rattle.sw_secure_facts.specs.Painting.{without_here};
ghost use Rattle.sw_view_facts.specs.Memory.{coloured_more};
ghost use Rattle.sw_view_facts.specs.Views.{Colours};
ghost use Rattle.sw_hue_facts.specs.Hued.{SameColours, cell_hue, hued, hues_of};
ghost use Rattle.sw_hue_facts.specs.Tinted.{TintFits, TintsFit};

/// What is made leaves the hues that there are as they are. A colour that is made has its owner's
/// hue, a cell or a frame the hue of its number.
pub fn colours_are_made()
    ensures fresh { (owner : Owner) (colors : Colors) → IsWhole colors.palette → AreMade colors
        → (hued (after_change colors (Fresh owner)) ≡ hued colors)
        × (hue (after_change colors (Fresh owner)).palette (length colors.palette.names)
        ≡ hue_by (Some owner) (length colors.palette.names)) }
    ensures mark { (tint : Tint) (colors : Colors)
        → hued (after_change colors (Mark tint))
        ≡ coloured_more (cell_hue colors.palette tint) (hued colors) }
    ensures push { (job n : ℕ) (colors : Colors)
        → hued (after_change colors (Push job n))
        ≡ with_here job (hue colors.palette n) (hued colors) }
    ensures begin { (n : ℕ) (colors : Colors)
        → hued (after_change colors (Begin n)) ≡ with_job (hue colors.palette n) (hued colors) }
    ensures pop { (job : ℕ) (colors : Colors)
        → hued (after_change colors (Pop job)) ≡ without_here job (hued colors) }
{}

/// Colours that merge by number become one by hue, if all but one of them are the job's, and that
/// one is the job's or an actor's.
pub fn merges_unite()
    ensures { (q : Spot) (n : ℕ) (ns : List ℕ) (colors : Colors) → IsWhole colors.palette
        → AreBelow (length colors.palette.names) (n ∷ ns)
        → MayUnite q (hues_of colors.palette (n ∷ ns))
        → ((m : ℕ) → Contains (n ∷ ns) m → ((a : Actor) × (hue colors.palette m ≡ OfActor a))
        ⊎ ((l : ℕ) × (hue colors.palette m ≡ OfJob q.job l)))
        → Unites q.job (hues_of colors.palette (n ∷ ns)) (hued colors)
        (hued (after_changes (merges (n ∷ ns)) colors)) }
{}

/// Colours that are handed over by number are handed over by hue, if each is the job's or an
/// actor's.
pub fn givings_hand_over()
    ensures { (job heir : ℕ) (ns : List ℕ) (colors : Colors) → IsWhole colors.palette
        → AreBelow (length colors.palette.names) ns
        → ((n : ℕ) → Contains ns n → ((a : Actor) × (hue colors.palette n ≡ OfActor a))
        ⊎ ((m : ℕ) × (hue colors.palette n ≡ OfJob job m)))
        → (given : List ℕ) × ((m : ℕ) → Contains given m
        → Contains (hues_of colors.palette ns) (OfJob job m))
        × ((m : ℕ) → Contains (hues_of colors.palette ns) (OfJob job m) → Contains given m)
        × (hued (after_changes (givings (Some heir) ns) colors)
        ≡ handed job heir given (hued colors)) }
{}

/// Where tints fit the cells of a state, values have the same colours by number and by hue: a
/// reference what is held of its cell, a value and values what their references have, and a frame
/// that begins what it is passed.
pub fn values_have_their_hues()
    ensures reference { (graph : Graph) (cells : List HeapCell) (colors : Colors)
        → TintsFit graph cells colors → CaptureEarlier cells → (v : Value) (c : ℕ)
        → reference_of v ≡ Some c → c < length cells
        → SameColours (hues_of colors.palette (held colors.cells c))
        (colours_of cells (hued colors).cells v) }
    ensures value { (graph : Graph) (cells : List HeapCell) (colors : Colors)
        → TintsFit graph cells colors → CaptureEarlier cells → (v : Value) → NamesCells cells v
        → SameColours (hues_of colors.palette (colors_in colors.cells v))
        (colours_of cells (hued colors).cells v) }
    ensures values { (graph : Graph) (cells : List HeapCell) (colors : Colors)
        → TintsFit graph cells colors → CaptureEarlier cells → (vs : List Value)
        → ((v : Value) → Contains vs v → NamesCells cells v)
        → SameColours (hues_of colors.palette (colors_of colors.cells vs))
        (flat_map (colours_of cells (hued colors).cells) vs) }
    ensures passed { (graph : Graph) (state : State) (colors : Colors)
        → TintsFit graph state.cells colors → CaptureEarlier state.cells → (sending : List Bool)
        (regs : List (Option Value))
        → ((v : Value) → Contains regs (Some v) → NamesCells state.cells v)
        → SameColours (hues_of colors.palette (plans.passed colors.cells sending regs))
        (passed state (hued colors) sending regs) }
{}

/// Tints go on to fit: where hues are renamed and no actor's is, as where colours merge or are
/// handed over; where a colour is made; where frames begin and end; where a slot of a cell is
/// written; and where a cell is made with a tint that fits it.
pub fn tints_go_on_to_fit()
    ensures renamed { (graph : Graph) (cells : List HeapCell) (colors : Colors) (after : Palette)
        (rename : Colour → Colour)
        → ((n : ℕ) → hue after n ≡ rename (hue colors.palette n))
        → ((a : Actor) → rename (OfActor a) ≡ OfActor a) → TintsFit graph cells colors
        → TintsFit graph cells (on_palette (λ palette. after) colors) }
    ensures merged { (graph : Graph) (cells : List HeapCell) (q : Spot) (n : ℕ) (ns : List ℕ)
        (colors : Colors) → IsWhole colors.palette
        → AreBelow (length colors.palette.names) (n ∷ ns)
        → MayUnite q (hues_of colors.palette (n ∷ ns))
        → ((m : ℕ) → Contains (n ∷ ns) m → ((a : Actor) × (hue colors.palette m ≡ OfActor a))
        ⊎ ((l : ℕ) × (hue colors.palette m ≡ OfJob q.job l)))
        → TintsFit graph cells colors
        → TintsFit graph cells (after_changes (merges (n ∷ ns)) colors) }
    ensures handed { (graph : Graph) (cells : List HeapCell) (heir : ℕ) (ns : List ℕ)
        (colors : Colors) → IsWhole colors.palette → AreBelow (length colors.palette.names) ns
        → TintsFit graph cells colors
        → TintsFit graph cells (after_changes (givings (Some heir) ns) colors) }
    ensures fresh { (graph : Graph) (cells : List HeapCell) (owner : Owner) (colors : Colors)
        → IsWhole colors.palette → AreMade colors → TintsFit graph cells colors
        → TintsFit graph cells (after_change colors (Fresh owner)) }
    ensures pushed { (graph : Graph) (cells : List HeapCell) (job n : ℕ) (colors : Colors)
        → TintsFit graph cells colors → TintsFit graph cells (after_change colors (Push job n)) }
    ensures begun { (graph : Graph) (cells : List HeapCell) (n : ℕ) (colors : Colors)
        → TintsFit graph cells colors → TintsFit graph cells (after_change colors (Begin n)) }
    ensures popped { (graph : Graph) (cells : List HeapCell) (job : ℕ) (colors : Colors)
        → TintsFit graph cells colors → TintsFit graph cells (after_change colors (Pop job)) }
    ensures written { (graph : Graph) (slot : Slot) (v : Value) (cells : List HeapCell) (c : ℕ)
        (colors : Colors) → TintsFit graph cells colors
        → TintsFit graph (changed_at (with_slot slot v) c cells) colors }
    ensures added { (graph : Graph) (cells : List HeapCell) (colors : Colors) (cell : HeapCell)
        (tint : Tint) → TintsFit graph cells colors → CaptureEarlier cells
        → ((v : Value) → Contains (values_in cell) v → NamesCells cells v)
        → TintFits graph cells colors (length cells) cell tint
        → TintsFit graph (cells ++ cell ∷ []) (after_change colors (Mark tint)) }
{}

/// Which colours become one goes by which there are, in any order and each however often. A
/// closure's colours, which are kept in order, are those of its captures.
pub fn same_colours_unite_alike()
    ensures may { (q : Spot) (cs ds : List Colour) → SameColours cs ds → MayUnite q ds
        → MayUnite q cs }
    ensures unite { (job : ℕ) (cs ds : List Colour) (before after : Colours) → SameColours cs ds
        → Unites job cs before after → Unites job ds before after }
    ensures ordered { (palette : Palette) (ns : List ℕ)
        → SameColours (hues_of palette (in_order ns)) (hues_of palette ns) }
{}

/// A cell is made with a tint that fits it, once the colour that its plan makes is there: an actor
/// owns that one, and a cell that may have a colour has it. A task is made with none.
pub fn new_tints_fit()
    ensures cells { (graph : Graph) (cells : List HeapCell) (colors : Colors) (job c : ℕ)
        → TintsFit graph cells colors → CaptureEarlier cells → IsWhole colors.palette
        → AreMade colors → (cell : HeapCell)
        → ((v : Value) → Contains (values_in cell) v → NamesCells cells v)
        → (tint : Tint) × ((new_cell graph colors job c cell).tint ≡ Some tint)
        × TintFits graph cells
        (after_changes (option_to_list (option_map Fresh (new_cell graph colors job c cell).fresh))
        colors) c cell tint }
    ensures tasks { (graph : Graph) (cells : List HeapCell) (colors : Colors) (c job : ℕ)
        → TintFits graph cells colors c (TaskOf job) Bare }
{}
