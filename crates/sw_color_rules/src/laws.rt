ghost use Rattle.std.specs.Prelude.{◌≡◌, ℕ, List};
ghost use Rattle.sw_graph.specs.declared.graph.Graph.{Graph};
ghost use Rattle.sw_value.specs.Reach.{step_of, reach};
ghost use Rattle.sw_color_rules.specs.declared.colored.Colored.{Colored};
ghost use Rattle.sw_color_rules.specs.Palette.{IsWhole};
ghost use Rattle.sw_color_rules.specs.Ranges.{AreMade};
ghost use Rattle.sw_color_rules.specs.Machine.{colored_step, colored_reach};

/// With the colours removed, the coloured machine is the machine.
pub fn colors_removed()
    ensures step { (graph : Graph) (colored : Colored) (item : ℕ) →
        (colored_step graph colored item).state ≡ step_of graph colored.state item }
    ensures reach { (graph : Graph) (items : List ℕ) →
        (colored_reach graph items).state ≡ reach graph items }
{}

/// In each state that items lead to there is an owner for each colour, and what is left of a colour
/// has a number that is no higher and is left itself.
pub fn palettes_stay_whole()
    ensures whole { (graph : Graph) (items : List ℕ) →
        IsWhole (colored_reach graph items).colors.palette }
{}

/// In each state that items lead to, the colours of cells and frames are among those that were made.
pub fn colors_were_made()
    ensures made { (graph : Graph) (items : List ℕ) →
        AreMade (colored_reach graph items).colors }
{}
