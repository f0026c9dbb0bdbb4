//! The laws of operations and of entries.
ghost use Rattle.std.specs.Prelude.{◌≡◌, ℕ, List, ◌∷◌, Some, All, slice_get};
ghost use Rattle.sw_graph.specs.declared.instr.Block.{Block};
ghost use Rattle.sw_partition.specs.Regions.{Regions, size_of, IsWithin, IsSameState};
ghost use Rattle.sw_region_ops.specs.Elements.{AreElements, element_count};
ghost use Rattle.sw_region_ops.specs.Entry.{IsEntry};
ghost use Rattle.sw_region_ops.specs.Sites.{AreSites};
ghost use Rattle.sw_region_ops.specs.Runs.{Runs, Fits};
ghost use Rattle.sw_region_ops.specs.Setting.{FunctionSetting};
ghost use Rattle.sw_region_ops.specs.Table.{block_ops};
ghost use Rattle.sw_region_ops.specs.declared.op.Op.{Op};

/// The operations of a function's blocks can be done in states over its elements and its sites.
pub fn operations_fit()
    ensures { (setting : FunctionSetting) (sites : List ℕ) (n : ℕ) (block : Block)
        → AreElements setting.elements → AreSites setting sites
        → slice_get setting.body.blocks n ≡ Some block
        → All (Fits (element_count setting.elements ∷ sites)) (block_ops setting block) }
{}

/// Operations keep the elements and the sites of a state, and from a greater state they make a
/// greater one; so what they make of a state is one state whatever the tables were.
pub fn operations_are_monotone()
    ensures sized { (ops : List Op) (a b : Regions) → Runs ops a b → size_of b ≡ size_of a }
    ensures monotone { (ops : List Op) (a b c d : Regions) → size_of a ≡ size_of b → IsWithin a b
        → Runs ops a c → Runs ops b d → IsWithin c d }
{}

/// There is one state at the entry of a function.
pub fn entries_are_one()
    ensures { (setting : FunctionSetting) (sites : List ℕ) (a b : Regions) → IsEntry setting sites a
        → IsEntry setting sites b → IsSameState a b }
{}
