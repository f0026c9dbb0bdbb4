ghost use Rattle.std.specs.Prelude.{◌≡◌, ◌+◌, ◌<◌, ◌^◌, slice_get, OnSome};
ghost use Rattle.std.specs.Option.{option_and_then};
ghost use Rattle.sw_graph.specs.OneProof.{IsWellFormed-prop};
ghost use Rattle.sw_graph.specs.WellFormed.{IsWellFormed};
ghost use Rattle.sw_graph.specs.Lent.{lent_point};
ghost use Rattle.sw_graph.specs.Points.{point_in, block_start};

use crate::function::GlobalKinds;
use crate::functions::Functions;
use crate::instr::IdList;
use crate::point::Point;
use sw_types::Shapes;

/// A program's control-flow graph. It is well formed: its numbers are in range, its functions are
/// within the limits, its registers have the kinds that its instructions ask for and are set before
/// they are read, and payloads are taken where their case is known.
#[derive(Debug, Drop)]
pub struct Graph {
    pub shapes: Shapes,
    pub globals: GlobalKinds,
    pub functions: Functions,
    /// The function of the program's entry.
    pub entry: u32,
    /// The functions that give the globals their first values, in order of the globals.
    pub starts: IdList,
    pub ghost well_formed: { IsWellFormed shapes globals functions
        entry starts } by { IsWellFormed-prop shapes globals functions entry starts },
}

impl Graph {
    /// The graph of these functions.
    pub fn new(
        shapes: Shapes,
        globals: GlobalKinds,
        functions: Functions,
        entry: u32,
        starts: IdList,
    ) -> Graph
        requires { IsWellFormed shapes globals functions entry starts }
        ensures shapes { result.shapes ≡ shapes }
        ensures globals { result.globals ≡ globals }
        ensures functions { result.functions ≡ functions }
        ensures entry { result.entry ≡ entry }
        ensures starts { result.starts ≡ starts }
    {
        Graph {
            shapes,
            globals,
            functions,
            entry,
            starts,
        }
    }

    /// What stands at a point of a function, if the graph has that function and it has that point.
    pub fn point(&self, function: u32, point: u32) -> Option<Point<'_>>
        ensures point { lent_point result
            ≡ option_and_then (λ f. point_in f point) (slice_get self.now.functions function) }
        ensures numbered { OnSome result (point + 1 < 2 ^ 32) }
    {
        self.functions.point(function, point)
    }

    /// The point at which a block of a function begins, if the graph has that function and it has
    /// that block.
    pub fn block_start(&self, function: u32, block: u32) -> Option<u32>
        ensures { result
            ≡ option_and_then (λ f. block_start f block) (slice_get self.now.functions function) }
    {
        self.functions.block_start(function, block)
    }
}
