ghost use Rattle.std.specs.Prelude.{◌≡◌, slice_get};
ghost use Rattle.sw_graph.specs.Points.{points_of_block};
ghost use Rattle.sw_graph.specs.Table.{at_place};
ghost use Rattle.sw_graph.specs.Lent.{lent_point};

use crate::function::Function;
use crate::instr::{Block, Instr, Last};
use crate::table::Place;

/// What stands at a point of a function.
#[derive(Clone, Copy, Debug)]
pub enum Point<'a> {
    /// An instruction of a block.
    Middle(&'a Instr),
    /// The last instruction of a block.
    End(&'a Last),
}

impl Function {
    /// What stands at a place.
    pub(crate) fn at(&self, place: Place) -> Option<Point<'_>>
        ensures { lent_point result ≡ at_place self.now.blocks place }
    {
        self.blocks.get(place.block as usize)?.point(place.index)
    }
}

impl Block {
    /// What stands at an index among the points of the block.
    pub(crate) fn point(&self, index: u32) -> Option<Point<'_>>
        ensures { lent_point result ≡ slice_get (points_of_block self.now) index }
    {
        let index = index as usize;
        if index == self.instrs.len() {
            return Some(Point::End(&self.last));
        }
        Some(Point::Middle(self.instrs.get(index)?))
    }
}
