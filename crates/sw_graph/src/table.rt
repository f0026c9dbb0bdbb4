ghost use Rattle.std.specs.Prelude.{◌≡◌, ◌+◌, ◌<◌, ◌^◌, ◌++◌, length, slice_get, IfOk, OnOk};
ghost use Rattle.std.specs.Prelude.{OnSome};
ghost use Rattle.sw_graph.specs.declared.function.Function.{Function};
ghost use Rattle.sw_graph.specs.Points.{IsNumbered, point_in, block_start};
ghost use Rattle.sw_graph.specs.Lent.{lent_point};
ghost use Rattle.sw_graph.specs.Table.{places_in, table_of};

use crate::function::Function;
use crate::point::Point;
use std::alloc::{AllocError, Global};
use sw_list::ListOf;

/// Where a point stands: its block, and its index among the points of the block.
#[derive(Clone, Copy, Debug)]
pub struct Place {
    pub block: u32,
    pub index: u32,
}

/// The place of each point of a function, and the point at which each block begins.
#[derive(Debug, Drop)]
pub struct PointTable {
    pub places: ListOf<Place>,
    pub starts: ListOf<u32>,
}

impl PointTable {
    /// The table of a function.
    pub fn new(alloc: Global, function: &Function) -> Result<PointTable, AllocError>
        requires { IsNumbered function.now }
        ensures { IfOk result (λ table. table ≡ table_of function.now) }
    {
        let mut places = ListOf::new(alloc);
        let mut starts = ListOf::new(alloc);
        let mut number = 0;
        for block in function.blocks.as_slice() {
            starts.push(places.len() as u32)?;
            push_places(&mut places, number, block.instrs.len() as u32 + 1)?;
            number += 1;
        }
        Ok(PointTable { places, starts })
    }

    /// What stands at a point of the function whose table this is.
    #[tactic(auto, using(crate::proofs::TableLemmas::point_placed))]
    pub fn point<'a>(&self, function: &'a Function, point: u32) -> Option<Point<'a>>
        requires table { self.now ≡ table_of function.now }
        requires numbered { IsNumbered function.now }
        ensures point { lent_point result ≡ point_in function.now point }
        ensures numbered { OnSome result (point + 1 < 2 ^ 32) }
    {
        let place = *self.places.get(point as usize)?;
        function.at(place)
    }

    /// The point at which a block of the function whose table this is begins.
    #[tactic(auto, using(crate::proofs::TableLemmas::start_told))]
    pub fn start(&self, block: u32) -> Option<u32>
        ensures { (function : Function) → self.now ≡ table_of function
            → result ≡ block_start function block }
    {
        self.starts.get(block as usize).copied()
    }
}

/// Adds the first places of a block.
#[tactic(auto, using(crate::proofs::TableLemmas::one_place, crate::proofs::TableLemmas::no_place))]
fn push_places(places: &mut ListOf<Place>, block: u32, count: u32) -> Result<(), AllocError>
    ensures { OnOk result (places.new ≡ places.old ++ places_in block count) }
{
    for index in 0..count {
        places.push(Place { block, index })?;
    }
    Ok(())
}
