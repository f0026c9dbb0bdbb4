use crate::function::{Function, FunctionList};
use crate::point::Point;
use crate::table::PointTable;
use std::alloc::{AllocError, Global};
use std::marker::Model;
use sw_list::ListOf;

/// The functions of a program, by number, with a table of the points of each. Contracts see them as
/// their list.
#[derive(Debug, Drop)]
pub struct Functions {
    list: FunctionList,
    tables: ListOf<PointTable>,
}

impl Model for Functions {
    ghost use Rattle.std.specs.Prelude.{◌≡◌, List, map, All};
    ghost use Rattle.std.specs.Coded.{coded_list};
    ghost use Rattle.sw_graph.specs.declared.function.Function.{Function};
    ghost use Rattle.sw_graph.specs.contracts.function.Function as function;
    ghost use Rattle.sw_graph.specs.Points.{IsNumbered};
    ghost use Rattle.sw_graph.specs.Table.{table_of};

    ghost Value = { List Function };

    ghost coded = { coded_list function.the_row.coded };

    ghost view = { λ f. f.list };

    ghost invariant = { λ f. (f.tables ≡ map table_of f.list) × All IsNumbered f.list };
}

impl Functions {
    ghost use Rattle.std.specs.Prelude.{◌≡◌, ◌+◌, ◌<◌, ◌^◌, length, slice_get, All};
    ghost use Rattle.std.specs.Prelude.{IfOk, IfSome, OnSome};
    ghost use Rattle.std.specs.Option.{option_copied, option_and_then, option_map};
    ghost use Rattle.sw_graph.specs.Lent.{lent_point};
    ghost use Rattle.sw_graph.specs.Points.{point_in, block_start, IsNumbered};
    ghost use Rattle.sw_graph.specs.Table.{table_of};

    /// Makes the tables of the functions. A refusal drops the list.
    pub fn new(alloc: Global, list: FunctionList) -> Result<Functions, AllocError>
        requires numbered { All IsNumbered list }
        ensures functions { IfOk result (λ functions. functions ≡ list) }
    {
        let mut tables = ListOf::new(alloc);
        for function in list.as_slice() {
            tables.push(PointTable::new(alloc, function)?)?;
        }
        Ok(Functions { list, tables })
    }

    /// How many functions there are.
    pub fn len(&self) -> usize
        ensures { result ≡ length self.now }
    {
        self.list.len()
    }

    /// The function with a number.
    pub fn get(&self, index: usize) -> Option<&Function>
        ensures { option_copied result ≡ slice_get self.now index }
    {
        self.list.get(index)
    }

    /// The functions by number.
    pub fn as_slice(&self) -> &[Function]
        ensures { result.now ≡ self.now }
    {
        self.list.as_slice()
    }

    /// What stands at a point of a function, if there is that function and it has that point.
    pub fn point(&self, function: u32, point: u32) -> Option<Point<'_>>
        ensures point { lent_point result
            ≡ option_and_then (λ f. point_in f point) (slice_get self.now function) }
        ensures numbered { OnSome result (point + 1 < 2 ^ 32) }
    {
        let table = self.table(function)?;
        let function = self.numbered(function)?;
        table.point(function, point)
    }

    /// The point at which a block of a function begins, if there is that function and it has that
    /// block.
    pub fn block_start(&self, function: u32, block: u32) -> Option<u32>
        ensures { result
            ≡ option_and_then (λ f. block_start f block) (slice_get self.now function) }
    {
        self.table(function)?.start(block)
    }

    /// The function with a number.
    #[tactic(auto, using(sw_list::proofs::ListLemmas::at_index))]
    fn numbered(&self, function: u32) -> Option<&Function>
        ensures function { option_copied result ≡ slice_get self.now function }
        ensures numbered { IfSome result (λ f. IsNumbered f.now) }
    {
        self.list.get(function as usize)
    }

    /// The table of a function.
    #[tactic(auto, using(crate::proofs::TableLemmas::table_at))]
    fn table(&self, function: u32) -> Option<&PointTable>
        ensures { option_copied result ≡ option_map table_of (slice_get self.now function) }
    {
        self.tables.get(function as usize)
    }
}
