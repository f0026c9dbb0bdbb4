//! The states that the lines of a certificate give the blocks of each function.
ghost use Rattle.std.specs.Prelude.{◌≡◌, ℕ, ◌<◌, None, map, length, replicate, IfSome, IfOk, OnOk};
ghost use Rattle.std.specs.Prelude.{IsTrue};
ghost use Rattle.sw_partition.specs.Regions.{size_of};
ghost use Rattle.sw_cert.specs.Certificate.{IsLineOf};
ghost use Rattle.sw_cert.specs.Shown.{Shows};
ghost use Rattle.sw_cert.specs.Flows.{AreSized, extent_for};
ghost use Rattle.sw_cert.specs.Tables.{blank_for, HavePlaces, IsLineIn, IsTabled, AreTabled};
ghost use Rattle.sw_cert.specs.Stated.{IsStatedBy};
ghost use Rattle.std.specs.List.{AllByRecursion};

use crate::flows::FunctionFlow;
use crate::line::{Extent, Line, Spot, echo};
use crate::shared::Shared;
use crate::states::state_of;
use std::alloc::{AllocError, Global};
use sw_list::ListOf;
use sw_partition::Partition;

/// The states of a function's blocks by number; none at a block without a line. Blocks may have one
/// in common.
pub(crate) type Table = ListOf<Option<Shared<Partition>>>;

/// A table with nothing at any block.
fn blank(alloc: Global, blocks: usize) -> Result<Table, AllocError>
    ensures { IfOk result (λ table. table ≡ replicate blocks None) }
{
    let mut table = ListOf::from_vec(Vec::with_capacity(alloc, blocks)?);
    for _ in 0..blocks {
        table.push(None)?;
    }
    Ok(table)
}

/// Such a table for each function.
fn blanks(alloc: Global, flows: &[FunctionFlow]) -> Result<ListOf<Table>, AllocError>
    ensures { IfOk result (λ tables. tables ≡ map blank_for flows.now) }
{
    let mut tables = ListOf::from_vec(Vec::with_capacity(alloc, flows.len())?);
    for flow in flows {
        tables.push(blank(alloc, flow.blocks.blocks() as usize)?)?;
    }
    Ok(tables)
}

/// A line, and the state that it shows.
#[derive(Drop)]
pub(crate) struct Stated {
    pub line: Line,
    pub state: Shared<Partition>,
}

/// Whether two lines show the same classes, and no pairs.
fn shows_alike(one: &Line, other: &Line) -> bool
    ensures classes { IsTrue result → one.now.classes ≡ other.now.classes }
    ensures pairs { IsTrue result → one.now.pairs ≡ other.now.pairs }
{
    one.classes.get().as_slice() == other.classes.get().as_slice()
        && one.pairs.is_empty()
        && other.pairs.is_empty()
}

/// Whether two states have as many elements, and the same sites.
fn is_of_size(state: &Partition, other: &Partition) -> bool
    ensures { IsTrue result → size_of state.now ≡ size_of other.now }
{
    state.elements() == other.elements() && state.sites() == other.sites()
}

/// The state of another line, if this line shows the same without pairs, over a state of the same
/// size.
fn state_again(
    entry: &Partition,
    line: &Line,
    last: &Option<Stated>,
) -> Result<Option<Shared<Partition>>, AllocError>
    requires { IfSome last.now IsStatedBy }
    ensures shows { IfOk result (λ found. IfSome found (Shows line.now)) }
    ensures size { IfOk result (λ found. IfSome found
        (λ state. size_of state ≡ size_of entry.now)) }
{
    let Some(stated) = last else {
        return Ok(None);
    };
    if !is_of_size(stated.state.get(), entry) || !shows_alike(&stated.line, line) {
        return Ok(None);
    }
    Ok(Some(stated.state.share()?))
}

/// The state that a line shows, of a function with this state at its entry. Where it is that of the
/// last line that was stated, it is not made anew.
fn state_for(
    alloc: Global,
    entry: &Partition,
    line: &Line,
    last: &mut Option<Stated>,
) -> Result<Shared<Partition>, AllocError>
    requires some { 0 < length entry.now.labels }
    requires line { (blocks : ℕ) × IsLineOf (record {
      blocks = blocks;
      elements = length entry.now.labels;
      sites = entry.now.sites;
    }) line.now }
    requires last { IfSome last.old IsStatedBy }
    ensures shows { IfOk result (Shows line.now) }
    ensures size { IfOk result (λ state. size_of state ≡ size_of entry.now) }
    ensures last { OnOk result (IfSome last.new IsStatedBy) }
{
    if let Some(state) = state_again(entry, line, last)? {
        return Ok(state);
    }
    let made = state_of(alloc, entry.elements(), entry.sites(), line)?;
    let state = Shared::new(alloc, made)?;
    let head = Spot {
        function: line.function,
        block: line.block,
    };
    let line = echo(alloc, head, line)?;
    *last = Some(Stated {
        line,
        state: state.share()?,
    });
    Ok(state)
}

/// Puts the state that a line shows into the table of its function.
fn put(
    alloc: Global,
    flows: &[FunctionFlow],
    line: &Line,
    last: &mut Option<Stated>,
    tables: &mut ListOf<Table>,
) -> Result<(), AllocError>
    requires sized { AreSized flows.now }
    requires line { IsLineIn (map extent_for flows.now) line.now }
    requires last { IfSome last.old IsStatedBy }
    requires tables { length tables.old ≡ length flows.now }
    requires places { HavePlaces flows.now tables.old }
    ensures tabled { OnOk result (IsTabled flows.now line.now tables.old tables.new) }
    ensures last { OnOk result (IfSome last.new IsStatedBy) }
{
    let entry = &flows[line.function as usize].entry;
    let state = state_for(alloc, entry, line, last)?;
    let table = tables.at_mut(line.function as usize);
    table.set(line.block as usize, Some(state));
    Ok(())
}

/// The tables that lines fill.
pub(crate) fn tables_of(
    alloc: Global,
    flows: &[FunctionFlow],
    lines: &[Line],
) -> Result<ListOf<Table>, AllocError>
    requires sized { AreSized flows.now }
    requires lines { AllByRecursion (IsLineIn (map extent_for flows.now)) lines.now }
    ensures { IfOk result (AreTabled flows.now lines.now) }
{
    let mut tables = blanks(alloc, flows)?;
    let mut last = None;
    for line in lines {
        put(alloc, flows, line, &mut last, &mut tables)?;
    }
    Ok(tables)
}
