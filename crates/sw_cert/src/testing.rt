//! Tests of the states that a certificate gives the blocks of functions.
ghost use Rattle.std.specs.Prelude.{◌≡◌, ◌<◌, ◌≤◌, ◌↔◌, length, IfOk, IfErr, IsTrue};
ghost use Rattle.std.specs.List.{AllByRecursion};
ghost use Rattle.std.specs.Option.{option_copied};
ghost use Rattle.sw_partition.specs.Regions.{size_of, IsWithin};
ghost use Rattle.sw_region_flow.specs.Analysis.{facts_of, targets_at};
ghost use Rattle.sw_solve.specs.Annotation.{value_at, IsBelow};
ghost use Rattle.sw_cert.specs.Flows.{AreSized};
ghost use Rattle.sw_cert.specs.ReadLines.{AreStarts, text_of};
ghost use Rattle.sw_cert.specs.Tables.{AreTabled};
ghost use Rattle.sw_cert.specs.Tests.{AreOfSize, AreTablesOfSize, IsAllBelow, IsFirstBelow};
ghost use Rattle.sw_cert.specs.Tests.{LineFault, HoldsBy, IsFirstFault, IsLineOn};
ghost use Rattle.sw_cert.specs.Verified.{PassesAt, ClosedAt};
ghost use Rattle.sw_cert.specs.declared.verdict.TheConstants.{CERTIFICATE_LIMIT};

use crate::flows::FunctionFlow;
use crate::line::Line;
use crate::tables::Table;
use crate::verdict::CertFault;
use std::alloc::{AllocError, Global};
use sw_list::ListOf;
use sw_partition::Partition;
use sw_region_flow::BlockFlow;
use sw_solve::Lattice;

/// The state that a table has at a block.
fn state_at(table: &Table, block: usize) -> Option<&Partition>
    ensures { option_copied result ≡ value_at table.now block }
{
    Some(table.as_slice().get(block)?.as_ref()?.get())
}

/// Whether a table has a state at a block that includes another state.
fn includes_at(table: &Table, block: usize, state: &Partition) -> bool
    requires { AreOfSize (size_of state.now) table.now }
    ensures { IsTrue result ↔ IsBelow IsWithin state.now (value_at table.now block) }
{
    match state_at(table, block) {
        Some(found) => found.includes(state),
        None => false,
    }
}

/// The first function whose first block has no state that includes that at the entry.
pub(crate) fn first_not_entered(flows: &[FunctionFlow], tables: &[Table]) -> Option<usize>
    requires tables { length tables.now ≡ length flows.now }
    requires sized { AreTablesOfSize flows.now tables.now }
    ensures { IsFirstBelow flows.now tables.now result }
{
    for function in 0..flows.len() {
        if !includes_at(&tables[function], 0, &flows[function].entry) {
            return Some(function);
        }
    }
    None
}

/// Whether a table has at each of some blocks a state that includes another state.
fn includes_at_all(table: &Table, blocks: &[u32], state: &Partition) -> bool
    requires { AreOfSize (size_of state.now) table.now }
    ensures { IsTrue result ↔ IsAllBelow state.now table.now blocks.now }
{
    for block in blocks {
        if !includes_at(table, *block as usize, state) {
            return false;
        }
    }
    true
}

/// Whether a table has at each block that follows one a state that includes another state.
fn is_closed(
    alloc: Global,
    flow: &BlockFlow,
    table: &Table,
    block: u32,
    state: &Partition,
) -> Result<bool, AllocError>
    requires block { block < length flow.now.setting.body.blocks }
    requires sized { AreOfSize (size_of state.now) table.now }
    ensures { IfOk result (λ closed. IsTrue closed
        ↔ IsAllBelow state.now table.now (targets_at flow.now.setting.body.blocks block)) }
{
    let following = flow.following(alloc, block)?;
    Ok(includes_at_all(table, following.as_slice(), state))
}

/// Tests the state that a table has at a block, for the line that begins at this byte.
fn test_line(
    alloc: Global,
    flow: &BlockFlow,
    table: &Table,
    block: u32,
    at: u32,
) -> Result<(), CertFault>
    requires block { block < length flow.now.setting.body.blocks }
    requires sized { AreOfSize (facts_of flow.now) table.now }
    ensures passes { IfOk result (λ _. PassesAt flow.now.setting table.now block) }
    ensures closed { IfOk result (λ _. ClosedAt flow.now.setting table.now block) }
    ensures fault { IfErr result (LineFault flow.now.setting table.now block at) }
{
    let Some(state) = state_at(table, block as usize) else {
        return Ok(());
    };
    let mut state = state.copy(alloc)?;
    if !flow.passes(alloc, block, &mut state)? {
        return Err(CertFault::Fails { at });
    }
    if !is_closed(alloc, flow, table, block, &state)? {
        return Err(CertFault::Open { at });
    }
    Ok(())
}

/// Tests the states at the blocks of lines, which begin at these bytes, one after the other.
pub(crate) fn test_lines(
    alloc: Global,
    flows: &[FunctionFlow],
    tables: &[Table],
    lines: &[Line],
    starts: &[u64],
) -> Result<(), CertFault>
    requires sized { AreSized flows.now }
    requires tables { AreTabled flows.now lines.now tables.now }
    requires lines { AllByRecursion (IsLineOn flows.now) lines.now }
    requires starts { AreStarts lines.now starts.now }
    requires few { length (text_of lines.now) ≤ CERTIFICATE_LIMIT }
    ensures holds { IfOk result
        (λ _. AllByRecursion (HoldsBy flows.now tables.now) lines.now) }
    ensures fault { IfErr result (IsFirstFault flows.now tables.now lines.now) }
{
    for n in 0..lines.len() {
        let line = &lines[n];
        let function = line.function as usize;
        test_line(
            alloc,
            &flows[function].blocks,
            &tables[function],
            line.block as u32,
            starts[n] as u32,
        )?;
    }
    Ok(())
}
