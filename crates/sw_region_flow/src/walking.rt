//! Walks through operations, with their tests.
ghost use Rattle.std.specs.Prelude.{◌≡◌, ◌↔◌, ◌⊎◌, ◌++◌, Contains, All, OnOk};
ghost use Rattle.sw_breach.specs.declared.Breach.{Breach};
ghost use Rattle.sw_partition.specs.Regions.{size_of};
ghost use Rattle.sw_region_flow.specs.Walks.{TestFails, FailsAmong};
ghost use Rattle.sw_region_ops.specs.Runs.{Applies, Runs, Fits};

use crate::testing::test;
use std::alloc::AllocError;
use sw_breach::Breach;
use sw_list::ListOf;
use sw_partition::Partition;
use sw_region_ops::{Op, apply};

/// Adds what is wrong where an operation is a test that fails.
fn look(found: &mut ListOf<Breach>, op: &Op, state: &Partition) -> Result<(), AllocError>
    requires { Fits (size_of state.now) op.now }
    ensures { OnOk result ((breach : Breach) → Contains found.new breach
        ↔ (Contains found.old breach ⊎ TestFails op.now state.now breach)) }
{
    match test(op, state) {
        Some(breach) => found.push(breach),
        None => Ok(()),
    }
}

/// Adds what is wrong where an operation is a test that fails, and does the operation.
fn step(found: &mut ListOf<Breach>, op: &Op, state: &mut Partition) -> Result<(), AllocError>
    requires { Fits (size_of state.old) op.now }
    ensures found { OnOk result ((breach : Breach) → Contains found.new breach
        ↔ (Contains found.old breach ⊎ TestFails op.now state.old breach)) }
    ensures does { OnOk result (Applies op.now state.old state.new) }
{
    look(found, op, state)?;
    apply(op, state);
    Ok(())
}

/// Does operations, one after the other, and adds what is wrong where a test fails.
pub(crate) fn walk(
    found: &mut ListOf<Breach>,
    ops: &[Op],
    state: &mut Partition,
) -> Result<(), AllocError>
    requires { All (Fits (size_of state.old)) ops.now }
    ensures found { OnOk result ((breach : Breach) → Contains found.new breach
        ↔ (Contains found.old breach ⊎ FailsAmong ops.now state.old breach)) }
    ensures runs { OnOk result (Runs ops.now state.old state.new) }
{
    for op in ops {
        step(found, op, state)?;
    }
    Ok(())
}
