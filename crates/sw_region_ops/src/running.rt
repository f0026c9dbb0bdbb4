//! Operations on a region state.
ghost use Rattle.std.specs.Prelude.{All};
ghost use Rattle.sw_partition.specs.Regions.{size_of};
ghost use Rattle.sw_region_ops.specs.Runs.{Applies, Runs, Fits};

use crate::op::Op;
use sw_partition::Partition;

/// Does one operation; a test changes nothing.
pub fn apply(op: &Op, state: &mut Partition)
    requires { Fits (size_of state.old) op.now }
    ensures { Applies op.now state.old state.new }
{
    match *op {
        Op::Need { .. } | Op::Free { .. } => {}
        Op::Fresh { x } => state.fresh(x),
        Op::Put { x, y } => state.put(x, y),
        Op::Join { x, y } => state.join(x, y),
        Op::Give { x, site } => state.give(x, site),
    }
}

/// Does operations, one after the other.
pub fn run(ops: &[Op], state: &mut Partition)
    requires { All (Fits (size_of state.old)) ops.now }
    ensures { Runs ops.now state.old state.new }
{
    for op in ops {
        apply(op, state);
    }
}
