ghost use Rattle.std.specs.Prelude.{◌≡◌, ◌≤◌, IfOk};
ghost use Rattle.sw_gen.specs.Schedule.{runs};

use crate::MAX_ACTORS;
use std::alloc::{AllocError, Global};

/// How often a job stands in the schedule, one time after the other.
const STEPS: u32 = 20;

/// The runs of the schedule for the program of `n` actors, each a job and how often it stands
/// there.
#[tactic(auto, unfolding(crate::specs::Schedule::runs))]
pub fn make_schedule(alloc: Global, n: u32) -> Result<Vec<(u32, u32)>, AllocError>
    requires { n ≤ MAX_ACTORS }
    ensures { IfOk result (λ list. list.items ≡ runs n) }
{
    let mut runs = Vec::new(alloc);
    for task in 1..n + 1 {
        runs.push((0, STEPS))?;
        runs.push((task, STEPS))?;
    }
    runs.push((0, STEPS))?;
    Ok(runs)
}
