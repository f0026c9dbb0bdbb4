ghost use Rattle.std.specs.Prelude.{◌≡◌, option_map};
ghost use Rattle.sw_value.specs.Value.{reference_of};
ghost use Rattle.sw_value.specs.declared.executor.Executor.TheVariants.{ActorOf};
ghost use Rattle.sw_value.specs.Executor.{is_same, executor_of};

use crate::value::{Value, ValueSlots, value_in};
use sw_types::Iso;

/// Where a frame runs (SE-0306, SE-0316, SE-0338, SE-0461).
#[derive(Clone, Copy, Debug, PartialEq, Eq)]
pub enum Executor {
    /// The executor of what is isolated to no actor; any number of jobs run on it at once.
    Generic,
    /// The executor of an actor, by the number of its cell.
    ActorOf(u32),
    /// The executor of a global actor, by number.
    Global(u32),
}

impl Executor {
    /// Whether two executors are one.
    pub fn is_same(self, other: Executor) -> bool
        ensures { result ≡ is_same self other }
    {
        match (self, other) {
            (Executor::Generic, Executor::Generic) => true,
            (Executor::ActorOf(one), Executor::ActorOf(two)) => one == two,
            (Executor::Global(one), Executor::Global(two)) => one == two,
            _ => false,
        }
    }

    /// The executor of a function with these first registers, where it does not take its caller's;
    /// `None` where it is isolated to a `self` that register 0 does not hold.
    pub fn of_isolation(iso: Iso, regs: &ValueSlots) -> Option<Executor>
        ensures { result ≡ executor_of iso regs.now }
    {
        match iso {
            Iso::Free | Iso::Caller => Some(Executor::Generic),
            Iso::Global(actor) => Some(Executor::Global(actor)),
            Iso::Own => actor_of(value_in(regs, 0)?),
        }
    }
}

/// The executor of the actor that a value refers to.
fn actor_of(value: &Value) -> Option<Executor>
    ensures { result ≡ option_map ActorOf (reference_of value.now) }
{
    match value.reference() {
        None => None,
        Some(cell) => Some(Executor::ActorOf(cell)),
    }
}
