ghost use Rattle.std.specs.Prelude.{◌≡◌, IfOk};
ghost use Rattle.sw_value.specs.Call.{crosses, call_executor, called_in, called_frame};

use crate::beginning::registers;
use crate::executor::Executor;
use crate::frame::Frame;
use crate::value::{ValueList, ValueSlots};
use std::alloc::{AllocError, Global};
use sw_graph::Graph;
use sw_types::{CallKind, Iso};

impl Frame {
    /// The frame of a call of a function, with values in its first registers; its result is for the
    /// caller's register `reg`. There is none where there is no such function, or where a strong
    /// call's function is isolated to a `self` that the values lack.
    #[tactic(auto, unfolding(crate::specs::Call::called_frame))]
    pub fn called(
        &self,
        alloc: Global,
        graph: &Graph,
        number: u32,
        kind: CallKind,
        reg: u32,
        values: ValueList,
    ) -> Result<Option<Frame>, AllocError>
        ensures { IfOk result (λ frame.
            frame ≡ called_frame graph.now self.now number kind reg values) }
    {
        match graph.functions.get(number as usize) {
            None => Ok(None),
            Some(function) => {
                let regs = registers(alloc, function.regs.len(), values)?;
                Ok(self.called_in(number, kind, reg, function.iso, regs))
            }
        }
    }

    fn called_in(
        &self,
        number: u32,
        kind: CallKind,
        reg: u32,
        iso: Iso,
        regs: ValueSlots,
    ) -> Option<Frame>
        ensures { result ≡ called_in self.now number kind reg iso regs }
    {
        let executor = self.executor.of_call(kind, iso, &regs)?;
        Some(Frame {
            function: number,
            point: 0,
            regs,
            executor,
            crossing: crosses(kind),
            result: reg,
        })
    }
}

impl Executor {
    /// The executor of a call from a frame on this one: the generic one of a weak call, the
    /// callee's own of a strong one, and else this.
    fn of_call(self, kind: CallKind, iso: Iso, regs: &ValueSlots) -> Option<Executor>
        ensures { result ≡ call_executor kind self iso regs.now }
    {
        match kind {
            CallKind::Plain | CallKind::Same | CallKind::Make => Some(self),
            CallKind::Weak => Some(Executor::Generic),
            CallKind::Strong => Executor::of_isolation(iso, regs),
        }
    }
}

/// Whether a call gives its caller's executor up.
fn crosses(kind: CallKind) -> bool
    ensures { result ≡ crosses kind }
{
    match kind {
        CallKind::Weak | CallKind::Strong => true,
        CallKind::Plain | CallKind::Same | CallKind::Make => false,
    }
}
