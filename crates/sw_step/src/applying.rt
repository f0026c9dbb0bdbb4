ghost use Rattle.std.specs.Prelude.{◌≡◌, IfOk, OnOk, OnErr};
ghost use Rattle.sw_value.specs.Reach.{after_effect};
ghost use Rattle.sw_step.specs.Event.{effect_event};

use crate::event::Event;
use std::alloc::{AllocError, Global};
use sw_value::{Effect, State, Value};

/// Lets a job execute an instruction with that effect. Where memory runs out it leaves the state as
/// it was.
pub fn apply(
    alloc: Global,
    state: &mut State,
    job: u32,
    effect: Effect,
) -> Result<Event, AllocError>
    ensures ok { OnOk result (state.new ≡ after_effect job effect state.old) }
    ensures event { IfOk result (λ event. event ≡ effect_event effect) }
    ensures err { OnErr result (state.new ≡ state.old) }
{
    match effect {
        Effect::Set { reg, value, next } => {
            state.finish_instr(job, reg, value, next);
            Ok(Event::Ran)
        }
        Effect::SetField {
            reg,
            part,
            value,
            next,
        } => {
            state.set_field(job, reg, part, value, next);
            Ok(Event::Ran)
        }
        Effect::Print { reg, line, next } => {
            state.finish_instr(job, reg, Value::Unit, next);
            Ok(Event::Printed { line })
        }
        Effect::New {
            reg,
            cell,
            number,
            next,
        } => {
            state.add_cell(cell)?;
            state.finish_instr(job, reg, Value::Cell(number), next);
            Ok(Event::Ran)
        }
        Effect::Write {
            cell,
            slot,
            value,
            next,
        } => {
            state.set_slot(cell, slot, value);
            state.go_on(job, next);
            Ok(Event::Ran)
        }
        Effect::WriteGlobal {
            global,
            value,
            next,
        } => {
            state.set_global(global, value);
            state.go_on(job, next);
            Ok(Event::Ran)
        }
        Effect::Goto { next } => {
            state.go_on(job, next);
            Ok(Event::Ran)
        }
        Effect::Enter { frame, next } => {
            state.enter(job, frame, next)?;
            Ok(Event::Ran)
        }
        Effect::Spawn {
            reg,
            frame,
            job: made,
            cell,
            next,
        } => {
            state.add_task(alloc, frame, made)?;
            state.finish_instr(job, reg, Value::Cell(cell), next);
            Ok(Event::Ran)
        }
        Effect::Wait { job: on, reg, next } => {
            state.wait(job, on, reg, next);
            Ok(Event::Ran)
        }
        Effect::Rest { reg, next } => {
            state.rest(job, reg, next);
            Ok(Event::Ran)
        }
        Effect::Leave { value } => {
            state.leave(job, value)?;
            Ok(Event::Ran)
        }
        Effect::Halt { kind, at } => {
            state.halt(kind, at);
            Ok(Event::Trapped { kind, at })
        }
        Effect::Stuck => Ok(Event::Nothing),
    }
}
