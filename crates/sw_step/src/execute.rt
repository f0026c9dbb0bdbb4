ghost use Rattle.std.specs.Prelude.{◌≡◌, ◌+◌, ◌<◌, ◌^◌, IfOk, length};
ghost use Rattle.sw_graph.specs.declared.instr.Last.TheVariants.{Branch, Switch};
ghost use Rattle.sw_value.specs.Effect.{instr_effect, last_effect, goto_of, effect_of};

use crate::calling::{call_effect, closure_call_effect, task_effect};
use crate::computing::{binary_effect, make_effect, print_effect, unary_effect};
use crate::context::Context;
use crate::memory::{
    actor_effect, box_effect, closure_effect, field_write, global_write, object_effect, set_of,
    slot_write,
};
use crate::reading::{await_effect, field_at, loaded, payload_at, tag_at, truth_at};
use std::alloc::{AllocError, Global};
use sw_graph::{Graph, IdList, Instr, Last, Operand, Point};
use sw_value::{Effect, Frame, Slot, State, Value, value_in};

/// The effect of the instruction at which a frame stands, the top one of `depth` frames.
#[tactic(auto, unfolding(sw_value::specs::Effect::effect_of))]
pub fn effect_of(
    alloc: Global,
    graph: &Graph,
    state: &State,
    depth: usize,
    frame: &Frame,
) -> Result<Effect, AllocError>
    requires cells { length state.now.cells < 4294967295 }
    ensures { IfOk result (λ effect. effect ≡ effect_of graph.now state.now depth frame.now) }
{
    match frame.point_at(graph) {
        None => Ok(Effect::Stuck),
        Some(Point::Middle(instr)) => {
            let context = Context {
                alloc,
                graph,
                state,
                frame,
                depth,
                next: frame.point + 1,
            };
            instr_effect(&context, instr)
        }
        Some(Point::End(last)) => last_effect(alloc, graph, frame, last),
    }
}

/// The effect of an instruction that isn't the last of its block.
fn instr_effect(context: &Context<'_>, instr: &Instr) -> Result<Effect, AllocError>
    requires cells { length context.now.state.now.cells < 4294967295 }
    ensures { IfOk result (λ effect. effect
        ≡ instr_effect context.now.graph.now context.now.state.now context.now.depth
        context.now.frame.now context.now.next instr.now) }
{
    let frame = context.frame;
    let state = context.state;
    match instr {
        Instr::Const { dst, value, .. } => Ok(Effect::Set {
            reg: *dst,
            value: Value::from(*value),
            next: context.next,
        }),
        Instr::Un { at, dst, op, src } => Ok(unary_effect(context, *at, *dst, *op, src)),
        Instr::Bin {
            at,
            dst,
            op,
            left,
            right,
        } => Ok(binary_effect(context, *at, *dst, *op, left, right)),
        Instr::Print { dst, args, .. } => print_effect(context, *dst, args),
        Instr::Copy { dst, src, .. } => set_of(context, *dst, frame.value_at(src.reg)),
        Instr::Field { dst, src, part, .. } => {
            set_of(context, *dst, field_at(frame, src, *part))
        }
        Instr::Payload {
            dst,
            src,
            index,
            ..
        } => { set_of(context, *dst, payload_at(frame, src, *index)) }
        Instr::SetField {
            target,
            part,
            src,
            ..
        } => { field_write(context, target, *part, src) }
        Instr::Make { dst, tag, args, .. } => make_effect(context, *dst, *tag, args),
        Instr::NewObject {
            dst,
            shape,
            args,
            ..
        } => { object_effect(context, *dst, *shape, args) }
        Instr::NewBox { dst, src, .. } => box_effect(context, *dst, src),
        Instr::NewActor {
            dst,
            shape,
            args,
            ..
        } => { actor_effect(context, *dst, *shape, args) }
        Instr::LoadBox { dst, cell, .. } => {
            set_of(context, *dst, loaded(context, cell, Slot::Content))
        }
        Instr::StoreBox { cell, src, .. } => { slot_write(context, cell, Slot::Content, src) }
        Instr::LoadProp {
            dst,
            cell,
            part,
            ..
        } => { set_of(context, *dst, loaded(context, cell, Slot::Part(*part))) }
        Instr::StoreProp {
            cell,
            part,
            src,
            ..
        } => { slot_write(context, cell, Slot::Part(*part), src) }
        Instr::LoadGlobal { dst, global, .. } => {
            set_of(context, *dst, value_in(&state.globals, *global))
        }
        Instr::StoreGlobal { global, src, .. } => { global_write(context, *global, src) }
        Instr::NewClosure {
            dst,
            function,
            captures,
            ..
        } => { closure_effect(context, *dst, *function, captures) }
        Instr::Call {
            at,
            dst,
            kind,
            function,
            args,
        } => call_effect(context, *at, *dst, *kind, *function, args),
        Instr::CallClosure {
            at,
            dst,
            closure,
            args,
        } => closure_call_effect(context, *at, *dst, closure, args),
        Instr::NewTask {
            at,
            dst,
            function,
            captures,
        } => task_effect(context, *at, *dst, *function, captures),
        Instr::Await { dst, task, .. } => Ok(await_effect(context, *dst, task)),
        Instr::Yield { dst, .. } => Ok(Effect::Rest {
            reg: *dst,
            next: context.next,
        }),
    }
}

/// The effect of the last instruction of a block.
fn last_effect(
    alloc: Global,
    graph: &Graph,
    frame: &Frame,
    last: &Last,
) -> Result<Effect, AllocError>
    ensures { IfOk result (λ effect. effect ≡ last_effect graph.now frame.now last.now) }
{
    match last {
        Last::Jump { to } => Ok(goto_of(graph, frame, *to)),
        Last::Branch { condition, yes, no } => {
            Ok(branch_effect(graph, frame, condition, *yes, *no))
        }
        Last::Switch { subject, to } => Ok(switch_effect(graph, frame, subject, to)),
        Last::Return { value: None } => Ok(Effect::Leave { value: Value::Unit }),
        Last::Return {
            value: Some(operand),
        } => match frame.value_at(operand.reg) {
            None => Ok(Effect::Stuck),
            Some(value) => Ok(Effect::Leave {
                value: value.copied(alloc)?,
            }),
        },
    }
}

/// The frame goes on where a block begins.
fn goto_of(graph: &Graph, frame: &Frame, block: u32) -> Effect
    ensures { result ≡ goto_of graph.now frame.now block }
{
    match frame.start_at(graph, block) {
        None => Effect::Stuck,
        Some(next) => Effect::Goto { next },
    }
}

fn branch_effect(graph: &Graph, frame: &Frame, condition: &Operand, yes: u32, no: u32) -> Effect
    ensures { result ≡ last_effect graph.now frame.now (Branch condition.now yes no) }
{
    match truth_at(frame, condition) {
        None => Effect::Stuck,
        Some(truth) => goto_of(graph, frame, if truth { yes } else { no }),
    }
}

fn switch_effect(graph: &Graph, frame: &Frame, subject: &Operand, to: &IdList) -> Effect
    ensures { result ≡ last_effect graph.now frame.now (Switch subject.now to.now) }
{
    let Some(tag) = tag_at(frame, subject) else {
        return Effect::Stuck;
    };
    match to.get(tag) {
        None => Effect::Stuck,
        Some(block) => goto_of(graph, frame, *block),
    }
}
