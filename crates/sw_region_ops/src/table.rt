//! The table of region operations. Each function adds to a list what its definition says.
ghost use Rattle.std.specs.Prelude.{◌≡◌, [], ◌∷◌, ◌++◌, Some, slice_get, flat_map, OnOk, IfOk};
ghost use Rattle.std.specs.Option.{option_map};
ghost use Rattle.sw_graph.specs.Lent.{lent_point};
ghost use Rattle.sw_region_ops.specs.Calls.{is_isolated, free_code, callee_ops};
ghost use Rattle.sw_region_ops.specs.Elements.{element_at};
ghost use Rattle.sw_region_ops.specs.Groups.{need_each, meet, keep, take_from, make_of, put_here};
ghost use Rattle.sw_region_ops.specs.Groups.{put_first};
ghost use Rattle.sw_region_ops.specs.Table.{marks, result as result_at, shares_actor, iso_is};
ghost use Rattle.sw_region_ops.specs.Table.{load_ops, store_ops, closure_ops, task_ops};
ghost use Rattle.sw_region_ops.specs.Table.{instr_ops, return_ops, last_ops, point_ops};
ghost use Rattle.sw_region_ops.specs.Table.{block_ops};

use crate::calls::{Form, call_ops, free_code, is_isolated};
use crate::context::Context;
use crate::groups::{
    free_each, join_result_here, keep, make_of, meet, need_each, part_with, put_first, put_here,
    take_from,
};
use crate::marks::{Mark, MarkList, add_mark, add_marks, arguments_of, marks_of};
use crate::op::{NOT_DISCONNECTED, OpList};
use std::alloc::{AllocError, Global};
use sw_graph::{Block, Instr, Last, Operand, Point};
use sw_list::ListOf;
use sw_types::{CallKind, Iso};

/// Operands that are used.
fn needed(
    alloc: Global,
    ops: &mut OpList,
    context: &Context,
    operands: &[Operand],
) -> Result<(), AllocError>
    ensures { OnOk result (ops.new ≡ ops.old ++ need_each (marks context.now operands.now)) }
{
    let marks = marks_of(alloc, context.elements(), operands)?;
    need_each(ops, marks.as_slice())
}

/// A register that is set from an operand.
fn copied(
    alloc: Global,
    ops: &mut OpList,
    context: &Context,
    dst: u32,
    operand: Operand,
) -> Result<(), AllocError>
    ensures { OnOk result (ops.new ≡ ops.old
        ++ take_from (result_at context.now dst) (marks context.now (operand ∷ []))) }
{
    let marks = marks_of(alloc, context.elements(), &[operand])?;
    take_from(ops, context.element(dst), marks.as_slice())
}

/// A register that is set to a new value of these operands.
fn made(
    alloc: Global,
    ops: &mut OpList,
    context: &Context,
    dst: u32,
    operands: &[Operand],
) -> Result<(), AllocError>
    ensures { OnOk result (ops.new ≡ ops.old
        ++ make_of (result_at context.now dst) (marks context.now operands.now)) }
{
    let marks = marks_of(alloc, context.elements(), operands)?;
    make_of(ops, context.element(dst), marks.as_slice())
}

/// Two operands that come together.
fn met(
    alloc: Global,
    ops: &mut OpList,
    context: &Context,
    first: Operand,
    second: Operand,
) -> Result<(), AllocError>
    ensures { OnOk result (ops.new ≡ ops.old ++ meet (marks context.now (first ∷ second ∷ []))) }
{
    let marks = marks_of(alloc, context.elements(), &[first, second])?;
    meet(ops, marks.as_slice())
}

/// An operand that goes to `Here`.
fn kept(
    alloc: Global,
    ops: &mut OpList,
    context: &Context,
    operand: Operand,
) -> Result<(), AllocError>
    ensures { OnOk result (ops.new ≡ ops.old ++ keep (marks context.now (operand ∷ []))) }
{
    let marks = marks_of(alloc, context.elements(), &[operand])?;
    keep(ops, marks.as_slice())
}

/// A register that is set to what is in the region of the code itself.
fn loaded_here(ops: &mut OpList, context: &Context, dst: u32) -> Result<(), AllocError>
    ensures { OnOk result (ops.new ≡ ops.old ++ put_here (result_at context.now dst)) }
{
    put_here(ops, context.element(dst))
}

fn load_ops(
    alloc: Global,
    ops: &mut OpList,
    context: &Context,
    dst: u32,
    cell: Operand,
) -> Result<(), AllocError>
    ensures { OnOk result (ops.new ≡ ops.old
        ++ load_ops context.now (element_at context.now.elements cell.reg) dst cell) }
{
    match context.element(cell.reg) {
        Some(_) => copied(alloc, ops, context, dst, cell),
        None => loaded_here(ops, context, dst),
    }
}

fn store_ops(
    alloc: Global,
    ops: &mut OpList,
    context: &Context,
    cell: Operand,
    operand: Operand,
) -> Result<(), AllocError>
    ensures { OnOk result (ops.new ≡ ops.old
        ++ store_ops context.now (element_at context.now.elements cell.reg) cell operand) }
{
    match context.element(cell.reg) {
        Some(_) => met(alloc, ops, context, cell, operand),
        None => kept(alloc, ops, context, operand),
    }
}

/// Whether a function is isolated to an actor or to a global actor.
fn is_isolated_function(context: &Context, function: u32) -> bool
    ensures { result ≡ iso_is context.now is_isolated function }
{
    match context.function(function) {
        None => false,
        Some(function) => is_isolated(function.iso),
    }
}

/// Adds the operations of a closure that captures these.
fn closure_ops(
    ops: &mut OpList,
    isolated: bool,
    r: Option<u32>,
    captures: &[Mark],
) -> Result<(), AllocError>
    ensures { OnOk result (ops.new ≡ ops.old ++ closure_ops isolated r captures.now) }
{
    make_of(ops, r, captures)?;
    if isolated {
        join_result_here(ops, r)?;
    }
    Ok(())
}

/// A register that is set to a closure.
fn enclosed(
    alloc: Global,
    ops: &mut OpList,
    context: &Context,
    dst: u32,
    function: u32,
    captures: &[Operand],
) -> Result<(), AllocError>
    ensures { OnOk result (ops.new ≡ ops.old
        ++ closure_ops (iso_is context.now is_isolated function) (result_at context.now dst)
        (marks context.now captures.now)) }
{
    let marks = marks_of(alloc, context.elements(), captures)?;
    let isolated = is_isolated_function(context, function);
    closure_ops(ops, isolated, context.element(dst), marks.as_slice())
}

/// A register that is set by a call.
fn called(
    alloc: Global,
    ops: &mut OpList,
    context: &Context,
    at: u32,
    dst: u32,
    kind: CallKind,
    function: u32,
    operands: &[Operand],
) -> Result<(), AllocError>
    ensures { OnOk result (ops.new ≡ ops.old
        ++ callee_ops kind (free_code context.now.body.iso) at (result_at context.now dst)
        context.now.elements operands.now (slice_get context.now.functions function)) }
{
    let Some(callee) = context.function(function) else {
        return Ok(());
    };
    let sending = callee.sending.as_slice();
    let sent = arguments_of(alloc, context.elements(), sending, true, operands)?;
    let kept = arguments_of(alloc, context.elements(), sending, false, operands)?;
    let form = Form {
        kind,
        code: free_code(context.body().iso),
        site: at,
        sends: callee.sends,
    };
    call_ops(
        ops,
        form,
        context.element(dst),
        sent.as_slice(),
        kept.as_slice(),
    )
}

/// The tracked ones of a function value and of the arguments that it is called with.
fn closure_marks(
    alloc: Global,
    context: &Context,
    closure: &Operand,
    operands: &[Operand],
) -> Result<MarkList, AllocError>
    ensures { IfOk result (λ list. list ≡ marks context.now (closure.now ∷ operands.now)) }
{
    let mut marks = ListOf::new(alloc);
    add_mark(&mut marks, context.elements(), closure)?;
    add_marks(&mut marks, context.elements(), operands)?;
    Ok(marks)
}

/// A register that is set by a call of a function value.
fn closure_called(
    alloc: Global,
    ops: &mut OpList,
    context: &Context,
    dst: u32,
    closure: &Operand,
    operands: &[Operand],
) -> Result<(), AllocError>
    ensures { OnOk result (ops.new ≡ ops.old
        ++ meet (marks context.now (closure.now ∷ operands.now))
        ++ put_first (result_at context.now dst) (marks context.now (closure.now ∷ operands.now))) }
{
    let marks = closure_marks(alloc, context, closure, operands)?;
    meet(ops, marks.as_slice())?;
    put_first(ops, context.element(dst), marks.as_slice())
}

/// Whether a task runs on the actor of the body that makes it.
fn shares_actor(task: Iso, body: Iso) -> bool
    ensures { result ≡ shares_actor task body }
{
    match (task, body) {
        (Iso::Own, Iso::Own) => true,
        (Iso::Global(actor), Iso::Global(other)) => actor == other,
        (Iso::Free | Iso::Own | Iso::Global(_) | Iso::Caller, _) => false,
    }
}

/// Whether a task of this function runs on the actor of the body.
fn is_task_inside(context: &Context, function: u32) -> bool
    ensures { result ≡ iso_is context.now (λ iso. shares_actor iso context.now.body.iso) function }
{
    match context.function(function) {
        None => false,
        Some(function) => shares_actor(function.iso, context.body().iso),
    }
}

fn task_ops(
    ops: &mut OpList,
    inside: bool,
    code: u16,
    site: u32,
    captures: &[Mark],
) -> Result<(), AllocError>
    ensures { OnOk result (ops.new ≡ ops.old ++ task_ops inside code site captures.now) }
{
    if inside {
        keep(ops, captures)
    } else {
        part_with(ops, code, site, captures)
    }
}

/// A task that is made.
fn spawned(
    alloc: Global,
    ops: &mut OpList,
    context: &Context,
    at: u32,
    function: u32,
    captures: &[Operand],
) -> Result<(), AllocError>
    ensures { OnOk result (ops.new ≡ ops.old
        ++ task_ops (iso_is context.now (λ iso. shares_actor iso context.now.body.iso) function)
        (free_code context.now.body.iso) at (marks context.now captures.now)) }
{
    let marks = marks_of(alloc, context.elements(), captures)?;
    let inside = is_task_inside(context, function);
    task_ops(
        ops,
        inside,
        free_code(context.body().iso),
        at,
        marks.as_slice(),
    )
}

/// Adds the operations of an instruction.
pub(crate) fn instr_ops(
    alloc: Global,
    ops: &mut OpList,
    context: &Context,
    instr: &Instr,
) -> Result<(), AllocError>
    ensures { OnOk result (ops.new ≡ ops.old ++ instr_ops context.now instr.now) }
{
    match instr {
        Instr::Const { .. }
        | Instr::Un { .. }
        | Instr::Bin { .. }
        | Instr::Print { .. }
        | Instr::Await { .. }
        | Instr::Yield { .. } => Ok(()),
        Instr::Copy { dst, src, .. }
        | Instr::Field { dst, src, .. }
        | Instr::Payload { dst, src, .. } => copied(alloc, ops, context, *dst, *src),
        Instr::SetField { target, src, .. } => met(alloc, ops, context, *target, *src),
        Instr::Make { dst, args, .. } | Instr::NewObject { dst, args, .. } => {
            made(alloc, ops, context, *dst, args.as_slice())
        }
        Instr::NewBox { dst, src, .. } => made(alloc, ops, context, *dst, &[*src]),
        Instr::NewActor { args, .. } => needed(alloc, ops, context, args.as_slice()),
        Instr::LoadBox { dst, cell, .. } => copied(alloc, ops, context, *dst, *cell),
        Instr::StoreBox { cell, src, .. } => met(alloc, ops, context, *cell, *src),
        Instr::LoadProp { dst, cell, .. } => load_ops(alloc, ops, context, *dst, *cell),
        Instr::StoreProp { cell, src, .. } => store_ops(alloc, ops, context, *cell, *src),
        Instr::LoadGlobal { dst, .. } => loaded_here(ops, context, *dst),
        Instr::StoreGlobal { src, .. } => kept(alloc, ops, context, *src),
        Instr::NewClosure {
            dst,
            function,
            captures,
            ..
        } => { enclosed(alloc, ops, context, *dst, *function, captures.as_slice()) }
        Instr::Call {
            at,
            dst,
            kind,
            function,
            args,
        } => {
            called(
                alloc,
                ops,
                context,
                *at,
                *dst,
                *kind,
                *function,
                args.as_slice(),
            )
        }
        Instr::CallClosure {
            dst,
            closure,
            args,
            ..
        } => { closure_called(alloc, ops, context, *dst, closure, args.as_slice()) }
        Instr::NewTask {
            at,
            function,
            captures,
            ..
        } => { spawned(alloc, ops, context, *at, *function, captures.as_slice()) }
    }
}

fn return_ops(ops: &mut OpList, sends: bool, value: &[Mark]) -> Result<(), AllocError>
    ensures { OnOk result (ops.new ≡ ops.old ++ return_ops sends value.now) }
{
    need_each(ops, value)?;
    if sends {
        free_each(ops, NOT_DISCONNECTED, value)?;
    }
    Ok(())
}

/// A result that is returned.
fn returned(
    alloc: Global,
    ops: &mut OpList,
    context: &Context,
    operand: Operand,
) -> Result<(), AllocError>
    ensures { OnOk result (ops.new ≡ ops.old
        ++ return_ops context.now.body.sends (marks context.now (operand ∷ []))) }
{
    let marks = marks_of(alloc, context.elements(), &[operand])?;
    return_ops(ops, context.body().sends, marks.as_slice())
}

/// Adds the operations of the last instruction of a block.
pub(crate) fn last_ops(
    alloc: Global,
    ops: &mut OpList,
    context: &Context,
    last: &Last,
) -> Result<(), AllocError>
    ensures { OnOk result (ops.new ≡ ops.old ++ last_ops context.now last.now) }
{
    match last {
        Last::Jump { .. } | Last::Branch { .. } | Last::Return { value: None } => Ok(()),
        Last::Switch { subject, .. } => needed(alloc, ops, context, &[*subject]),
        Last::Return { value: Some(value) } => returned(alloc, ops, context, *value),
    }
}

/// Adds the operations of instructions, one after the other.
fn instrs_ops(
    alloc: Global,
    ops: &mut OpList,
    context: &Context,
    instrs: &[Instr],
) -> Result<(), AllocError>
    ensures { OnOk result (ops.new ≡ ops.old ++ flat_map (instr_ops context.now) instrs.now) }
{
    for instr in instrs {
        instr_ops(alloc, ops, context, instr)?;
    }
    Ok(())
}

impl Context<'_> {
    /// The operations of a block, in order.
    #[tactic(auto, using(crate::proofs::BlockLemmas::block_is))]
    pub fn block_ops(&self, alloc: Global, block: &Block) -> Result<OpList, AllocError>
        ensures { IfOk result (λ ops. ops ≡ block_ops self.now block.now) }
    {
        let mut ops = ListOf::new(alloc);
        instrs_ops(alloc, &mut ops, self, block.instrs.as_slice())?;
        last_ops(alloc, &mut ops, self, &block.last)?;
        Ok(ops)
    }

    /// The operations of what stands at a point.
    pub(crate) fn point_ops(&self, alloc: Global, point: Point) -> Result<OpList, AllocError>
        ensures { IfOk result (λ ops. Some ops
            ≡ option_map (point_ops self.now) (lent_point (Some point.entry))) }
    {
        let mut ops = ListOf::new(alloc);
        match point {
            Point::Middle(instr) => instr_ops(alloc, &mut ops, self, instr)?,
            Point::End(last) => last_ops(alloc, &mut ops, self, last)?,
        }
        Ok(ops)
    }
}
