//! What an act does to colours: its plan. Nothing is changed here.
ghost use Rattle.std.specs.Prelude.{◌≡◌, ◌++◌, IfOk, OnOk, IsFalse, ℕ, [], true, false, option_and_then, slice_get};
ghost use Rattle.std.specs.Prelude.{if◌then◌else◌};
ghost use Rattle.std.specs.Option.{option_copied};
ghost use Rattle.sw_types.specs.Sendable.{sends_at};
ghost use Rattle.sw_graph.specs.declared.graph.Graph.{Graph};
ghost use Rattle.sw_value.specs.declared.cell.HeapCell.TheVariants.{Object};
ghost use Rattle.sw_value.specs.declared.state.State.{State};
ghost use Rattle.sw_value.specs.Job.{top_frame};
ghost use Rattle.sw_value.specs.Value.{value_at};
ghost use Rattle.sw_color_rules.specs.declared.colors.Colors.{Colors};
ghost use Rattle.sw_color_rules.specs.Plans.{no_plan, joining, next_color, top_here, colored_cell};
ghost use Rattle.sw_color_rules.specs.Plans.{new_actor, is_isolated_to, is_isolated, new_closure};
ghost use Rattle.sw_color_rules.specs.Plans.{new_cell, store_color, sending_of, is_to_actor};
ghost use Rattle.sw_color_rules.specs.Plans.{called_number, called_closure, entered, spawned, is_make};
ghost use Rattle.sw_color_rules.specs.Plans.{effect_plan, plan_at, plan_of, changes_by};
ghost use Rattle.sw_color_rules.specs.Tints.{colors_of, colors_in, slot_colors};
ghost use Rattle.sw_color.specs.Reading.{read_point, here_number, here_owner, is_plain, effect_colors, tint_for, fresh_cell};

use crate::colors::{color_number, next_color, number_on, top_here};
use crate::values::{
    add_colors, add_colors_of, add_held, add_option, add_passed, add_slot_colors, in_order,
};
use std::alloc::{AllocError, Global};
use std::slice;
use sw_color_rules::{ColorNumbers, Colors, FrameChange, Owner, Plan, Tint};
use sw_graph::{Graph, Instr, Point};
use sw_list::ListOf;
use sw_types::{CallKind, Iso, Ty};
use sw_value::{Act, Effect, Frame, HeapCell, State, Value};

/// What a plan depends on beside the act: the graph, the colours, and whose act it is.
#[derive(Clone, Copy)]
pub struct Setting<'a> {
    pub alloc: Global,
    pub graph: &'a Graph,
    pub colors: &'a Colors,
    pub job: u32,
}

/// These colours become one.
fn joining(joined: ColorNumbers) -> Plan
    ensures { result ≡ joining joined }
{
    Plan {
        fresh: None,
        tint: None,
        frame: FrameChange::Stays,
        joined,
        heir: None,
    }
}

/// A cell without a new colour is made.
fn tinted(tint: Tint, joined: ColorNumbers) -> Plan
    ensures { result ≡ record (joining joined) { tint = Some tint } }
{
    Plan {
        tint: Some(tint),
        ..joining(joined)
    }
}

/// What a cell with a new colour has to do with it.
fn tint_for(owner: Owner, number: usize) -> Tint
    ensures { result ≡ tint_for owner number }
{
    match owner {
        Owner::Job(_) => Tint::Colored { number },
        Owner::ActorOf(_) | Owner::Global(_) => Tint::Owns { number },
    }
}

fn is_isolated_to(iso: Iso) -> bool
    ensures { result ≡ is_isolated_to iso }
{
    match iso {
        Iso::Own | Iso::Global(_) => true,
        Iso::Free | Iso::Caller => false,
    }
}

/// Whether a function is isolated to an actor or a global actor.
fn is_isolated(graph: &Graph, function: u32) -> bool
    ensures { result ≡ is_isolated graph.now function }
{
    match graph.functions.get(function as usize) {
        None => false,
        Some(function) => is_isolated_to(function.iso),
    }
}

/// Whether objects of a class are Sendable.
#[tactic(auto, using(crate::proofs::SendLemmas::sends_beyond))]
fn is_shared_class(graph: &Graph, shape: u32) -> bool
    ensures { result ≡ sends_at graph.now.shapes shape }
{
    if (shape as usize) < graph.shapes.list().len() {
        graph.shapes.is_sendable(&Ty::Named(shape))
    } else {
        false
    }
}

/// The registers that a function takes and that are `sending`.
fn sending_of(graph: &Graph, function: u32) -> &[bool]
    ensures { result.now ≡ sending_of graph.now function }
{
    match graph.functions.get(function as usize) {
        None => &[],
        Some(function) => function.sending.as_slice(),
    }
}

/// A call of these kinds is of a function that is isolated to an actor or a global actor.
fn is_to_actor(kind: CallKind) -> bool
    ensures { result ≡ is_to_actor kind }
{
    match kind {
        CallKind::Same | CallKind::Strong => true,
        CallKind::Plain | CallKind::Weak | CallKind::Make => false,
    }
}

/// Whether a point makes a value of parts.
fn is_make(point: Point<'_>) -> bool
    ensures { result ≡ is_make (read_point point.entry) }
{
    matches!(point, Point::Middle(Instr::Make { .. }))
}

/// Whether a value is one that has no colours, whatever cells there are.
fn is_plain(value: &Value) -> bool
    ensures { result ≡ is_plain value.now }
{
    match value {
        Value::Int(_) | Value::Bool(_) | Value::Unit => true,
        Value::Cell(_) | Value::Group(_) | Value::Case { .. } => false,
    }
}

/// The colour of the `Here` of a frame that begins: its actor's, or the next one.
fn here_number(actor: Option<usize>, next: usize) -> usize
    ensures { result ≡ here_number actor next }
{
    match actor {
        None => next,
        Some(actor) => actor,
    }
}

/// The owner of that colour if it is a new one.
fn here_owner(actor: Option<usize>, owner: Owner) -> Option<Owner>
    ensures { result ≡ here_owner actor owner }
{
    match actor {
        None => Some(owner),
        Some(_) => None,
    }
}

/// Cells that are made.
impl Setting<'_> {
    fn tints(&self) -> &[Tint]
        ensures { result.now ≡ self.now.colors.now.cells }
    {
        self.colors.cells.as_slice()
    }

    fn nothing(&self) -> ColorNumbers
        ensures { result ≡ [] }
    {
        ListOf::new(self.alloc)
    }

    /// The colour of the `Here` of the job's top frame, if it has one.
    fn here(&self) -> Result<ColorNumbers, AllocError>
        ensures { IfOk result (λ ns. ns ≡ top_here self.now.colors.now self.now.job) }
    {
        let mut numbers = self.nothing();
        add_option(top_here(self.colors, self.job), &mut numbers)?;
        Ok(numbers)
    }

    /// A cell is made with a new colour, which merges with those of these values, and if it is `near`
    /// with `Here`.
    fn fresh_cell(&self, owner: Owner, near: bool, values: &[Value]) -> Result<Plan, AllocError>
        ensures { IfOk result (λ plan. plan ≡ fresh_cell owner (next_color self.now.colors.now)
            ((if near then top_here self.now.colors.now self.now.job else [])
            ++ colors_of self.now.colors.now.cells values.now)) }
    {
        let number = next_color(self.colors);
        let mut joined = ListOf::one(self.alloc, number)?;
        if near {
            add_option(top_here(self.colors, self.job), &mut joined)?;
        }
        add_colors_of(self.tints(), values, &mut joined)?;
        Ok(Plan {
            fresh: Some(owner),
            ..tinted(tint_for(owner, number), joined)
        })
    }

    fn new_object(&self, shape: u32, parts: &[Value]) -> Result<Plan, AllocError>
        ensures { IfOk result (λ plan. plan ≡ new_cell self.now.graph.now
            self.now.colors.now self.now.job 0 (Object shape parts.now)) }
    {
        if !is_shared_class(self.graph, shape) {
            return self.fresh_cell(Owner::Job(self.job), false, parts);
        }
        let mut joined = self.here()?;
        add_colors_of(self.tints(), parts, &mut joined)?;
        Ok(tinted(Tint::Bare, joined))
    }

    /// What the captures of a closure that isn't isolated have is worked out here, once. So whoever
    /// takes such a closure finds one list, however many closures stand one in another.
    fn new_closure(&self, function: u32, captures: &[Value]) -> Result<Plan, AllocError>
        ensures { IfOk result (λ plan. plan ≡ new_closure self.now.colors.now
            (is_isolated self.now.graph.now function) self.now.job
            (colors_of self.now.colors.now.cells captures.now)) }
    {
        if is_isolated(self.graph, function) {
            return self.fresh_cell(Owner::Job(self.job), true, captures);
        }
        let mut held = self.nothing();
        add_colors_of(self.tints(), captures, &mut held)?;
        let numbers = in_order(held);
        Ok(tinted(Tint::Holds { numbers }, self.nothing()))
    }

    /// The cell with this number is made.
    #[tactic(auto, using(crate::proofs::PlanLemmas::boxes))]
    fn new_cell(&self, number: u32, cell: &HeapCell) -> Result<Plan, AllocError>
        ensures { IfOk result (λ plan. plan ≡ new_cell self.now.graph.now self.now.colors.now
            self.now.job number cell.now) }
    {
        match cell {
            HeapCell::Object { shape, parts } => self.new_object(*shape, parts.as_slice()),
            HeapCell::Actor { parts, .. } => {
                self.fresh_cell(Owner::ActorOf(number), true, parts.as_slice())
            }
            HeapCell::BoxOf { value } => {
                self.fresh_cell(Owner::Job(self.job), false, slice::from_ref(value))
            }
            HeapCell::Closure { function, captures } => {
                self.new_closure(*function, captures.as_slice())
            }
            HeapCell::TaskOf { .. } => Ok(tinted(Tint::Bare, self.nothing())),
        }
    }
}

/// Stores, calls and tasks.
impl Setting<'_> {
    /// A value is stored in what has this colour, if it has one.
    fn stored(&self, color: Option<usize>, value: &Value) -> Result<Plan, AllocError>
        ensures { IfOk result (λ plan. plan
            ≡ joining (store_color self.now.colors.now self.now.job color
            ++ colors_in self.now.colors.now.cells value.now)) }
    {
        let mut joined = match color {
            None => self.here()?,
            Some(color) => ListOf::one(self.alloc, color)?,
        };
        add_colors(self.tints(), value, &mut joined)?;
        Ok(joining(joined))
    }

    /// The colour of the actor that is called.
    fn called_number(&self, point: Point<'_>, frame: &Frame) -> Option<usize>
        ensures { result ≡ called_number self.now.colors.now (read_point point.entry) frame.now }
    {
        match point {
            Point::Middle(Instr::Call { kind, .. }) => {
                if is_to_actor(*kind) {
                    number_on(self.colors, frame.executor)
                } else {
                    None
                }
            }
            _ => None,
        }
    }

    /// Adds the colours of the closure that is called.
    fn add_called(
        &self,
        point: Point<'_>,
        caller: &Frame,
        numbers: &mut ColorNumbers,
    ) -> Result<(), AllocError>
        ensures { OnOk result (numbers.new ≡ numbers.old
            ++ called_closure self.now.colors.now (read_point point.entry) caller.now) }
    {
        match point {
            Point::Middle(Instr::CallClosure { closure, .. }) => match caller.reference_at(
                closure,
            ) {
                None => Ok(()),
                Some(cell) => add_held(self.tints(), cell, numbers),
            },
            _ => Ok(()),
        }
    }

    /// A call puts a frame on top of the job's.
    #[tactic(auto, using(crate::proofs::PlanLemmas::begun_here))]
    fn entered(&self, top: &Frame, point: Point<'_>, frame: &Frame) -> Result<Plan, AllocError>
        ensures { IfOk result (λ plan. plan ≡ entered self.now.graph.now self.now.colors.now
            self.now.job top.now (read_point point.entry) frame.now) }
    {
        let actor = self.called_number(point, frame);
        let number = here_number(actor, next_color(self.colors));
        let mut joined = ListOf::one(self.alloc, number)?;
        self.add_called(point, top, &mut joined)?;
        let sending = sending_of(self.graph, frame.function);
        add_passed(self.tints(), sending, &frame.regs, &mut joined)?;
        Ok(Plan {
            fresh: here_owner(actor, Owner::Job(self.job)),
            frame: FrameChange::Pushed { number },
            ..joining(joined)
        })
    }

    /// A job is made with one frame.
    #[tactic(auto, using(crate::proofs::PlanLemmas::begun_here))]
    fn spawned(&self, made: u32, frame: &Frame) -> Result<Plan, AllocError>
        ensures { IfOk result (λ plan. plan ≡ spawned self.now.colors.now made frame.now) }
    {
        let actor = number_on(self.colors, frame.executor);
        let number = here_number(actor, next_color(self.colors));
        let mut joined = ListOf::one(self.alloc, number)?;
        add_passed(self.tints(), &[], &frame.regs, &mut joined)?;
        Ok(Plan {
            fresh: here_owner(actor, Owner::Job(made)),
            frame: FrameChange::Begun { number },
            heir: Some(made),
            ..tinted(Tint::Bare, joined)
        })
    }
}

/// Acts.
impl Setting<'_> {
    fn set(&self, point: Point<'_>, value: &Value) -> Result<Plan, AllocError>
        ensures { IfOk result (λ plan. plan ≡ (if is_make (read_point point.entry)
            then joining (colors_in self.now.colors.now.cells value.now) else no_plan)) }
    {
        if !is_make(point) {
            return Ok(joining(self.nothing()));
        }
        let mut joined = self.nothing();
        add_colors(self.tints(), value, &mut joined)?;
        Ok(joining(joined))
    }

    fn set_field(&self, top: &Frame, reg: u32, value: &Value) -> Result<Plan, AllocError>
        ensures { IfOk result (λ plan. plan
            ≡ joining (slot_colors self.now.colors.now.cells (value_at top.now.regs reg)
            ++ colors_in self.now.colors.now.cells value.now)) }
    {
        let mut joined = self.nothing();
        add_slot_colors(self.tints(), top.value_at(reg), &mut joined)?;
        add_colors(self.tints(), value, &mut joined)?;
        Ok(joining(joined))
    }

    /// What an instruction with this effect does, at a point at which the top frame stands.
    fn effect_plan(
        &self,
        top: &Frame,
        point: Point<'_>,
        effect: &Effect,
    ) -> Result<Plan, AllocError>
        ensures { IfOk result (λ plan. plan ≡ effect_plan self.now.graph.now self.now.colors.now
            self.now.job top.now (read_point point.entry) effect.now) }
    {
        match effect {
            Effect::Set { value, .. } => self.set(point, value),
            Effect::SetField { reg, value, .. } => self.set_field(top, *reg, value),
            Effect::New { cell, number, .. } => self.new_cell(*number, cell),
            Effect::Write { cell, value, .. } => {
                self.stored(color_number(self.colors, *cell), value)
            }
            Effect::WriteGlobal { value, .. } => self.stored(None, value),
            Effect::Enter { frame, .. } => self.entered(top, point, frame),
            Effect::Spawn { frame, job, .. } => self.spawned(*job, frame),
            Effect::Leave { .. } => {
                Ok(Plan {
                    frame: FrameChange::Popped,
                    ..joining(self.nothing())
                })
            }
            Effect::Print { .. }
            | Effect::Goto { .. }
            | Effect::Wait { .. }
            | Effect::Rest { .. }
            | Effect::Halt { .. }
            | Effect::Stuck => Ok(joining(self.nothing())),
        }
    }

    #[tactic(auto, using(crate::proofs::PlanLemmas::lent))]
    fn plan_at(&self, effect: &Effect, top: &Frame) -> Result<Plan, AllocError>
        ensures { IfOk result (λ plan. plan ≡ plan_at self.now.graph.now self.now.colors.now
            self.now.job effect.now top.now) }
    {
        match top.point_at(self.graph) {
            None => Ok(joining(self.nothing())),
            Some(point) => self.effect_plan(top, point, effect),
        }
    }

    /// What an act of the job does.
    pub fn plan_of(&self, state: &State, act: &Act) -> Result<Plan, AllocError>
        ensures { IfOk result (λ plan. plan ≡ plan_of self.now.graph.now state.now
            self.now.colors.now self.now.job act.now) }
    {
        match act {
            Act::Dispatch | Act::Wake { .. } => Ok(joining(self.nothing())),
            Act::Execute { effect } => match top_frame_of(state, self.job) {
                None => Ok(joining(self.nothing())),
                Some(top) => self.plan_at(effect, top),
            },
        }
    }
}

/// The top frame of a job.
fn top_frame_of(state: &State, job: u32) -> Option<&Frame>
    ensures { option_copied result ≡ option_and_then top_frame (slice_get state.now.jobs job) }
{
    match state.jobs.get(job as usize) {
        None => None,
        Some(job) => job.top_frame(),
    }
}

/// Whether an effect may change colours. Where it can't, no plan has to be made.
fn effect_colors(effect: &Effect) -> bool
    ensures { result ≡ effect_colors effect.now }
{
    match effect {
        Effect::Set { value, .. }
        | Effect::Write { value, .. }
        | Effect::WriteGlobal { value, .. } => { !is_plain(value) }
        Effect::SetField { .. }
        | Effect::New { .. }
        | Effect::Enter { .. }
        | Effect::Spawn { .. }
        | Effect::Leave { .. } => true,
        Effect::Print { .. }
        | Effect::Goto { .. }
        | Effect::Wait { .. }
        | Effect::Rest { .. }
        | Effect::Halt { .. }
        | Effect::Stuck => false,
    }
}

/// Whether an act may change colours.
#[tactic(auto, using(crate::proofs::PlanLemmas::no_changes))]
pub fn may_color(act: &Act) -> bool
    ensures { IsFalse result → (graph : Graph) (state : State) (colors : Colors) (job : ℕ)
        → changes_by job (plan_of graph state colors job act.now) ≡ [] }
{
    match act {
        Act::Dispatch | Act::Wake { .. } => false,
        Act::Execute { effect } => effect_colors(effect),
    }
}
