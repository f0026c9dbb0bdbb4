//! What the functions of bodies take.
ghost use Rattle.std.specs.Prelude.{◌≡◌, ◌++◌, ◌∷◌, [], false, map, IfOk, OnOk};
ghost use Rattle.std.specs.Option.{option_copied};
ghost use Rattle.sw_lower_draft.specs.Drafts.{GivesAsRun, making_of};
ghost use Rattle.sw_graph.specs.declared.function.RegKind.TheVariants.{Plain};
ghost use Rattle.sw_lower_bodies.specs.Trees.{closure_code, takes_by};
ghost use Rattle.sw_lower_code.specs.Code.{all};
ghost use Rattle.sw_lower_code.specs.Whole.{enter};
ghost use Rattle.sw_lower_code.specs.declared.taken.Taken.{Taken};
ghost use Rattle.sw_lower_known.specs.Knowledge.{tables_by};
ghost use Rattle.sw_lower_rules.specs.Bodies.{param_taken, self_at, self_by, self_taken};
ghost use Rattle.sw_lower_rules.specs.Expressions.{capture_taken, captured_type};
ghost use Rattle.sw_lower_rules.specs.Expressions.{closure_param_taken, closure_takes};
ghost use Rattle.sw_lower_rules.specs.Tables.{or_void};

use std::alloc::{AllocError, Global};
use sw_graph::{BoolList, RegKind};
use sw_isolation_rules::Capture;
use sw_list::ListOf;
use sw_lower_bodies::BodyForm;
use sw_lower_code::Taken;
use sw_lower_draft::Draft;
use sw_lower_known::Known;
use sw_lower_plans::{Bound, CodeFault};
use sw_tree::{Closure, ClosureParam, ParamTree};
use sw_types::{Shape, Ty};
use sw_typing_words::copy_of;

/// What a function takes, in order.
pub type TakenList = ListOf<Taken>;

/// A copy of a type, and `Void` where there is none.
fn or_void(alloc: Global, ty: Option<&Ty>) -> Result<Ty, AllocError>
    ensures { IfOk result (λ made. made ≡ or_void (option_copied ty.entry)) }
{
    match ty {
        None => Ok(Ty::Unit),
        Some(ty) => copy_of(alloc, ty),
    }
}

/// Adds a variable that holds a value of a type.
fn add_value(key: u32, ty: Ty, sending: bool, takes: &mut TakenList) -> Result<(), AllocError>
    ensures { OnOk result (takes.new ≡ takes.old ++ record {
      key = key;
      kind = Plain ty;
      boxed = false;
      sending = sending;
    } ∷ []) }
{
    takes.push(Taken {
        key,
        kind: RegKind::Plain(ty),
        boxed: false,
        sending,
    })
}

/// Adds `self` in a member of a type.
fn add_self(number: u32, shape: &Shape, takes: &mut TakenList) -> Result<(), AllocError>
    ensures { OnOk result (takes.new ≡ takes.old ++ self_by number shape.now ∷ []) }
{
    add_value(shape.at, Ty::Named(number), false, takes)
}

/// Adds `self` in a member of the type with a number.
fn add_member_self(known: &Known<'_>, number: u32, takes: &mut TakenList) -> Result<(), AllocError>
    ensures { OnOk result (takes.new ≡ takes.old ++ self_at (tables_by known.now) number) }
{
    match known.shape(number) {
        None => Ok(()),
        Some(shape) => add_self(number, shape, takes),
    }
}

/// Adds `self`, in a member.
fn add_owner(known: &Known<'_>, owner: Option<u32>, takes: &mut TakenList) -> Result<(), AllocError>
    ensures { OnOk result (takes.new ≡ takes.old ++ self_taken (tables_by known.now) owner) }
{
    match owner {
        None => Ok(()),
        Some(number) => add_member_self(known, number, takes),
    }
}

/// Adds the parameters of a function.
fn add_params(
    alloc: Global,
    known: &Known<'_>,
    params: &[ParamTree],
    takes: &mut TakenList,
) -> Result<(), AllocError>
    ensures { OnOk result (takes.new
        ≡ takes.old ++ map (param_taken (tables_by known.now)) params.now) }
{
    for param in params {
        let ty = or_void(alloc, known.type_at(param.name.at))?;
        add_value(param.name.at, ty, param.sending, takes)?;
    }
    Ok(())
}

/// The type of a captured variable in a member of the type `owner`.
fn captured_type(
    alloc: Global,
    known: &Known<'_>,
    owner: Option<u32>,
    key: u32,
) -> Result<Ty, AllocError>
    ensures { IfOk result (λ ty. ty ≡ captured_type (tables_by known.now) owner key) }
{
    if known.is_self(owner, key) {
        Ok(owner.map_or(Ty::Unit, Ty::Named))
    } else {
        or_void(alloc, known.type_at(key))
    }
}

/// Adds a captured variable, with its box or by its value.
fn add_capture(
    alloc: Global,
    known: &Known<'_>,
    owner: Option<u32>,
    capture: Capture,
    takes: &mut TakenList,
) -> Result<(), AllocError>
    ensures { OnOk result (takes.new
        ≡ takes.old ++ capture_taken (tables_by known.now) owner capture ∷ []) }
{
    let ty = captured_type(alloc, known, owner, capture.variable)?;
    let kind = if capture.by_ref {
        RegKind::BoxOf(ty)
    } else {
        RegKind::Plain(ty)
    };
    takes.push(Taken {
        key: capture.variable,
        kind,
        boxed: capture.by_ref,
        sending: false,
    })
}

/// Adds the captures of a closure or a task.
fn add_captures(
    alloc: Global,
    known: &Known<'_>,
    owner: Option<u32>,
    captures: &[Capture],
    takes: &mut TakenList,
) -> Result<(), AllocError>
    ensures { OnOk result (takes.new
        ≡ takes.old ++ map (capture_taken (tables_by known.now) owner) captures.now) }
{
    for capture in captures {
        add_capture(alloc, known, owner, *capture, takes)?;
    }
    Ok(())
}

/// Adds the parameters of a closure.
fn add_closure_params(
    alloc: Global,
    known: &Known<'_>,
    params: &[ClosureParam],
    takes: &mut TakenList,
) -> Result<(), AllocError>
    ensures { OnOk result (takes.new
        ≡ takes.old ++ map (closure_param_taken (tables_by known.now)) params.now) }
{
    for param in params {
        let ty = or_void(alloc, known.type_at(param.name.at))?;
        add_value(param.name.at, ty, false, takes)?;
    }
    Ok(())
}

/// Adds what a closure takes.
#[tactic(auto, unfolding(sw_lower_bodies::specs::Trees::closure_code,))]
fn add_closure(
    alloc: Global,
    known: &Known<'_>,
    owner: Option<u32>,
    closure: &Closure,
    takes: &mut TakenList,
) -> Result<(), AllocError>
    ensures { OnOk result (takes.new ≡ takes.old ++ closure_takes (tables_by known.now) owner
        (closure_code (tables_by known.now) owner closure.now).at
        (closure_code (tables_by known.now) owner closure.now).params) }
{
    add_captures(alloc, known, owner, known.captures_of(closure.at), takes)?;
    add_closure_params(alloc, known, closure.params.as_slice(), takes)
}

/// Adds what a task takes: its captures alone.
#[tactic(auto, unfolding(sw_lower_bodies::specs::Trees::closure_code,))]
fn add_task(
    alloc: Global,
    known: &Known<'_>,
    owner: Option<u32>,
    closure: &Closure,
    takes: &mut TakenList,
) -> Result<(), AllocError>
    ensures { OnOk result (takes.new ≡ takes.old ++ closure_takes (tables_by known.now) owner
        (closure_code (tables_by known.now) owner closure.now).at []) }
{
    add_captures(alloc, known, owner, known.captures_of(closure.at), takes)
}

/// What the function of a body takes.
pub fn takes_of(
    alloc: Global,
    known: &Known<'_>,
    form: BodyForm<'_>,
) -> Result<TakenList, AllocError>
    ensures { IfOk result (λ takes. takes ≡ takes_by (tables_by known.now) form.entry) }
{
    let mut takes = ListOf::new(alloc);
    match form {
        BodyForm::Declared { params, func, .. } => {
            add_owner(known, func.owner, &mut takes)?;
            add_params(alloc, known, params, &mut takes)?;
        }
        BodyForm::Init { params, .. } => add_params(alloc, known, params, &mut takes)?,
        BodyForm::Closure { owner, closure } => {
            add_closure(alloc, known, owner, closure, &mut takes)?;
        }
        BodyForm::Task { owner, closure, .. } => add_task(
            alloc, known, owner, closure, &mut takes,
        )?,
        BodyForm::PartGetter { number, shape, .. } => add_self(number, shape, &mut takes)?,
        BodyForm::GlobalGetter { .. } | BodyForm::FirstValue { .. } => {}
    }
    Ok(takes)
}

/// Which of what a function takes is `sending`.
pub fn sending_of(alloc: Global, takes: &[Taken]) -> Result<BoolList, AllocError>
    ensures { IfOk result (λ sending. sending
        ≡ map (λ (taken : Taken). taken.sending) takes.now) }
{
    let mut sending = ListOf::new(alloc);
    for taken in takes {
        sending.push(taken.sending)?;
    }
    Ok(sending)
}

/// A copy of the kind of a register.
fn kind_copy(alloc: Global, kind: &RegKind) -> Result<RegKind, AllocError>
    ensures { IfOk result (λ made. made ≡ kind.now) }
{
    match kind {
        RegKind::Plain(ty) => Ok(RegKind::Plain(copy_of(alloc, ty)?)),
        RegKind::BoxOf(ty) => Ok(RegKind::BoxOf(copy_of(alloc, ty)?)),
    }
}

/// Makes the register of a variable that a function takes.
#[tactic(auto, unfolding(sw_lower_code::specs::Code::andthen, sw_lower_code::specs::Code::reg, sw_lower_code::specs::Code::bind,))]
fn enter(alloc: Global, taken: &Taken, draft: &mut Draft<'_>) -> Result<(), CodeFault>
    ensures { GivesAsRun ((enter taken.now).run (making_of draft.old)) result draft.new }
{
    let kind = kind_copy(alloc, &taken.kind)?;
    let reg = draft.reg(kind)?;
    draft.bind(Bound {
        key: taken.key,
        reg,
        boxed: taken.boxed,
    })
}

/// Makes the registers of what a function takes, in order.
#[tactic(auto, unfolding(sw_lower_code::specs::Code::andthen, sw_lower_code::specs::Code::done, sw_lower_code::specs::Code::all,))]
pub fn enter_all(alloc: Global, takes: &[Taken], draft: &mut Draft<'_>) -> Result<(), CodeFault>
    ensures { GivesAsRun ((all enter takes.now).run (making_of draft.old)) result draft.new }
{
    for taken in takes {
        enter(alloc, taken, draft)?;
    }
    Ok(())
}
