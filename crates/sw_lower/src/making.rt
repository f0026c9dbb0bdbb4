//! The function of a body.
ghost use Rattle.std.specs.Prelude.{◌≡◌, ◌≢◌, Err, IfOk, OnOk};
ghost use Rattle.std.specs.Option.{option_copied};
ghost use Rattle.sw_lower_draft.specs.Drafts.{GivesAsRun, making_of, number_by};
ghost use Rattle.sw_lower.specs.Lowered.{EndsWell, finished_by};
ghost use Rattle.sw_lower_bodies.specs.Trees.{body_by, result_by, sends_by, takes_by};
ghost use Rattle.sw_lower_code.specs.Whole.{IsWhole, code_of, lower_body};
ghost use Rattle.sw_lower_code.specs.declared.fault.BodyFault.TheVariants as faults;
ghost use Rattle.sw_lower_known.specs.Knowledge.{tables_by};
ghost use Rattle.sw_lower_rules.specs.Tables.{Tables, func_result, or_void};
ghost use Rattle.sw_isolation_rules.specs.Noting.{task_result};

use crate::codes::code;
use crate::takes::{enter_all, sending_of, takes_of};
use std::alloc::{AllocError, Global};
use sw_graph::{BoolList, Function};
use sw_lower_bodies::{BodyForm, BodyTree};
use sw_lower_code::{BodyFault, Taken, functions_are_their_plans};
use sw_lower_draft::{Draft, NumberTable};
use sw_lower_known::Known;
use sw_lower_plans::CodeFault;
use sw_types::Ty;
use sw_typing_words::copy_of;

/// The result of a closure of this type.
fn func_result(alloc: Global, ty: Option<&Ty>) -> Result<Ty, AllocError>
    ensures { IfOk result (λ made. made ≡ func_result (option_copied ty.entry)) }
{
    match ty {
        Some(Ty::Func { result, .. }) => copy_of(alloc, result.get()),
        Some(Ty::Int | Ty::Bool | Ty::Unit | Ty::Named(_) | Ty::Task(_)) | None => Ok(Ty::Unit),
    }
}

/// The result of a task of this type.
fn spawn_result(alloc: Global, ty: Option<&Ty>) -> Result<Ty, AllocError>
    ensures { IfOk result (λ made. made ≡ or_void (task_result (option_copied ty.entry))) }
{
    match ty {
        Some(Ty::Task(result)) => copy_of(alloc, result.get()),
        Some(Ty::Int | Ty::Bool | Ty::Unit | Ty::Named(_) | Ty::Func { .. }) | None => Ok(Ty::Unit),
    }
}

/// The type of what a body gives.
#[tactic(auto, unfolding(sw_lower_bodies::specs::Trees::closure_code,))]
fn result_of(alloc: Global, known: &Known<'_>, form: BodyForm<'_>) -> Result<Ty, AllocError>
    ensures { IfOk result (λ gives. gives ≡ result_by (tables_by known.now) form.entry) }
{
    match form {
        BodyForm::Declared { func, .. } | BodyForm::Init { func, .. } => {
            copy_of(alloc, &func.result)
        }
        BodyForm::Closure { closure, .. } => func_result(alloc, known.type_at(closure.at)),
        BodyForm::Task { at, .. } => spawn_result(alloc, known.type_at(at)),
        BodyForm::PartGetter { part, .. } => copy_of(alloc, &part.ty),
        BodyForm::GlobalGetter { global, .. } => copy_of(alloc, &global.ty),
        BodyForm::FirstValue { .. } => Ok(Ty::Unit),
    }
}

/// Whether the result of a body is `sending`.
fn sends(form: BodyForm<'_>) -> bool
    ensures { (tables : Tables) → result ≡ sends_by tables form.entry }
{
    match form {
        BodyForm::Declared { func, .. } | BodyForm::Init { func, .. } => func.sends,
        BodyForm::Closure { .. }
        | BodyForm::Task { .. }
        | BodyForm::PartGetter { .. }
        | BodyForm::GlobalGetter { .. }
        | BodyForm::FirstValue { .. } => false,
    }
}

/// Makes what a body takes and its code.
#[tactic(auto, unfolding(sw_lower_code::specs::Code::andthen, sw_lower_code::specs::Whole::code_of,))]
fn make(
    alloc: Global,
    known: &Known<'_>,
    tree: BodyTree<'_>,
    takes: &[Taken],
    gives: &Ty,
    draft: &mut Draft<'_>,
) -> Result<(), CodeFault>
    requires takes { takes.now ≡ takes_by (tables_by known.now) tree.form }
    requires gives { gives.now ≡ result_by (tables_by known.now) tree.form }
    ensures { GivesAsRun ((code_of (body_by (tables_by known.now) tree.entry)).run
        (making_of draft.old))
        result draft.new }
{
    enter_all(alloc, takes, draft)?;
    code(alloc, known, tree.key, tree.form, gives, draft)
}

/// The function that a draft has become, with what it takes and gives; none that is too long.
fn finish(
    draft: Draft<'_>,
    key: u32,
    takes: u32,
    sending: BoolList,
    sends: bool,
    gives: Ty,
) -> Result<Function, BodyFault>
    ensures { result ≡ finished_by key takes sending sends gives (making_of draft.entry) }
{
    if draft.is_too_long() {
        Err(BodyFault::TooManyPoints { function: key })
    } else {
        Ok(draft.finish(takes, sending, sends, gives))
    }
}

/// The function of a body.
#[tactic(auto, unfolding(sw_lower_code::specs::Whole::lower_body,))]
fn made(
    alloc: Global,
    known: &Known<'_>,
    numbers: &NumberTable,
    tree: BodyTree<'_>,
) -> Result<Function, BodyFault>
    ensures { result ≢ Err faults.Memory → result
        ≡ lower_body (number_by numbers.now) (body_by (tables_by known.now) tree.entry) }
{
    let takes = takes_of(alloc, known, tree.form)?;
    let list = takes.as_slice();
    let sending = sending_of(alloc, list)?;
    let gives = result_of(alloc, known, tree.form)?;
    let mut draft = Draft::new(alloc, numbers, tree.key, tree.iso, tree.is_async)?;
    match make(alloc, known, tree, list, &gives, &mut draft) {
        Ok(()) => {
            let count = list.len() as u32;
            finish(draft, tree.key, count, sending, sends(tree.form), gives)
        }
        Err(CodeFault::Registers) => Err(BodyFault::TooManyRegisters { function: tree.key }),
        Err(CodeFault::Blocks) => Err(BodyFault::TooManyBlocks),
        Err(CodeFault::Missing) => Err(BodyFault::Missing),
        Err(CodeFault::Memory) => Err(BodyFault::Memory),
    }
}

/// The function of a body, where it is no larger than a function of a graph.
pub fn function_of(
    alloc: Global,
    known: &Known<'_>,
    numbers: &NumberTable,
    tree: BodyTree<'_>,
) -> Result<Function, BodyFault>
    ensures whole { IsWhole (number_by numbers.now) (body_by (tables_by known.now) tree.entry)
        result }
    ensures made { OnOk result (EndsWell known.now numbers.now tree.entry) }
{
    functions_are_their_plans();
    made(alloc, known, numbers, tree)
}
