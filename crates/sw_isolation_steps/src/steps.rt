//! What is noted of uses, by the context where they stand.
ghost use Rattle.std.specs.Prelude.{◌≡◌, ◌++◌, ◌∷◌, [], not, if◌then◌else◌, OnOk};
ghost use Rattle.std.specs.Option.{option_copied};
ghost use Rattle.sw_isolation_table.specs.Known.{answers_of};
ghost use Rattle.sw_isolation_rules.specs.Kinds.{accessor};
ghost use Rattle.sw_isolation_rules.specs.Noting.{await_notes, body_note, call_notes, race_if};
ghost use Rattle.sw_isolation_rules.specs.Noting.{read_notes, refused_if, result_races};
ghost use Rattle.sw_isolation_rules.specs.Noting.{store_notes, task_races, task_result, use_notes};
ghost use Rattle.sw_isolation_rules.specs.Noting.{write_notes};
ghost use Rattle.sw_typing_rules.specs.Worlds.{world_of};

use crate::codes::{
    CALL_RESULT, NO_AWAIT, NOT_ASYNC, OTHER_ACTOR, OTHER_LET, TASK_RESULT, WRITTEN,
};
use crate::known::may_cross;
use std::alloc::AllocError;
use sw_decl_words::Placed;
use sw_decls::Decls;
use sw_isolation_rules::{
    BodyIso, Callee, Context, Kinded, Note, Storage, Used, accessor, is_outside, is_strong,
    kind_of, needs_await,
};
use sw_list::ListOf;
use sw_types::{Iso, Ty};
use sw_typing_table::Typed;

/// Notes a body: its key, its isolation, and whether it is asynchronous.
pub fn note_body(
    key: u32,
    iso: Iso,
    is_async: bool,
    notes: &mut ListOf<Note>,
) -> Result<(), AllocError>
    ensures { OnOk result (notes.new ≡ notes.old ++ body_note key iso is_async ∷ []) }
{
    notes.push(Note::Body(BodyIso { key, iso, is_async }))
}

/// Notes a breach of isolation, where there is one.
fn refuse_if(fails: bool, at: u32, code: u16, notes: &mut ListOf<Note>) -> Result<(), AllocError>
    ensures { OnOk result (notes.new ≡ notes.old ++ refused_if fails at code) }
{
    if fails {
        notes.push(Note::Refused(Placed { at, code }))?;
    }
    Ok(())
}

/// Notes a value that may not cross, where there is one.
fn race_if(fails: bool, at: u32, code: u16, notes: &mut ListOf<Note>) -> Result<(), AllocError>
    ensures { OnOk result (notes.new ≡ notes.old ++ race_if fails at code) }
{
    if fails {
        notes.push(Note::Race(Placed { at, code }))?;
    }
    Ok(())
}

/// Notes the breach, if there is one, of something at `at` that needs an `await` (E501 to E503).
pub fn await_notes(
    context: Context,
    at: u32,
    is_async: bool,
    notes: &mut ListOf<Note>,
) -> Result<(), AllocError>
    ensures { OnOk result (notes.new ≡ notes.old ++ await_notes context at is_async) }
{
    if context.is_async {
        refuse_if(!context.awaited, at, NO_AWAIT, notes)
    } else if is_async {
        refuse_if(true, at, NOT_ASYNC, notes)
    } else {
        refuse_if(true, at, OTHER_ACTOR, notes)
    }
}

/// Notes the breach of something at `at`, where it needs an `await`.
fn await_if(
    needs: bool,
    context: Context,
    at: u32,
    is_async: bool,
    notes: &mut ListOf<Note>,
) -> Result<(), AllocError>
    ensures { OnOk result (notes.new
        ≡ notes.old ++ (if needs then await_notes context at is_async else [])) }
{
    if needs {
        await_notes(context, at, is_async, notes)
    } else {
        Ok(())
    }
}

/// Notes a call: its kind, the breach of a missing `await`, and a result that crosses and may not
/// (E604). `may_cross` is whether the result may.
pub fn call_notes(
    context: Context,
    at: u32,
    callee: Callee,
    may_cross: bool,
    notes: &mut ListOf<Note>,
) -> Result<(), AllocError>
    ensures { OnOk result (notes.new ≡ notes.old ++ call_notes context at callee may_cross) }
{
    let kind = kind_of(callee, context.iso);
    let needs = needs_await(kind, callee.is_async);
    notes.push(Note::Kind(Kinded { at, kind }))?;
    await_if(needs, context, at, callee.is_async, notes)?;
    race_if(is_strong(kind) && !may_cross, at, CALL_RESULT, notes)
}

/// Notes the reading of storage that is outside.
fn outside_notes(
    context: Context,
    at: u32,
    storage: Storage,
    notes: &mut ListOf<Note>,
) -> Result<(), AllocError>
    ensures { OnOk result (notes.new ≡ notes.old ++
        (if storage.mutable then call_notes context at (accessor storage) storage.may_cross
        else race_if (not storage.may_cross) at 606)) }
{
    if storage.mutable {
        call_notes(context, at, accessor(storage), storage.may_cross, notes)
    } else {
        race_if(!storage.may_cross, at, OTHER_LET, notes)
    }
}

/// Notes the reading of storage: a `var` of another actor is read by a call, and of a `let` the
/// value must be Sendable (E606).
pub fn read_notes(
    context: Context,
    at: u32,
    storage: Storage,
    notes: &mut ListOf<Note>,
) -> Result<(), AllocError>
    ensures { OnOk result (notes.new ≡ notes.old ++ read_notes context at storage) }
{
    if is_outside(context, storage) {
        outside_notes(context, at, storage, notes)
    } else {
        Ok(())
    }
}

/// Notes the writing of storage, which is a breach where that is another actor's (E504).
pub fn write_notes(
    context: Context,
    at: u32,
    storage: Storage,
    notes: &mut ListOf<Note>,
) -> Result<(), AllocError>
    ensures { OnOk result (notes.new ≡ notes.old ++ write_notes context at storage) }
{
    refuse_if(is_outside(context, storage), at, WRITTEN, notes)
}

/// Notes a use, by what is used.
pub fn use_notes(
    context: Context,
    at: u32,
    one: Used,
    notes: &mut ListOf<Note>,
) -> Result<(), AllocError>
    ensures { OnOk result (notes.new ≡ notes.old ++ use_notes context at one) }
{
    match one {
        Used::Called { callee, may_cross } => call_notes(context, at, callee, may_cross, notes),
        Used::Stored(storage) => read_notes(context, at, storage, notes),
        Used::Waited => await_notes(context, at, true, notes),
        Used::Field | Used::Nothing => Ok(()),
    }
}

/// Notes the assignment to a place that is one word, by what the word is. A part of a struct's
/// value is written without a note.
pub fn store_notes(
    context: Context,
    at: u32,
    one: Used,
    notes: &mut ListOf<Note>,
) -> Result<(), AllocError>
    ensures { OnOk result (notes.new ≡ notes.old ++ store_notes context at one []) }
{
    match one {
        Used::Stored(storage) => write_notes(context, at, storage, notes),
        Used::Called { .. } | Used::Field | Used::Waited | Used::Nothing => Ok(()),
    }
}

/// The type of a task's result.
fn task_result(ty: Option<&Ty>) -> Option<&Ty>
    ensures { option_copied result ≡ task_result (option_copied ty.entry) }
{
    match ty {
        Some(Ty::Task(inner)) => Some(inner.get()),
        Some(Ty::Int | Ty::Bool | Ty::Unit | Ty::Named(_) | Ty::Func { .. }) | None => None,
    }
}

/// Notes that the result of the task at `at` may not cross, where it has this type.
fn result_races(
    world: &Decls,
    at: u32,
    ty: Option<&Ty>,
    notes: &mut ListOf<Note>,
) -> Result<(), AllocError>
    ensures { OnOk result (notes.new ≡ notes.old
        ++ result_races (world_of world.now) at (option_copied ty.entry)) }
{
    match ty {
        None => Ok(()),
        Some(ty) => race_if(!may_cross(world, ty), at, TASK_RESULT, notes),
    }
}

/// Notes that the result of the task at `at` may not cross (E605), where it may not.
#[tactic(auto, unfolding(sw_isolation_rules::specs::Noting::task_races))]
pub fn task_races(
    world: &Decls,
    typed: &Typed,
    at: u32,
    notes: &mut ListOf<Note>,
) -> Result<(), AllocError>
    ensures { OnOk result (notes.new ≡ notes.old
        ++ task_races (world_of world.now) (answers_of typed.now) at) }
{
    result_races(world, at, task_result(typed.ty_at(at)), notes)
}
