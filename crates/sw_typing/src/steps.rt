//! The notes of a closure and of a task.
ghost use Rattle.std.specs.Prelude.{◌≡◌, ◌++◌, ◌||◌, [], IfOk, OnOk};
ghost use Rattle.sw_typing_rules.specs.Expressions.{fun_types, noted, task_types};
ghost use Rattle.sw_typing_rules.specs.Verdicts.{rows_of};
ghost use Rattle.sw_typing_steps.specs.Steps.{known_of, with_rows};

use std::alloc::{AllocError, Global};
use sw_typing_steps::{Enclosed, Known, Table, fun_types, note, task_types};

/// Notes a closure, where a `@Sendable` function is `expected` or not.
pub fn note_fun(
    alloc: Global,
    expected: bool,
    closed: Enclosed,
    table: &mut Table,
) -> Result<Known, AllocError>
    ensures known { IfOk result (λ known. known ≡ known_of (noted closed.at
        (fun_types (closed.marked || expected) closed.params closed.result) [])) }
    ensures noted { OnOk result (table.new ≡ with_rows table.old (rows_of closed.at
        (fun_types (closed.marked || expected) closed.params closed.result))) }
{
    let at = closed.at;
    let verdict = fun_types(alloc, expected, closed)?;
    note(alloc, at, verdict, table)
}

/// Notes a task, whose word stands at `at`.
pub fn note_task(
    alloc: Global,
    at: u32,
    closed: Enclosed,
    table: &mut Table,
) -> Result<Known, AllocError>
    ensures known { IfOk result (λ known. known
        ≡ known_of (noted at (task_types closed.result) [])) }
    ensures noted { OnOk result (table.new
        ≡ with_rows table.old (rows_of at (task_types closed.result))) }
{
    let verdict = task_types(alloc, closed.result)?;
    note(alloc, at, verdict, table)
}
