//! Statements one after another, with `async let`s among them.

ghost use Rattle.std.specs.Prelude.{◌≡◌, ◌++◌, ◌∷◌, [], OnOk, IfOk, codes};
ghost use Rattle.sw_grammar_forms.specs.Outcome.{Gives};
ghost use Rattle.sw_grammar.specs.Around.{after_tasks};
ghost use Rattle.sw_grammar.specs.Stmts as stmts;
ghost use Rattle.sw_grammar.specs.Reading.{read};
ghost use Rattle.sw_parse_parts.specs.Around.{known};
ghost use Rattle.sw_parse_parts.specs.Nested.{made};
ghost use Rattle.sw_parse_expr.specs.Blocks.{beginning, block_items, items_after, items_behind};
ghost use Rattle.sw_parse_expr.specs.Blocks.{items_of, part_of};

use super::inner::Inner;
use std::alloc::{AllocError, Global};
use std::marker::Model;
use sw_grammar_forms::{Cursor, Stop};
use sw_list::ListOf;
use sw_parse_parts::{Around, Tasks, equals, new_word, sees_stmt};
use sw_sugar::{of_task, task_bind};
use sw_tree::{Stmt, StmtList};

/// The variable of an `async let`, and the text of its word.
#[derive(Drop)]
struct Task<'a> {
    stmt: Stmt,
    text: &'a str,
}

impl<'a> Model for Task<'a> {
    ghost use Rattle.std.specs.Coded.{codes};
    ghost use Rattle.sw_tree.specs.contracts.stmt.Stmt as statement;
    ghost use Rattle.sw_grammar.specs.Stmts.{Task};

    ghost Value = { Task };

    ghost coded = { Prim.hlevel (codes, statement.the_row.coded) };

    ghost view = { λ t. record { stmt = t.stmt; text = t.text.now } };
}

impl<'a> Task<'a> {
    fn stmt(self) -> Stmt
        ensures { result ≡ self.entry.stmt }
    {
        self.stmt
    }

    fn text(&self) -> &'a str
        ensures { result.now ≡ self.now.text }
    {
        self.text
    }
}

/// Statements, up to a token that begins none, and whether a `;` ends the last. Each is the first on
/// its line or after a `;`, which may have ended what is before the first. They stand inside a nest,
/// so the `Inner` reads at this very depth.
fn items<I: Inner>(
    alloc: Global,
    inner: &I,
    around: &Around<'_>,
    tokens: &mut Cursor<'_>,
    depth: u32,
    ended: bool,
) -> Result<(StmtList, bool), Stop>
    requires { I.reads inner.now depth }
    ensures { Gives (items_after (known around.now) depth ended tokens.old) result tokens.new }
{
    let mut stmts = Vec::new(alloc);
    let mut ended = ended;
    while sees_stmt(tokens) {
        tokens.start(!ended)?;
        let mut more = inner.stmt(alloc, around, tokens, depth)?.into_vec();
        stmts.append(&mut more)?;
        ended = tokens.skip(";");
    }
    Ok((ListOf::from_vec(stmts), ended))
}

/// `async let`, its word and its value.
#[tactic(auto, unfolding(sw_grammar::specs::Stmts::async_let))]
fn async_let<'a, I: Inner>(
    alloc: Global,
    inner: &I,
    around: &Around<'_>,
    tokens: &mut Cursor<'a>,
    depth: u32,
) -> Result<Task<'a>, Stop>
    requires { I.reads inner.now depth }
    ensures { Gives (read (known around.now) depth (stmts.async_let (known around.now)) tokens.old)
        result tokens.new }
{
    let at = tokens.expect_whole("async")?;
    tokens.expect("let")?;
    let word = new_word(around, tokens)?;
    let eq_at = equals(tokens)?;
    let given = inner.expr(alloc, around, tokens, depth)?;
    let value = of_task(alloc, around.task_ids(), at + 2, given)?;
    Ok(Task {
        stmt: task_bind(alloc, at, word.name(), eq_at, value)?,
        text: word.text(),
    })
}

/// An `async let` after those of these words.
fn next_let<'a, 'b, I: Inner>(
    alloc: Global,
    inner: &I,
    around: &'a Around<'_>,
    tokens: &mut Cursor<'b>,
    depth: u32,
    tasks: &'a Tasks<'_>,
) -> Result<Task<'b>, Stop>
    requires reads { I.reads inner.now depth }
    requires texts { tasks.now.texts ≡ around.now.texts }
    ensures { Gives (read (known around.now) depth
        (stmts.async_let (after_tasks (known around.now) tasks.now.words)) tokens.old) result
        tokens.new }
{
    let here = around.after(tasks);
    async_let(alloc, inner, &here, tokens, depth)
}

/// The statements after the `async let`s of these words, and whether a `;` ends the last. One may end
/// the last `async let`.
fn items_behind<'a, I: Inner>(
    alloc: Global,
    inner: &I,
    around: &'a Around<'_>,
    tokens: &mut Cursor<'_>,
    depth: u32,
    tasks: &'a Tasks<'_>,
) -> Result<(StmtList, bool), Stop>
    requires reads { I.reads inner.now depth }
    requires texts { tasks.now.texts ≡ around.now.texts }
    ensures { Gives (items_behind (after_tasks (known around.now) tasks.now.words) depth tokens.old)
        result tokens.new }
{
    let ended = tokens.skip(";");
    let here = around.after(tasks);
    items(alloc, inner, &here, tokens, depth, ended)
}

/// These statements, with one before them.
fn with_first(alloc: Global, first: Stmt, others: StmtList) -> Result<StmtList, AllocError>
    ensures { IfOk result (λ stmts. stmts ≡ first ∷ others) }
{
    let mut stmts = ListOf::one(alloc, first)?.into_vec();
    stmts.append(&mut others.into_vec())?;
    Ok(ListOf::from_vec(stmts))
}

/// An `async let` after those of these words. Its word is one of them from then on.
fn begun_part<'a, 'b: 'a, I: Inner>(
    alloc: Global,
    inner: &I,
    around: &Around<'_>,
    tokens: &mut Cursor<'b>,
    depth: u32,
    tasks: &mut Tasks<'a>,
) -> Result<Task<'b>, Stop>
    requires reads { I.reads inner.now depth }
    requires texts { tasks.old.texts ≡ around.now.texts }
    ensures part { Gives (read (known around.now) depth
        (stmts.async_let (after_tasks (known around.now) tasks.old.words)) tokens.old) result
        tokens.new }
    ensures words { IfOk result (λ task. tasks.new.words ≡ tasks.old.words ++ task.text ∷ []) }
    ensures texts { OnOk result (tasks.new.texts ≡ around.now.texts) }
{
    let task = next_let(alloc, inner, &*around, tokens, depth, tasks)?;
    tasks.push(task.text())?;
    Ok(task)
}

/// An `async let`, and the statements after it. Its word stands for a task from then on.
fn async_part<'a, 'b: 'a, I: Inner>(
    alloc: Global,
    inner: &I,
    around: &Around<'_>,
    tokens: &mut Cursor<'b>,
    depth: u32,
    tasks: &mut Tasks<'a>,
) -> Result<(StmtList, bool), Stop>
    requires reads { I.reads inner.now depth }
    requires texts { tasks.old.texts ≡ around.now.texts }
    ensures part { Gives (read (known around.now) depth
        (stmts.async_part (after_tasks (known around.now) tasks.old.words)) tokens.old)
        (part_of tasks.new.words result) tokens.new }
    ensures texts { OnOk result (tasks.new.texts ≡ around.now.texts) }
{
    let task = begun_part(alloc, inner, around, tokens, depth, tasks)?;
    let (more, ended) = items_behind(alloc, inner, &*around, tokens, depth, tasks)?;
    let stmts = with_first(alloc, task.stmt(), more)?;
    Ok((stmts, ended))
}

/// The `async let`s of a block with the statements after each, behind these statements.
fn async_parts<'a, 'b: 'a, I: Inner>(
    alloc: Global,
    inner: &I,
    around: &Around<'a>,
    tokens: &mut Cursor<'b>,
    depth: u32,
    first: (StmtList, bool),
) -> Result<(StmtList, bool), Stop>
    requires { I.reads inner.now depth }
    ensures { Gives (made items_of (read (known around.now) depth (stmts.async_parts
        (known around.now) (beginning (known around.now) first))) tokens.old) result tokens.new }
{
    if !tokens.sees("async") {
        return Ok(first);
    }
    let mut tasks = around.tasks(alloc)?;
    let (first, mut ended) = first;
    let mut stmts = first.into_vec();
    while tokens.sees("async") {
        tokens.start(!ended)?;
        let (part, part_ended) = async_part(alloc, inner, around, tokens, depth, &mut tasks)?;
        stmts.append(&mut part.into_vec())?;
        ended = part_ended;
    }
    Ok((ListOf::from_vec(stmts), ended))
}

/// Statements and `async let`s, up to a token that begins neither, and whether a `;` ends the last.
pub fn block_items<I: Inner>(
    alloc: Global,
    inner: &I,
    around: &Around<'_>,
    tokens: &mut Cursor<'_>,
    depth: u32,
) -> Result<(StmtList, bool), Stop>
    requires { I.reads inner.now depth }
    ensures { Gives (made items_of (block_items (known around.now) depth) tokens.old) result
        tokens.new }
{
    let first = items(alloc, inner, around, tokens, depth, true)?;
    async_parts(alloc, inner, around, tokens, depth, first)
}

/// The same up to their `}`.
pub fn stmts_inside<I: Inner>(
    alloc: Global,
    inner: &I,
    around: &Around<'_>,
    tokens: &mut Cursor<'_>,
    depth: u32,
) -> Result<StmtList, Stop>
    requires { I.reads inner.now depth }
    ensures { Gives (read (known around.now) depth (stmts.statements (known around.now)) tokens.old)
        result tokens.new }
{
    let (stmts, _) = block_items(alloc, inner, around, tokens, depth)?;
    tokens.expect("}")?;
    Ok(stmts)
}
