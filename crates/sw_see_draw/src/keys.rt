//! What the shapes and the colours of executors mean.

ghost use Rattle.std.specs.Prelude.{◌≡◌, ◌≤◌, ◌<◌, ◌^◌, ◌+◌, ◌++◌, IfOk, OnOk, length, map, string_bytes};
ghost use Rattle.std.specs.List.{list_any};
ghost use Rattle.sw_see_draw.specs.Marks.{same_executor};
ghost use Rattle.sw_see_draw.specs.Picture.{executors, key_drawn, key_text, keys_drawn};
ghost use Rattle.sw_see_draw.specs.Picture.{legend, shapes_told, with_executor};

use crate::marks::{Mark, same_executor};
use crate::paints::paint;
use crate::shapes::{label, rectangle};
use std::alloc::{AllocError, Global};
use sw_see_steps::executor_text;
use sw_value::Executor;

/// Whether an executor is one of these.
fn is_known(all: &[Option<Executor>], executor: Option<Executor>) -> bool
    ensures { result ≡ list_any (λ one. same_executor one executor) all.now }
{
    all.iter().any(|one| same_executor(*one, executor))
}

/// Adds an executor, if it isn't there.
fn add_executor(
    executor: Option<Executor>,
    all: &mut Vec<Option<Executor>>,
) -> Result<(), AllocError>
    ensures value { OnOk result (all.new.items ≡ with_executor all.old.items executor) }
    ensures few { OnOk result (length all.new.items ≤ length all.old.items + 1) }
{
    if !is_known(all.as_slice(), executor) {
        all.push(executor)?;
    }
    Ok(())
}

/// The executors of marks, each once.
pub fn executors(alloc: Global, marks: &[Mark]) -> Result<Vec<Option<Executor>>, AllocError>
    ensures value { IfOk result (λ all. all.items ≡ executors marks.now) }
    ensures few { IfOk result (λ all. length all.items ≤ length marks.now) }
{
    let mut all = Vec::new(alloc);
    for mark in marks {
        add_executor(mark.executor, &mut all)?;
    }
    Ok(all)
}

/// What the shapes mean, at y.
#[tactic(auto, unfolding(crate::specs::Picture::shapes_told))]
fn shapes_told(alloc: Global, y: u64) -> Result<String, AllocError>
    ensures { IfOk result (λ tags. string_bytes tags ≡ shapes_told y) }
{
    format!(in alloc;
        "<g transform=\"translate(70,{y})\">\n<circle cx=\"6\" cy=\"-4\" r=\"4\" fill=\"white\" stroke=\"black\"/>\n<text x=\"18\">reads</text>\n<circle cx=\"66\" cy=\"-4\" r=\"4\"/>\n<text x=\"78\">writes</text>\n<line x1=\"126\" y1=\"-4\" x2=\"142\" y2=\"-4\" stroke=\"black\" marker-end=\"url(#arrow)\"/>\n<text x=\"148\">starts a job, or hands its result on</text>\n</g>\n"
    )
}

/// What the colour of an executor means.
#[tactic(auto, unfolding(crate::specs::Picture::key_text))]
fn key_text(
    alloc: Global,
    names: &[String],
    executor: Option<Executor>,
) -> Result<String, AllocError>
    ensures { IfOk result (λ text.
        string_bytes text ≡ key_text (map string_bytes names.now) executor) }
{
    match executor {
        None => String::from_str(alloc, "on no executor"),
        Some(executor) => {
            let executor = executor_text(alloc, names, executor)?;
            format!(in alloc; "on {executor}")
        }
    }
}

/// The colour of an executor, and what it means.
#[tactic(auto, unfolding(crate::specs::Picture::key_drawn))]
fn key_drawn(
    alloc: Global,
    names: &[String],
    y: u64,
    executor: Option<Executor>,
) -> Result<String, AllocError>
    requires { 9 ≤ y }
    ensures { IfOk result (λ tags.
        string_bytes tags ≡ key_drawn (map string_bytes names.now) y executor) }
{
    let color = paint(alloc, executor)?;
    let shape = rectangle(alloc, 70, y - 9, 12, 12, color.as_str())?;
    let text = key_text(alloc, names, executor)?;
    let text = label(alloc, 88, y, "", text.as_str())?;
    format!(in alloc; "{shape}{text}")
}

/// Adds what the colours of executors mean, line by line from y on.
fn add_keys(
    alloc: Global,
    names: &[String],
    y: u64,
    all: &[Option<Executor>],
    made: &mut Vec<u8>,
) -> Result<(), AllocError>
    requires low { 9 ≤ y }
    requires high { y < 2 ^ 40 }
    requires few { length all.now < 2 ^ 31 }
    ensures { OnOk result (made.new.items
        ≡ made.old.items ++ keys_drawn (map string_bytes names.now) y all.now) }
{
    let mut line = y;
    for executor in all {
        let tags = key_drawn(alloc, names, line, *executor)?;
        made.extend_from_slice(tags.as_bytes())?;
        line += 16;
    }
    Ok(())
}

/// Adds what the shapes and the colours of executors mean, from y on.
#[tactic(auto, unfolding(crate::specs::Picture::legend))]
pub fn add_legend(
    alloc: Global,
    names: &[String],
    y: u64,
    all: &[Option<Executor>],
    made: &mut Vec<u8>,
) -> Result<(), AllocError>
    requires high { y < 2 ^ 39 }
    requires few { length all.now < 2 ^ 31 }
    ensures { OnOk result (made.new.items
        ≡ made.old.items ++ legend (map string_bytes names.now) y all.now) }
{
    let shapes = shapes_told(alloc, y)?;
    made.extend_from_slice(shapes.as_bytes())?;
    add_keys(alloc, names, y + 20, all, made)
}
