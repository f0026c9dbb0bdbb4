//! The colours of cells and frames: reading them, and noting those of what is made.
ghost use Rattle.std.specs.Prelude.{◌≡◌, OnOk, OnErr, IfOk, ℕ};
ghost use Rattle.std.specs.Option.{option_to_list};
ghost use Rattle.sw_color_rules.specs.declared.colors.Colors.{Colors};
ghost use Rattle.sw_color_rules.specs.declared.colors.Tint.{Tint};
ghost use Rattle.sw_color_rules.specs.Changes.{mark, with_last, without_last, push_here, pop_here};
ghost use Rattle.sw_color_rules.specs.Changes.{begin_heres};
ghost use Rattle.sw_color_rules.specs.Plans.{last_of, global_number, next_color, number_on, top_here};
ghost use Rattle.sw_color_rules.specs.Tints.{color_number, owned_number};

use crate::names;
use std::alloc::{AllocError, Global};
use sw_color_rules::{ColorNumbers, Colors, Tint};
use sw_list::ListOf;
use sw_value::Executor;

/// The number of the colour that is made next.
pub fn next_color(colors: &Colors) -> usize
    ensures { result ≡ next_color colors.now }
{
    names::count(&colors.palette.names)
}

/// The colour of a coloured cell.
#[tactic(auto, unfolding(sw_color_rules::specs::Tints::color_number))]
pub fn color_number(colors: &Colors, cell: u32) -> Option<usize>
    ensures { result ≡ color_number colors.now.cells cell }
{
    match colors.cells.get(cell as usize) {
        Some(Tint::Colored { number }) => Some(*number),
        Some(Tint::Bare) | Some(Tint::Owns { .. }) | Some(Tint::Holds { .. }) | None => None,
    }
}

/// The colour that an actor owns, by the number of its cell.
#[tactic(auto, unfolding(sw_color_rules::specs::Tints::owned_number))]
fn owned_number(colors: &Colors, cell: u32) -> Option<usize>
    ensures { result ≡ owned_number colors.now.cells cell }
{
    match colors.cells.get(cell as usize) {
        Some(Tint::Owns { number }) => Some(*number),
        Some(Tint::Bare) | Some(Tint::Colored { .. }) | Some(Tint::Holds { .. }) | None => None,
    }
}

/// The colour of a global actor.
fn global_number(colors: &Colors, actor: u32) -> Option<usize>
    ensures { result ≡ global_number colors.now actor }
{
    let number = actor as usize;
    if number < names::count(&colors.palette.names) {
        Some(number)
    } else {
        None
    }
}

/// The colour of the actor or global actor that an executor is.
pub fn number_on(colors: &Colors, executor: Executor) -> Option<usize>
    ensures { result ≡ number_on colors.now executor }
{
    match executor {
        Executor::Generic => None,
        Executor::ActorOf(cell) => owned_number(colors, cell),
        Executor::Global(actor) => global_number(colors, actor),
    }
}

/// The last of some numbers.
fn last_of(numbers: &ColorNumbers) -> Option<usize>
    ensures { result ≡ last_of numbers.now }
{
    let count = numbers.len();
    if count == 0 {
        return None;
    }
    numbers.get(count - 1).copied()
}

/// The colour of the `Here` of a job's top frame, if it has one.
#[tactic(auto, unfolding(sw_color_rules::specs::Plans::top_here))]
pub fn top_here(colors: &Colors, job: u32) -> Option<usize>
    ensures { option_to_list result ≡ top_here colors.now job }
{
    last_of(colors.heres.get(job as usize)?)
}

/// Notes what a new cell has to do with colours.
#[tactic(auto, unfolding(sw_color_rules::specs::Changes::mark))]
pub fn mark(colors: &mut Colors, tint: Tint) -> Result<(), AllocError>
    ensures ok { OnOk result (colors.new ≡ mark tint colors.old) }
    ensures err { OnErr result (colors.new ≡ colors.old) }
{
    colors.cells.push(tint)
}

/// Takes that back.
#[tactic(auto, unfolding(sw_color_rules::specs::Changes::mark))]
pub fn unmark(colors: &mut Colors)
    ensures { (tint : Tint) (before : Colors) → colors.old ≡ mark tint before
        → colors.new ≡ before }
{
    let _ = colors.cells.pop();
}

/// Adds a number at the end.
#[tactic(auto, unfolding(sw_color_rules::specs::Changes::with_last))]
fn add_last(numbers: &mut ColorNumbers, number: usize) -> Result<(), AllocError>
    ensures ok { OnOk result (numbers.new ≡ with_last number numbers.old) }
    ensures err { OnErr result (numbers.new ≡ numbers.old) }
{
    numbers.push(number)
}

/// Takes the last number off.
#[tactic(auto, unfolding(sw_color_rules::specs::Changes::without_last))]
fn drop_last(numbers: &mut ColorNumbers)
    ensures { numbers.new ≡ without_last numbers.old }
{
    if !numbers.is_empty() {
        let count = numbers.len() - 1;
        numbers.truncate(count);
    }
}

/// Gives a job's new top frame its `Here`.
#[tactic(auto, using(sw_value::proofs::ListLemmas::changes), unfolding(sw_color_rules::specs::Changes::push_here))]
pub fn push_here(colors: &mut Colors, job: u32, number: usize) -> Result<(), AllocError>
    ensures ok { OnOk result (colors.new ≡ push_here job number colors.old) }
    ensures err { OnErr result (colors.new ≡ colors.old) }
{
    if (job as usize) < colors.heres.len() {
        add_last(colors.heres.at_mut(job as usize), number)?;
    }
    Ok(())
}

/// Takes the `Here` of a job's top frame off.
#[tactic(auto, using(sw_value::proofs::ListLemmas::changes), unfolding(sw_color_rules::specs::Changes::pop_here))]
pub fn pop_here(colors: &mut Colors, job: u32)
    ensures { colors.new ≡ pop_here job colors.old }
{
    if (job as usize) < colors.heres.len() {
        drop_last(colors.heres.at_mut(job as usize));
    }
}

/// Takes back the `Here` that was put on top of a job's last.
pub fn unpush_here(colors: &mut Colors, job: u32)
    ensures { (number : ℕ) (before : Colors) → colors.old ≡ push_here job number before
        → colors.new ≡ before }
{
    pop_here(colors, job);
}

/// Gives the one frame of a new job its `Here`.
#[tactic(auto, unfolding(sw_color_rules::specs::Changes::begin_heres))]
pub fn begin_heres(alloc: Global, colors: &mut Colors, number: usize) -> Result<(), AllocError>
    ensures ok { OnOk result (colors.new ≡ begin_heres number colors.old) }
    ensures err { OnErr result (colors.new ≡ colors.old) }
{
    let heres = ListOf::one(alloc, number)?;
    colors.heres.push(heres)
}

/// Takes that back.
#[tactic(auto, unfolding(sw_color_rules::specs::Changes::begin_heres))]
pub fn unbegin(colors: &mut Colors)
    ensures { (number : ℕ) (before : Colors) → colors.old ≡ begin_heres number before
        → colors.new ≡ before }
{
    let _ = colors.heres.pop();
}
