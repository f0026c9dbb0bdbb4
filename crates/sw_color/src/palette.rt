//! The colours that were made, and their owners: making, merging and handing over.
ghost use Rattle.std.specs.Prelude.{◌≡◌, ◌<◌, OnOk, OnErr, []};
ghost use Rattle.sw_color_rules.specs.declared.colors.Palette.{Palette};
ghost use Rattle.sw_color_rules.specs.declared.colors.Owner.{Owner};
ghost use Rattle.sw_color_rules.specs.Names.{name_in};
ghost use Rattle.sw_color_rules.specs.Palette.{owner_in, united, united_with, handed_to, fresh, united_as};
ghost use Rattle.sw_color_rules.specs.Palette.{merge, hand_over};
ghost use Rattle.sw_color.specs.Making.{joined_with, joined, handed};

use crate::names;
use std::alloc::{AllocError, Global};
use sw_color_rules::{Owner, Palette};
use sw_list::ListOf;

/// Of two owners an actor or a global actor, if one of them is.
fn united(one: Owner, other: Owner) -> Owner
    ensures { result ≡ united one other }
{
    match one {
        Owner::Job(_) => other,
        Owner::ActorOf(_) | Owner::Global(_) => one,
    }
}

fn united_with(other: Option<Owner>, one: Owner) -> Owner
    ensures { result ≡ united_with other one }
{
    match other {
        None => one,
        Some(other) => united(one, other),
    }
}

fn handed_to(job: u32, owner: Owner) -> Owner
    ensures { result ≡ handed_to job owner }
{
    match owner {
        Owner::Job(_) => Owner::Job(job),
        Owner::ActorOf(_) | Owner::Global(_) => owner,
    }
}

/// No colours.
pub fn no_colors(alloc: Global) -> Palette
    ensures { result ≡ record { names = []; owners = [] } }
{
    Palette {
        names: names::no_names(alloc),
        owners: ListOf::new(alloc),
    }
}

/// The owner of what is left of a colour.
pub fn owner(palette: &Palette, number: usize) -> Option<Owner>
    ensures { result ≡ owner_in palette.now number }
{
    palette
        .owners
        .get(names::name(&palette.names, number))
        .copied()
}

/// Makes a colour, with the next number. If memory runs out nothing changes.
#[tactic(auto, unfolding(sw_color_rules::specs::Palette::fresh))]
pub fn make(palette: &mut Palette, owner: Owner) -> Result<(), AllocError>
    ensures ok { OnOk result (palette.new ≡ fresh owner palette.old) }
    ensures err { OnErr result (palette.new ≡ palette.old) }
{
    palette.owners.push(owner)?;
    match names::add(&mut palette.names) {
        Ok(()) => Ok(()),
        Err(error) => {
            let _ = palette.owners.pop();
            Err(error)
        }
    }
}

/// Takes back the colour that was made last.
#[tactic(auto, using(crate::proofs::TurnLemmas::takes_back), unfolding(sw_color_rules::specs::Palette::fresh))]
pub fn take_back(palette: &mut Palette)
    ensures { (owner : Owner) (before : Palette) → palette.old ≡ fresh owner before
        → palette.new ≡ before }
{
    names::take_back(&mut palette.names);
    let _ = palette.owners.pop();
}

/// Of two colours that are left the lower one is left.
#[tactic(auto, using(sw_value::proofs::ListLemmas::changes), unfolding(sw_color_rules::specs::Palette::united_as))]
fn unite(palette: &mut Palette, low: usize, high: usize)
    requires lower { low < high }
    requires low { name_in palette.old.names low ≡ low }
    requires high { name_in palette.old.names high ≡ high }
    ensures { palette.new ≡ united_as low high palette.old }
{
    let other = palette.owners.get(high).copied();
    names::turn(&mut palette.names, high, low);
    if low < palette.owners.len() {
        let owner = *palette.owners.at(low);
        palette.owners.set(low, united_with(other, owner));
    }
}

/// Merges two colours.
#[tactic(auto, unfolding(sw_color_rules::specs::Palette::merge))]
fn merge(palette: &mut Palette, one: usize, other: usize)
    ensures { palette.new ≡ merge one other palette.old }
{
    let one = names::find(&mut palette.names, one);
    let other = names::find(&mut palette.names, other);
    if one < other {
        unite(palette, one, other);
    } else if other < one {
        unite(palette, other, one);
    }
}

/// Merges colours with the first of them.
fn join_with(palette: &mut Palette, first: usize, others: &[usize])
    ensures { palette.new ≡ joined_with first others.now palette.old }
{
    for number in others {
        merge(palette, first, *number);
    }
}

/// Makes these colours one. That takes as long as the list is, but for look-ups, which are short.
pub fn join(palette: &mut Palette, numbers: &[usize])
    ensures { palette.new ≡ joined numbers.now palette.old }
{
    if let Some((first, others)) = numbers.split_first() {
        join_with(palette, *first, others);
    }
}

/// Gives a colour that a job owns to another job.
#[tactic(auto, using(sw_value::proofs::ListLemmas::changes), unfolding(sw_color_rules::specs::Palette::hand_over))]
fn hand_over(palette: &mut Palette, number: usize, job: u32)
    ensures { palette.new ≡ hand_over number job palette.old }
{
    let left = names::name(&palette.names, number);
    if left < palette.owners.len() {
        let owner = *palette.owners.at(left);
        palette.owners.set(left, handed_to(job, owner));
    }
}

/// Gives the first of these colours to another job, if there is one.
pub fn hand(palette: &mut Palette, numbers: &[usize], heir: Option<u32>)
    ensures { palette.new ≡ handed numbers.now heir palette.old }
{
    if let Some(job) = heir {
        if let Some(number) = numbers.first() {
            hand_over(palette, *number, job);
        }
    }
}
