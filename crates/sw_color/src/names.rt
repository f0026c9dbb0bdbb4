//! Names of colours: what is left of numbers that were merged. A merge is one write, and a look-up
//! goes from number to number, each lower than the one before.
ghost use Rattle.std.specs.Prelude.{◌≡◌, ◌<◌, ◌≤◌, ◌-◌, ◌++◌, ◌∷◌, [], OnOk, OnErr, IfSome, length, map, take, None};
ghost use Rattle.sw_color_rules.specs.Names.{name_in, turned};
ghost use Rattle.sw_color_rules.specs.Parents.{parent_of, roots};

use std::alloc::{AllocError, Global};
use sw_color_rules::Names;
use sw_list::ListOf;

/// The lower number into which a number was merged.
#[tactic(auto, unfolding(sw_color_rules::specs::Parents::parent_of))]
fn parent(parents: &ListOf<usize>, number: usize) -> Option<usize>
    ensures value { result ≡ parent_of parents.now number }
    ensures lower { IfSome result (λ parent. parent < number) }
    ensures within { IfSome result (λ parent. number < length parents.now) }
{
    match parents.get(number) {
        None => None,
        Some(parent) => {
            if *parent < number {
                Some(*parent)
            } else {
                None
            }
        }
    }
}

/// What is left of a number.
#[tactic(auto, using(crate::proofs::RootLemmas::climbs))]
fn root(parents: &ListOf<usize>, number: usize) -> usize
    ensures value { result ≡ name_in (roots parents.now) number }
    ensures root { parent_of parents.now result ≡ None }
    ensures lower { result ≤ number }
{
    let mut at = number;
    while let Some(next) = parent(parents, at) {
        at = next;
    }
    at
}

/// Keeps a number with its name, if that is lower.
#[tactic(auto, using(crate::proofs::TurnLemmas::settling))]
fn settle_one(parents: &mut ListOf<usize>, number: usize, name: usize)
    requires within { number < length parents.old }
    requires name { name ≡ name_in (roots parents.old) number }
    ensures { roots parents.new ≡ roots parents.old }
{
    if name < number {
        parents.set(number, name);
    }
}

/// Keeps each number on the path from a number to its name with that name, so that the next look-up
/// is short.
fn settle(parents: &mut ListOf<usize>, number: usize, name: usize)
    requires { name ≡ name_in (roots parents.old) number }
    ensures { roots parents.new ≡ roots parents.old }
{
    let mut at = number;
    while let Some(next) = parent(parents, at) {
        settle_one(parents, at, name);
        at = next;
    }
}

/// No numbers.
#[tactic(auto, unfolding(sw_color_rules::specs::Parents::roots))]
pub fn no_names(alloc: Global) -> Names
    ensures { result ≡ [] }
{
    Names {
        parents: ListOf::new(alloc),
    }
}

/// What is left of a number.
pub fn name(names: &Names, number: usize) -> usize
    ensures value { result ≡ name_in names.now number }
    ensures left { name_in names.now result ≡ result }
{
    root(&names.parents, number)
}

/// The same, and the next look-up is short.
pub fn find(names: &mut Names, number: usize) -> usize
    ensures same { names.new ≡ names.old }
    ensures value { result ≡ name_in names.old number }
    ensures left { name_in names.old result ≡ result }
{
    let name = root(&names.parents, number);
    settle(&mut names.parents, number, name);
    name
}

/// How many numbers there are.
#[tactic(auto, using(crate::proofs::RootLemmas::roots_length))]
pub fn count(names: &Names) -> usize
    ensures { result ≡ length names.now }
{
    names.parents.len()
}

/// Adds the next number, which is merged with none.
#[tactic(auto, using(crate::proofs::TurnLemmas::adding))]
pub fn add(names: &mut Names) -> Result<(), AllocError>
    ensures ok { OnOk result (names.new ≡ names.old ++ length names.old ∷ []) }
    ensures err { OnErr result (names.new ≡ names.old) }
{
    let next = names.parents.len();
    names.parents.push(next)
}

/// Takes the last number away.
pub fn take_back(names: &mut Names)
    ensures { names.new ≡ take (length names.old - 1) names.old }
{
    let _ = names.parents.pop();
}

/// Merges a number that is left into a lower one that is left.
#[tactic(auto, using(crate::proofs::TurnLemmas::turning))]
pub fn turn(names: &mut Names, from: usize, to: usize)
    requires lower { to < from }
    requires to { name_in names.old to ≡ to }
    requires from { name_in names.old from ≡ from }
    ensures { names.new ≡ map (turned from to) names.old }
{
    if from < names.parents.len() {
        names.parents.set(from, to);
    }
}
