ghost use Rattle.std.specs.Prelude.{◌≡◌, ◌<◌, ◌^◌, length};
ghost use Rattle.sw_race.specs.Index.{IsFoundOfAll};
ghost use Rattle.sw_race.specs.With.{IsFound, IsFirstRival, is_same_place, are_rivals, ordered};

use crate::access::next_access;
use sw_graph::Graph;
use sw_value::{Access, Place, Race, State};

/// The race of a job with the least other job, or none where the job is in no race.
#[tactic(auto, using(crate::proofs::WithLemmas::found))]
pub fn race_with(graph: &Graph, state: &State, job: u32) -> Option<Race>
    requires { length state.now.jobs < 2 ^ 32 }
    ensures { IsFound graph.now state.now job result }
{
    let access = next_access(graph, state, job)?;
    let rival = first_rival(graph, state, access)?;
    Some(ordered(access, rival))
}

/// The least race of a state, or none where it is not racing.
#[tactic(auto, using(crate::proofs::LeastLemmas::searches))]
pub fn least_race(graph: &Graph, state: &State) -> Option<Race>
    requires { length state.now.jobs < 2 ^ 32 }
    ensures { IsFoundOfAll graph.now state.now result }
{
    for number in 0..state.jobs.len() as u32 {
        if let Some(race) = race_with(graph, state, number) {
            return Some(race);
        }
    }
    None
}

/// The access of the first other job that conflicts with an access, or none where there is none.
#[tactic(auto, using(crate::proofs::WithLemmas::search_steps))]
fn first_rival(graph: &Graph, state: &State, access: Access) -> Option<Access>
    requires { length state.now.jobs < 2 ^ 32 }
    ensures { IsFirstRival graph.now state.now access result }
{
    for job in 0..state.jobs.len() as u32 {
        if let Some(other) = next_access(graph, state, job) {
            if are_rivals(access, other) {
                return Some(other);
            }
        }
    }
    None
}

/// Whether two accesses are of different jobs, and conflict.
fn are_rivals(access: Access, other: Access) -> bool
    ensures { result ≡ are_rivals access other }
{
    access.job != other.job
        && is_same_place(access.place, other.place)
        && (access.writes || other.writes)
}

/// Whether two locations are one.
fn is_same_place(one: Place, two: Place) -> bool
    ensures { result ≡ is_same_place one two }
{
    match (one, two) {
        (
            Place::Prop { cell, part },
            Place::Prop {
                cell: other,
                part: index,
            },
        ) => { cell == other && part == index }
        (Place::Global(one), Place::Global(two)) => one == two,
        (Place::BoxOf(one), Place::BoxOf(two)) => one == two,
        _ => false,
    }
}

/// The race of two accesses: that of the job with the lower number is the first.
fn ordered(access: Access, other: Access) -> Race
    ensures { result ≡ ordered access other }
{
    if access.job < other.job {
        Race {
            first: access,
            second: other,
        }
    } else {
        Race {
            first: other,
            second: access,
        }
    }
}
