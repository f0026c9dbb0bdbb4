//! The lanes of jobs.

ghost use Rattle.std.specs.Prelude.{◌≡◌, ◌≤◌, ◌++◌, IfOk, OnOk, string_bytes};
ghost use Rattle.sw_see_draw.specs.Picture.{lane_drawn, lanes, lanes_drawn, linked_lanes, race_lanes};

use crate::layout::{column_x, lane_y};
use crate::marks::{Link, Mark};
use crate::shapes::{label, line};
use std::alloc::{AllocError, Global};
use sw_value::Race;

/// How many lanes there are at least, by the other job of a mark.
fn linked_lanes(link: Option<Link>) -> u64
    ensures value { result ≡ linked_lanes link }
    ensures small { result ≤ 4294967296 }
{
    match link {
        None => 0,
        Some(Link::To(job)) | Some(Link::From(job)) => u64::from(job) + 1,
    }
}

/// How many there are at least, by a race.
fn race_lanes(race: Option<Race>) -> u64
    ensures value { result ≡ race_lanes race }
    ensures small { result ≤ 4294967296 }
{
    match race {
        None => 1,
        Some(race) => {
            let first = u64::from(race.first.job) + 1;
            first.max(u64::from(race.second.job) + 1)
        }
    }
}

/// How many lanes there are: from that of job 0 on, up to the last job that is drawn.
pub fn lanes(race: Option<Race>, marks: &[Mark]) -> u64
    ensures value { result ≡ lanes race marks.now }
    ensures small { result ≤ 4294967296 }
{
    let mut count = race_lanes(race);
    for mark in marks {
        let own = u64::from(mark.job) + 1;
        count = count.max(own.max(linked_lanes(mark.link)));
    }
    count
}

/// The lane of a job, and its name.
#[tactic(auto, unfolding(crate::specs::Picture::lane_drawn))]
fn lane_drawn(alloc: Global, width: u64, job: u64) -> Result<String, AllocError>
    requires { job ≤ 4294967296 }
    ensures { IfOk result (λ tags. string_bytes tags ≡ lane_drawn width job) }
{
    let y = lane_y(job);
    let lane = line(alloc, column_x(0), y, width, y, "stroke=\"#ddd\"")?;
    let name = format!(in alloc; "job {job}")?;
    let name = label(alloc, 4, y + 4, "", name.as_str())?;
    format!(in alloc; "{lane}{name}")
}

/// Adds so many lanes, from that of job 0 on.
pub fn add_lanes(
    alloc: Global,
    width: u64,
    count: u64,
    made: &mut Vec<u8>,
) -> Result<(), AllocError>
    requires { count ≤ 4294967296 }
    ensures { OnOk result (made.new.items ≡ made.old.items ++ lanes_drawn width count) }
{
    for job in 0..count {
        let tags = lane_drawn(alloc, width, job)?;
        made.extend_from_slice(tags.as_bytes())?;
    }
    Ok(())
}
