//! The race at which a replay stopped.

ghost use Rattle.std.specs.Prelude.{◌≡◌, ◌≤◌, ◌<◌, ◌^◌, IfOk, string_bytes};
ghost use Rattle.sw_see_draw.specs.Picture.{between, race_drawn, race_marked, race_told, race_width};
ghost use Rattle.sw_see_draw.specs.Picture.{racing_text, ring, room_for};

use crate::layout::lane_y;
use crate::shapes::{circle, label, line};
use std::alloc::{AllocError, Global};
use sw_see_lines::{LineTable, source_line};
use sw_value::{Access, Race};

/// An access of a race in words, with its line of the source.
#[tactic(auto, unfolding(crate::specs::Picture::racing_text))]
fn racing_text(alloc: Global, text: &LineTable, access: Access) -> Result<String, AllocError>
    ensures { IfOk result (λ words. string_bytes words ≡ racing_text text.now access) }
{
    let job = access.job;
    let does = if access.writes {
        " writes, "
    } else {
        " reads, "
    };
    let line = source_line(alloc, text, access.at)?;
    format!(in alloc; "race: job {job}{does}{line}")
}

/// The room for a text, with what is left of it.
fn room_for(text: &str) -> u64
    ensures value { result ≡ room_for text.now }
    ensures small { result ≤ 7110 }
{
    110 + 7 * text.len().min(1000) as u64
}

/// The room for both lines of a race.
#[tactic(auto, unfolding(crate::specs::Picture::race_width))]
pub fn race_width(alloc: Global, text: &LineTable, race: Option<Race>) -> Result<u64, AllocError>
    ensures { IfOk result (λ width. width ≡ race_width text.now race) }
{
    match race {
        None => Ok(0),
        Some(race) => {
            let upper = racing_text(alloc, text, race.first)?;
            let lower = racing_text(alloc, text, race.second)?;
            Ok(room_for(upper.as_str()).max(room_for(lower.as_str())))
        }
    }
}

/// A red ring in the lane of a job.
#[tactic(auto, unfolding(crate::specs::Picture::ring))]
fn ring(alloc: Global, x: u64, job: u32) -> Result<String, AllocError>
    ensures { IfOk result (λ tag. string_bytes tag ≡ ring x job) }
{
    circle(
        alloc,
        x,
        lane_y(u64::from(job)),
        8,
        "fill=\"none\" stroke=\"red\" stroke-width=\"2\"",
    )
}

/// A red line between the lanes of two jobs.
#[tactic(auto, unfolding(crate::specs::Picture::between))]
fn between(alloc: Global, x: u64, job: u32, other: u32) -> Result<String, AllocError>
    ensures { IfOk result (λ tag. string_bytes tag ≡ between x job other) }
{
    let from = lane_y(u64::from(job));
    line(
        alloc,
        x,
        from,
        x,
        lane_y(u64::from(other)),
        "stroke=\"red\" stroke-width=\"2\"",
    )
}

/// A race in the column x.
#[tactic(auto, unfolding(crate::specs::Picture::race_marked))]
fn race_marked(alloc: Global, x: u64, race: Race) -> Result<String, AllocError>
    ensures { IfOk result (λ tags. string_bytes tags ≡ race_marked x race) }
{
    let between = between(alloc, x, race.first.job, race.second.job)?;
    let first = ring(alloc, x, race.first.job)?;
    let second = ring(alloc, x, race.second.job)?;
    format!(in alloc; "{between}{first}{second}")
}

/// Both lines of the source of a race, at y.
#[tactic(auto, unfolding(crate::specs::Picture::race_told))]
fn race_told(alloc: Global, text: &LineTable, y: u64, race: Race) -> Result<String, AllocError>
    requires { y < 2 ^ 40 }
    ensures { IfOk result (λ tags. string_bytes tags ≡ race_told text.now y race) }
{
    let words = racing_text(alloc, text, race.first)?;
    let upper = label(alloc, 70, y, "fill=\"red\"", words.as_str())?;
    let words = racing_text(alloc, text, race.second)?;
    let lower = label(alloc, 70, y + 16, "fill=\"red\"", words.as_str())?;
    format!(in alloc; "{upper}{lower}")
}

/// The race at which a replay stopped.
#[tactic(auto, unfolding(crate::specs::Picture::race_drawn))]
pub fn race_drawn(
    alloc: Global,
    text: &LineTable,
    x: u64,
    y: u64,
    race: Option<Race>,
) -> Result<String, AllocError>
    requires { y < 2 ^ 40 }
    ensures { IfOk result (λ tags. string_bytes tags ≡ race_drawn text.now x y race) }
{
    match race {
        None => Ok(String::new(alloc)),
        Some(race) => {
            let marked = race_marked(alloc, x, race)?;
            let told = race_told(alloc, text, y, race)?;
            format!(in alloc; "{marked}{told}")
        }
    }
}
