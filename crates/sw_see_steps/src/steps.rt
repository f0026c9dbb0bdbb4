//! The lines of events.

ghost use Rattle.std.specs.Prelude.{◌≡◌, ◌<◌, ◌^◌, length, IfOk, map, string_bytes};
ghost use Rattle.sw_see_steps.specs.Steps.{joined, place_of, step_line, step_lines};

use crate::deeds::deed_text;
use crate::words::word_of;
use std::alloc::{AllocError, Global};
use sw_see_events::Happening;
use sw_see_lines::LineTable;

/// A position as messages show it, if there is one.
#[tactic(auto, unfolding(crate::specs::Steps::place_of))]
fn place_of(alloc: Global, text: &LineTable, at: Option<u32>) -> Result<String, AllocError>
    ensures { IfOk result (λ place. string_bytes place ≡ place_of text.now at) }
{
    match at {
        None => Ok(String::new(alloc)),
        Some(at) => {
            let position = text.shown_position(alloc, at)?;
            format!(in alloc; "{position}: ")
        }
    }
}

/// The line of the event with a number.
#[tactic(auto, unfolding(crate::specs::Steps::step_line))]
pub fn step_line(
    alloc: Global,
    text: &LineTable,
    names: &[String],
    number: u32,
    happening: &Happening,
) -> Result<String, AllocError>
    ensures { IfOk result (λ line. string_bytes line
        ≡ step_line text.now (map string_bytes names.now) number happening.now) }
{
    let place = place_of(alloc, text, happening.at)?;
    let word = word_of(alloc, text.bytes(), happening.at)?;
    let deed = deed_text(alloc, names, word.as_str(), happening)?;
    let job = happening.job;
    format!(in alloc; "{number}. {place}job {job} {deed}\n")
}

/// The line of each event, in order. `names` are those of the global actors, by number.
#[tactic(auto, unfolding(crate::specs::Steps::step_lines))]
pub fn step_lines(
    alloc: Global,
    text: &LineTable,
    names: &[String],
    happenings: &[Happening],
) -> Result<Vec<u8>, AllocError>
    requires { length happenings.now < 2 ^ 32 }
    ensures { IfOk result (λ lines. lines.items
        ≡ joined (step_lines text.now (map string_bytes names.now) happenings.now)) }
{
    let mut lines = Vec::new(alloc);
    let mut number = 0;
    for happening in happenings {
        number += 1;
        let line = step_line(alloc, text, names, number, happening)?;
        lines.extend_from_slice(line.as_bytes())?;
    }
    Ok(lines)
}
