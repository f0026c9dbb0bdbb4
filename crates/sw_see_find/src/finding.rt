//! The search.

ghost use Rattle.std.specs.Prelude.{IfOk, IfSome};
ghost use Rattle.sw_see_find.specs.Found.{IsFound, RacesBy};

use crate::confirming::race_text;
use crate::memory::Memory;
use crate::shortening::Shortening;
use crate::walking::race_items;
use rand_pcg::Pcg32;
use std::alloc::{AllocError, Global};
use sw_graph::Graph;
use sw_list::ListOf;

/// The most schedules that are tried.
pub const MOST_TRIES: u32 = 512;

/// What a search comes to.
#[derive(Debug, Drop)]
pub enum Found {
    /// The text of a schedule that shows a race.
    Race { schedule: ListOf<u8> },
    /// None of so many schedules showed one.
    Nothing { tries: u32 },
}

/// The number that chance begins with: the hash of the seed by FNV-1a
/// (<https://datatracker.ietf.org/doc/html/rfc9923>).
fn number_of(seed: &str) -> u64 {
    let mut hash: u64 = 0xcbf2_9ce4_8422_2325;
    for byte in seed.as_bytes() {
        hash = (hash ^ u64::from(*byte)).wrapping_mul(0x0100_0000_01b3);
    }
    hash
}

/// The text of a schedule that shows a race, after items were left out; of items that don't race
/// there is none.
fn shortest(alloc: Global, graph: &Graph, items: Vec<u32>) -> Result<Option<ListOf<u8>>, AllocError>
    ensures { IfOk result (λ found. IfSome found (RacesBy graph.now)) }
{
    match race_text(alloc, graph, items.as_slice())? {
        None => Ok(None),
        Some(text) => {
            let mut shortening = Shortening::new(items, text);
            shortening.shorten(alloc, graph)?;
            Ok(Some(shortening.into_text()))
        }
    }
}

/// Looks for a schedule under which a graph races. The seed, which may be any text, decides which
/// schedules are tried.
pub fn find(alloc: Global, graph: &Graph, seed: &str) -> Result<Found, AllocError>
    ensures { IfOk result (IsFound graph.now) }
{
    let mut rng = Pcg32::new(number_of(seed), 0);
    let mut memory = Memory::new(alloc);
    for _try in 0..MOST_TRIES {
        if let Some(items) = race_items(alloc, graph, &mut memory, &mut rng)? {
            if let Some(schedule) = shortest(alloc, graph, items)? {
                return Ok(Found::Race { schedule });
            }
        }
    }
    Ok(Found::Nothing { tries: MOST_TRIES })
}
