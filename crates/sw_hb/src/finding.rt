//! The latest rivals of an access of which its event hasn't heard.
ghost use Rattle.std.specs.Prelude.{◌≡◌};
ghost use Rattle.sw_value.specs.Transition.{Transition};
ghost use Rattle.sw_before.specs.Clocks.{heard};
ghost use Rattle.sw_clocks.specs.Links.{links_of};
ghost use Rattle.sw_clocks.specs.Rows.{clocks_in};
ghost use Rattle.sw_hb.specs.Entries.{first_unheard};
ghost use Rattle.sw_hb.specs.Table.{entries_at};

use crate::entries::{Latest, of_lesser_job, unheard_rival};
use crate::table::EntriesByPlace;
use sw_clocks::{Clocks, Links};
use sw_value::Access;

/// Of the latest rivals of an access of which an event with these links hasn't heard the one of the
/// least job.
pub fn first_unheard(
    clocks: &Clocks,
    links: &Links,
    access: Access,
    table: &EntriesByPlace,
) -> Option<Access>
    ensures { (t : Transition) → links_of t ≡ links.now
        → result ≡ first_unheard (heard (clocks_in clocks.now) t) access
        (entries_at table.now access.place) }
{
    match table.get(&access.place) {
        None => None,
        Some(entries) => first_among(clocks, links, access, entries.as_slice()),
    }
}

fn first_among(clocks: &Clocks, links: &Links, access: Access, entries: &[Latest]) -> Option<Access>
    ensures { (t : Transition) → links_of t ≡ links.now
        → result ≡ first_unheard (heard (clocks_in clocks.now) t) access entries.now }
{
    let mut first = None;
    for latest in entries {
        let count = clocks.heard(links, latest.job);
        first = of_lesser_job(first, unheard_rival(*latest, access, count));
    }
    first
}
