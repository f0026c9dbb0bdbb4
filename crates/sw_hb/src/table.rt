//! The latest accesses of jobs, by location.
ghost use Rattle.std.specs.Prelude.{◌≡◌, OnOk, OnErr, map, if◌then◌else◌};
ghost use Rattle.sw_value.specs.declared.race.Place.{Place};
ghost use Rattle.sw_race.specs.With.{is_same_place};
ghost use Rattle.sw_hb.specs.Entries.{with_entry, noted};
ghost use Rattle.sw_hb.specs.Table.{entries_at};

use crate::entries::{self, Entries, Made};
use indexmap::IndexMap;
use std::alloc::{AllocError, Global};
use sw_list::ListOf;
use sw_value::Place;

/// The entries of locations. A location without entries was not accessed.
pub type EntriesByPlace = IndexMap<Place, Entries>;

/// Adds an entry for a job to those of a location, if it has none there. Where memory runs out all
/// entries stay as they were.
pub fn make_entry(
    alloc: Global,
    table: &mut EntriesByPlace,
    place: Place,
    job: u32,
) -> Result<(), AllocError>
    ensures ok { OnOk result ((p : Place) → entries_at table.new p
        ≡ (if is_same_place place p then with_entry job (entries_at table.old p)
        else entries_at table.old p)) }
    ensures err { OnErr result ((p : Place) → entries_at table.new p ≡ entries_at table.old p) }
{
    match table.get_mut(&place) {
        Some(entries) => entries::make_entry(entries, job),
        None => {
            table.insert(place, ListOf::one(alloc, entries::unused(job))?)?;
            Ok(())
        }
    }
}

/// Notes an access in the entry of its job.
pub fn note(table: &mut EntriesByPlace, made: Made)
    ensures { (p : Place) → entries_at table.new p
        ≡ (if is_same_place made.access.place p then map (noted made) (entries_at table.old p)
        else entries_at table.old p) }
{
    if let Some(entries) = table.get_mut(&made.access.place) {
        entries::note(entries, made);
    }
}
