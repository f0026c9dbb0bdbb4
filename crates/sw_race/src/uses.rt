ghost use Rattle.std.specs.Prelude.{◌≡◌, ◌+◌, ◌<◌, ◌^◌, OnOk, OnErr, IfSome, if◌then◌else◌};
ghost use Rattle.std.specs.Prelude.{Some, None};
ghost use Rattle.indexmap.specs.IndexMap.{get};
ghost use Rattle.sw_value.specs.declared.race.Place.{Place};
ghost use Rattle.sw_race.specs.Uses.{unused, uses_in, more, with_use, used, is_shared, is_alone};
ghost use Rattle.sw_race.specs.With.{is_same_place};

use crate::target::Target;
use indexmap::IndexMap;
use std::alloc::AllocError;
use sw_value::Place;

/// How many jobs have a location as their target to read it, and how many to write it.
#[derive(Clone, Copy, Debug)]
pub struct Uses {
    pub readers: usize,
    pub writers: usize,
}

/// The uses of locations.
pub type UsesByPlace = IndexMap<Place, Uses>;

const UNUSED: Uses = Uses {
    readers: 0,
    writers: 0,
};

/// The uses of a location.
fn uses_in(table: &UsesByPlace, place: Place) -> Uses
    ensures { result ≡ uses_in table.now place }
{
    match table.get(&place) {
        None => UNUSED,
        Some(uses) => *uses,
    }
}

/// Gives a location other uses. Only a location without uses may want memory.
fn put(table: &mut UsesByPlace, place: Place, uses: Uses) -> Result<(), AllocError>
    ensures ok { OnOk result ((p : Place) → uses_in table.new p
        ≡ (if is_same_place place p then uses else uses_in table.old p)) }
    ensures err { OnErr result ((p : Place) → uses_in table.new p ≡ uses_in table.old p) }
    ensures absent { OnErr result (uses_in table.old place ≡ unused) }
{
    insert(table, place, uses)?;
    Ok(())
}

/// Gives a location an entry, in place of the one that it may have.
fn insert(table: &mut UsesByPlace, place: Place, uses: Uses) -> Result<(), AllocError>
    ensures ok { OnOk result ((p : Place) → get is_same_place table.new p
        ≡ (if is_same_place place p then Some uses else get is_same_place table.old p)) }
    ensures err { OnErr result ((p : Place) →
        get is_same_place table.new p ≡ get is_same_place table.old p) }
    ensures absent { OnErr result (get is_same_place table.old place ≡ None) }
{
    table.insert(place, uses)?;
    Ok(())
}

/// Takes the entry of a location away.
fn remove(table: &mut UsesByPlace, place: Place)
    ensures { (p : Place) → get is_same_place table.new p
        ≡ (if is_same_place place p then None else get is_same_place table.old p) }
{
    table.swap_remove(&place);
}

/// Takes the uses of a location away.
fn clear(table: &mut UsesByPlace, place: Place)
    ensures { (p : Place) → uses_in table.new p
        ≡ (if is_same_place place p then unused else uses_in table.old p) }
{
    remove(table, place);
}

/// Counts the target of one more job. Where memory runs out nothing changes.
pub fn take_in(table: &mut UsesByPlace, target: Option<Target>) -> Result<(), AllocError>
    requires room { (p : Place) → ((uses_in table.old p).readers < 2 ^ 33)
        × ((uses_in table.old p).writers < 2 ^ 33) }
    ensures ok { OnOk result ((p : Place) →
        uses_in table.new p ≡ with_use target p (uses_in table.old p)) }
    ensures err { OnErr result ((p : Place) → uses_in table.new p ≡ uses_in table.old p) }
{
    if let Some(target) = target {
        let uses = uses_in(table, target.place);
        put(table, target.place, more(target.writes, uses))?;
    }
    Ok(())
}

/// Counts the target of a job no longer.
pub fn take_out(table: &mut UsesByPlace, target: Option<Target>)
    requires there { IfSome target (λ t. 0 < used t.writes (uses_in table.old t.place)) }
    ensures { (p : Place) → with_use target p (uses_in table.new p) ≡ uses_in table.old p }
{
    if let Some(target) = target {
        let uses = fewer(target.writes, uses_in(table, target.place));
        set(table, target.place, uses);
    }
}

/// Gives a location that has uses other ones.
fn set(table: &mut UsesByPlace, place: Place, uses: Uses)
    requires there { uses_in table.old place ≡ unused → ⊥ }
    ensures { (p : Place) → uses_in table.new p
        ≡ (if is_same_place place p then uses else uses_in table.old p) }
{
    if uses.readers == 0 && uses.writers == 0 {
        clear(table, place);
    } else {
        let _full = put(table, place, uses);
    }
}

/// The uses with one more job that writes or reads.
fn more(writes: bool, uses: Uses) -> Uses
    requires room { (uses.readers < 2 ^ 33) × (uses.writers < 2 ^ 33) }
    ensures { result ≡ more writes uses }
{
    if writes {
        Uses {
            readers: uses.readers,
            writers: uses.writers + 1,
        }
    } else {
        Uses {
            readers: uses.readers + 1,
            writers: uses.writers,
        }
    }
}

/// The uses with one job less that writes or reads.
fn fewer(writes: bool, uses: Uses) -> Uses
    requires there { 0 < used writes uses }
    ensures { more writes result ≡ uses }
{
    if writes {
        Uses {
            readers: uses.readers,
            writers: uses.writers - 1,
        }
    } else {
        Uses {
            readers: uses.readers - 1,
            writers: uses.writers,
        }
    }
}

/// Whether no other job's target clashes with a target that is counted itself.
pub fn is_alone(table: &UsesByPlace, target: Option<Target>) -> bool
    ensures { result ≡ is_alone table.now target }
{
    match target {
        None => true,
        Some(target) => !is_shared(target.writes, uses_in(table, target.place)),
    }
}

/// Whether a job that writes or reads a location with these uses has a rival there.
fn is_shared(writes: bool, uses: Uses) -> bool
    ensures { result ≡ is_shared writes uses }
{
    if writes {
        uses.readers > 0 || uses.writers > 1
    } else {
        uses.writers > 0
    }
}
