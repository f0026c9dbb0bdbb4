//! Names that are declared twice.
ghost use Rattle.std.specs.Prelude.{◌≡◌, ◌==◌, ◌++◌, ℕ, Some, None, nat_eq, IfOk, OnOk};
ghost use Rattle.std.specs.Prelude.{if◌then◌else◌};
ghost use Rattle.indexmap.specs.IndexMap.{get};
ghost use Rattle.sw_decl_names.specs.Repeats.{earlier, first_place, is_repeated, repeats};

use indexmap::IndexMap;
use std::alloc::{AllocError, Global};
use sw_decl_words::{Placed, is_reserved};
use sw_list::ListOf;
use sw_tree::Name;

/// Where each name of a scope stands first, by id.
#[derive(Drop)]
pub struct Places {
    pub places: IndexMap<u32, u32>,
}

impl Places {
    ghost use Rattle.std.specs.Prelude.{◌≡◌, ◌==◌, ℕ, nat_eq, IfOk, OnOk, if◌then◌else◌};
    ghost use Rattle.std.specs.Prelude.{is_some};
    ghost use Rattle.indexmap.specs.IndexMap.{get};
    ghost use Rattle.sw_decl_names.specs.Repeats.{earlier, first_place, is_repeated};

    /// Notes that a name stands at a place.
    fn note(&mut self, name: Name) -> Result<(), AllocError>
        ensures { OnOk result ((id : ℕ) → get nat_eq self.new.places id
            ≡ (if name.id == id then earlier (get nat_eq self.old.places id) name.at
            else get nat_eq self.old.places id)) }
    {
        let at = match self.places.get(&name.id).copied() {
            Some(at) => at.min(name.at),
            None => name.at,
        };
        self.places.insert(name.id, at)?;
        Ok(())
    }

    /// Where the names of a scope stand first.
    pub fn of(alloc: Global, names: &[Name]) -> Result<Places, AllocError>
        ensures { IfOk result (λ places. (id : ℕ)
            → get nat_eq places.places id ≡ first_place names.now id) }
    {
        let mut places = Places {
            places: IndexMap::new(alloc),
        };
        for name in names {
            places.note(*name)?;
        }
        Ok(places)
    }

    /// Whether a name stands somewhere.
    pub fn has(&self, id: u32) -> bool
        ensures { result ≡ is_some (get nat_eq self.now.places id) }
    {
        self.places.get(&id).is_some()
    }

    /// Whether the name can't be declared, or stands before in its scope.
    fn is_repeated(&self, name: Name) -> bool
        ensures { result ≡ is_repeated (get nat_eq self.now.places) name }
    {
        is_reserved(name.id)
            || match self.places.get(&name.id).copied() {
                Some(at) => at < name.at,
                None => false,
            }
    }
}

/// Adds the names of a scope that can't be declared or stand before.
pub fn add_repeats(
    alloc: Global,
    names: &[Name],
    found: &mut ListOf<Placed>,
) -> Result<(), AllocError>
    ensures { OnOk result (found.new ≡ found.old ++ repeats names.now) }
{
    let places = Places::of(alloc, names)?;
    for name in names {
        if places.is_repeated(*name) {
            found.push(Placed {
                at: name.at,
                code: 301,
            })?;
        }
    }
    Ok(())
}
