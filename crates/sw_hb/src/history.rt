//! What is kept of the events so far.
ghost use Rattle.std.specs.Prelude.{◌≡◌, ◌+◌, ◌++◌, ◌∷◌, [], Some, IfOk, OnOk, List, map};
ghost use Rattle.std.specs.Prelude.{if◌then◌else◌};
ghost use Rattle.sw_value.specs.declared.race.Place.{Place};
ghost use Rattle.sw_value.specs.Transition.{Transition};
ghost use Rattle.sw_before.specs.Clocks.{heard};
ghost use Rattle.sw_before.specs.Unordered.{AreNamed};
ghost use Rattle.sw_clocks.specs.Links.{links_of};
ghost use Rattle.sw_clocks.specs.Rows.{clocks_in};
ghost use Rattle.sw_race.specs.With.{is_same_place};
ghost use Rattle.sw_hb.specs.Entries.{noted, first_unheard};
ghost use Rattle.sw_hb.specs.History.{IsHistory, HasRoomFor, HasRoomForAccess, IsNext};
ghost use Rattle.sw_hb.specs.History.{found_first, ranked};
ghost use Rattle.sw_hb.specs.Table.{entries_at};

use crate::entries::Made;
use crate::finding::first_unheard;
use crate::table::{self, EntriesByPlace};
use indexmap::IndexMap;
use std::alloc::{AllocError, Global};
use sw_clocks::{Clocks, Links};
use sw_value::Access;

/// The clocks, the latest accesses of jobs, the first unordered pair if there is one, and how many
/// events made an access.
#[derive(Drop)]
pub struct History {
    clocks: Clocks,
    table: EntriesByPlace,
    pub first: Option<(Access, Access)>,
    pub accesses: u64,
}

impl History {
    /// There was no event.
    pub fn new(alloc: Global) -> Result<History, AllocError>
        ensures { IfOk result (IsHistory []) }
    {
        Ok(History {
            clocks: Clocks::new(alloc)?,
            table: IndexMap::new(alloc),
            first: None,
            accesses: 0,
        })
    }

    /// Makes the room that an event with these links and this access needs. Where memory runs out
    /// the history still is that of the same events.
    pub fn make_room(
        &mut self,
        alloc: Global,
        links: &Links,
        access: Option<Access>,
    ) -> Result<(), AllocError>
        ensures kept { (events : List Transition) → IsHistory events self.old
            → IsHistory events self.new }
        ensures room { OnOk result (HasRoomFor self.new links.now access) }
    {
        self.make_entry(alloc, access)?;
        self.clocks.make_room(links)
    }

    /// Makes an entry for an access, if there is one.
    fn make_entry(&mut self, alloc: Global, access: Option<Access>) -> Result<(), AllocError>
        ensures kept { (events : List Transition) → IsHistory events self.old
            → IsHistory events self.new }
        ensures room { OnOk result (HasRoomForAccess self.new access) }
    {
        match access {
            None => Ok(()),
            Some(access) => table::make_entry(alloc, &mut self.table, access.place, access.job),
        }
    }

    /// Takes in the next event. It takes no memory.
    pub fn take_in(&mut self, links: &Links, access: Option<Access>)
        requires { IsNext self.old links.now access }
        ensures { (events : List Transition) (event : Transition) → IsHistory events self.old
            → AreNamed (events ++ event ∷ []) → links_of event ≡ links.now
            → event.accesses ≡ access → IsHistory (events ++ event ∷ []) self.new }
    {
        if let Some(access) = access {
            self.take_access(links, access);
        }
        self.clocks.take_in(links);
    }

    /// Takes in the access of the next event.
    fn take_access(&mut self, links: &Links, access: Access)
        requires { IsNext self.old links.now (Some access) }
        ensures clocks { self.new.clocks ≡ self.old.clocks }
        ensures table { (t : Transition) → links_of t ≡ links.now → (p : Place)
            → entries_at self.new.table p ≡ (if is_same_place access.place p
            then map (noted (ranked (heard (clocks_in self.old.clocks) t) access))
            (entries_at self.old.table p)
            else entries_at self.old.table p) }
        ensures first { (t : Transition) → links_of t ≡ links.now
            → self.new.first ≡ found_first self.old.first access
            (first_unheard (heard (clocks_in self.old.clocks) t) access
            (entries_at self.old.table access.place)) }
        ensures accesses { self.new.accesses ≡ self.old.accesses + 1 }
    {
        let made = self.ranked(links, access);
        self.first = self.found_first(links, access);
        table::note(&mut self.table, made);
        self.accesses += 1;
    }

    /// The first unordered pair after an event with these links and this access.
    fn found_first(&self, links: &Links, access: Access) -> Option<(Access, Access)>
        ensures { (t : Transition) → links_of t ≡ links.now
            → result ≡ found_first self.now.first access
            (first_unheard (heard (clocks_in self.now.clocks) t) access
            (entries_at self.now.table access.place)) }
    {
        if self.first.is_some() {
            return self.first;
        }
        let other = first_unheard(&self.clocks, links, access, &self.table)?;
        Some((other, access))
    }

    /// An access of an event with these links, and its rank.
    fn ranked(&self, links: &Links, access: Access) -> Made
        requires { IsNext self.now links.now (Some access) }
        ensures { (t : Transition) → links_of t ≡ links.now
            → result ≡ ranked (heard (clocks_in self.now.clocks) t) access }
    {
        Made {
            rank: self.clocks.heard(links, access.job) + 1,
            access,
        }
    }
}
