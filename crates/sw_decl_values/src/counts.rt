//! How often names stand in a list.
use indexmap::IndexMap;
use std::alloc::{AllocError, Global};
use sw_tree::Name;

/// How often a name stands in a list that has it.
#[derive(Clone, Copy)]
pub enum Times {
    Once,
    /// Twice or more often.
    More,
}

/// How often each name of a list stands there, by id.
#[derive(Drop)]
pub struct Counts {
    pub times: IndexMap<u32, Times>,
}

impl Counts {
    ghost use Rattle.std.specs.Prelude.{◌≡◌, ◌==◌, ℕ, Some, nat_eq, IfOk, OnOk, if◌then◌else◌};
    ghost use Rattle.indexmap.specs.IndexMap.{get};
    ghost use Rattle.sw_decl_values.specs.Counts.{is_once, one_more, times_in};

    /// Notes that a name stands in the list.
    fn note(&mut self, name: Name) -> Result<(), AllocError>
        ensures { OnOk result ((id : ℕ) → get nat_eq self.new.times id
            ≡ (if name.id == id then Some (one_more (get nat_eq self.old.times id))
            else get nat_eq self.old.times id)) }
    {
        let times = match self.times.get(&name.id).copied() {
            None => Times::Once,
            Some(_) => Times::More,
        };
        self.times.insert(name.id, times)?;
        Ok(())
    }

    /// How often the names of a list stand there.
    pub fn of(alloc: Global, names: &[Name]) -> Result<Counts, AllocError>
        ensures { IfOk result (λ counts. (id : ℕ)
            → get nat_eq counts.times id ≡ times_in names.now id) }
    {
        let mut counts = Counts {
            times: IndexMap::new(alloc),
        };
        for name in names {
            counts.note(*name)?;
        }
        Ok(counts)
    }

    /// Whether a name stands in the list exactly once.
    pub fn has_once(&self, id: u32) -> bool
        ensures { result ≡ is_once (get nat_eq self.now.times id) }
    {
        match self.times.get(&id).copied() {
            None => false,
            Some(Times::Once) => true,
            Some(Times::More) => false,
        }
    }
}
