//! Lists of variables in which one is found at once.
ghost use Rattle.std.specs.Prelude.{◌≡◌, ◌==◌, ℕ, Some, None, nat_eq, OnOk, OnErr};
ghost use Rattle.std.specs.Prelude.{if◌then◌else◌};
ghost use Rattle.indexmap.specs.IndexMap.{get};

use indexmap::IndexMap;
use std::alloc::{AllocError, Global};
use std::marker::Model;
use sw_list::ListOf;

/// The place of a variable's first entry, by its key.
type Places = IndexMap<u32, usize>;

/// Variables in the order in which they were added, as those that the closures around list: the
/// innermost last. Contracts see them as their list, where a variable that was added several times
/// stands several times.
#[derive(Drop)]
pub struct Listed {
    variables: ListOf<u32>,
    first: Places,
}

impl Model for Listed {
    ghost use Rattle.std.specs.Prelude.{◌≡◌, ℕ, List, nat_eq};
    ghost use Rattle.std.specs.Coded.{coded_list, coded_ℕ};
    ghost use Rattle.indexmap.specs.IndexMap.{get};
    ghost use Rattle.sw_isolation_captures.specs.Places.{first_place};

    ghost Value = { List ℕ };

    ghost coded = { coded_list coded_ℕ };

    ghost view = { λ s. s.variables };

    ghost invariant = { λ s. (variable : ℕ)
        → get nat_eq s.first variable ≡ first_place s.variables variable };
}

/// Notes the place of a variable.
fn note(table: &mut Places, variable: u32, place: usize) -> Result<(), AllocError>
    ensures ok { OnOk result ((other : ℕ) → get nat_eq table.new other
        ≡ (if variable == other then Some place else get nat_eq table.old other)) }
    ensures err { OnErr result ((other : ℕ)
        → get nat_eq table.new other ≡ get nat_eq table.old other) }
{
    table.insert(variable, place)?;
    Ok(())
}

/// Forgets the place of a variable.
fn forget(table: &mut Places, variable: u32)
    ensures { (other : ℕ) → get nat_eq table.new other
        ≡ (if variable == other then None else get nat_eq table.old other) }
{
    table.swap_remove(&variable);
}

impl Listed {
    ghost use Rattle.std.specs.Prelude.{◌≡◌, ◌++◌, ◌∷◌, ◌-◌, [], length, take, OnOk, OnErr};
    ghost use Rattle.sw_isolation_rules.specs.Captures.{is_among};

    /// No variable.
    pub fn new(alloc: Global) -> Listed
        ensures { result ≡ [] }
    {
        Listed {
            variables: ListOf::new(alloc),
            first: IndexMap::new(alloc),
        }
    }

    /// How many entries there are.
    pub fn len(&self) -> usize
        ensures { result ≡ length self.now }
    {
        self.variables.len()
    }

    /// Whether the variable is among them, in a time that doesn't grow with their number.
    pub fn contains(&self, variable: u32) -> bool
        ensures { result ≡ is_among self.now variable }
    {
        self.first.contains_key(&variable)
    }

    /// Adds a variable at the end. Where memory runs out the list stays as it was.
    pub fn push(&mut self, variable: u32) -> Result<(), AllocError>
        ensures ok { OnOk result (self.new ≡ self.old ++ variable ∷ []) }
        ensures err { OnErr result (self.new ≡ self.old) }
    {
        let place = self.variables.len();
        self.variables.push(variable)?;
        if self.first.contains_key(&variable) {
            return Ok(());
        }
        match note(&mut self.first, variable, place) {
            Ok(()) => Ok(()),
            Err(error) => {
                let _ = self.variables.pop();
                Err(error)
            }
        }
    }

    /// Drops the last entry, if there is one.
    fn leave(&mut self)
        ensures { self.new ≡ take (length self.old - 1) self.old }
    {
        if let Some(last) = self.variables.pop() {
            if self.first.get(&last).copied() == Some(self.variables.len()) {
                forget(&mut self.first, last);
            }
        }
    }

    /// Keeps the first `count` entries and drops the others, in a time that is linear in these;
    /// where there are fewer all stay.
    pub fn truncate(&mut self, count: usize)
        ensures { self.new ≡ take count self.old }
    {
        while self.len() > count {
            self.leave();
        }
    }
}
