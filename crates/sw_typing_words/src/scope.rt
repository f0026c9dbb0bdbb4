ghost use Rattle.std.specs.Prelude.{◌≡◌, ◌==◌, ℕ, true, Some, is_some, nat_eq, OnOk, OnErr};
ghost use Rattle.std.specs.Prelude.{if◌then◌else◌};
ghost use Rattle.indexmap.specs.IndexMap.{get};

use indexmap::IndexMap;
use std::alloc::{AllocError, Global};
use std::marker::Model;
use sw_list::ListOf;
use sw_typing_rules::Var;

/// The places of the innermost variables, by the ids of their names.
type Places = IndexMap<u32, usize>;

/// A variable, and the place of the one that it hides, if there is one.
#[derive(Drop)]
struct Entry {
    var: Var,
    hides: Option<usize>,
}

/// The visible variables and those that they hide, the innermost last. Contracts see them as their
/// list.
#[derive(Drop)]
pub struct Scope {
    entries: ListOf<Entry>,
    newest: Places,
}

impl Model for Scope {
    ghost use Rattle.std.specs.Prelude.{List, nat_eq};
    ghost use Rattle.std.specs.Coded.{coded_list};
    ghost use Rattle.indexmap.specs.IndexMap.{get};
    ghost use Rattle.sw_typing_rules.specs.contracts.scope.Var as variable;
    ghost use Rattle.sw_typing_rules.specs.declared.scope.Var.{Var};
    ghost use Rattle.sw_typing_words.specs.Scopes.{IsScope, vars_in};

    ghost Value = { List Var };

    ghost coded = { coded_list variable.the_row.coded };

    ghost view = { λ s. vars_in s.entries };

    ghost invariant = { λ s. IsScope s.entries (get nat_eq s.newest) };
}

/// The id of a variable's name, and the place of the variable that it hides.
fn freed(entry: Entry) -> (u32, Option<usize>)
    ensures { result ≡ (entry.var.name, entry.hides) }
{
    (entry.var.name, entry.hides)
}

/// Notes the place of the innermost variable of a name.
fn note(table: &mut Places, id: u32, place: usize) -> Result<(), AllocError>
    ensures ok { OnOk result ((other : ℕ) → get nat_eq table.new other
        ≡ (if id == other then Some place else get nat_eq table.old other)) }
    ensures err { OnErr result ((other : ℕ)
        → get nat_eq table.new other ≡ get nat_eq table.old other) }
{
    table.insert(id, place)?;
    Ok(())
}

/// Notes the place of what is the innermost variable of a name once the one noted is left.
fn note_left(table: &mut Places, id: u32, place: Option<usize>)
    requires { is_some (get nat_eq table.old id) ≡ true }
    ensures { (other : ℕ) → get nat_eq table.new other
        ≡ (if id == other then place else get nat_eq table.old other) }
{
    match place {
        None => {
            table.swap_remove(&id);
        }
        Some(place) => match table.insert(id, place) {
            Ok(_) => {}
            Err(_) => unreachable!(),
        },
    }
}

impl Scope {
    ghost use Rattle.std.specs.Prelude.{◌≡◌, ◌++◌, ◌∷◌, ◌-◌, [], length, take, OnOk, OnErr};
    ghost use Rattle.std.specs.Option.{option_copied};
    ghost use Rattle.sw_typing_rules.specs.Words.{local};

    /// No variable.
    pub fn new(alloc: Global) -> Scope
        ensures { result ≡ [] }
    {
        Scope {
            entries: ListOf::new(alloc),
            newest: IndexMap::new(alloc),
        }
    }

    /// How many variables there are, those that are hidden too.
    pub fn len(&self) -> usize
        ensures { result ≡ length self.now }
    {
        self.entries.len()
    }

    /// The innermost variable with this name, in a time that doesn't grow with their number.
    pub fn find(&self, id: u32) -> Option<&Var>
        ensures { option_copied result ≡ local self.now id }
    {
        match self.newest.get(&id).copied() {
            None => None,
            Some(place) => Some(&self.entries.at(place).var),
        }
    }

    /// Adds a variable, which hides those of its name. Where memory runs out it is dropped.
    pub fn declare(&mut self, var: Var) -> Result<(), AllocError>
        ensures ok { OnOk result (self.new ≡ self.old ++ var ∷ []) }
        ensures err { OnErr result (self.new ≡ self.old) }
    {
        let id = var.name;
        let place = self.entries.len();
        let hides = self.newest.get(&id).copied();
        self.entries.push(Entry { var, hides })?;
        match note(&mut self.newest, id, place) {
            Ok(()) => Ok(()),
            Err(error) => {
                let _ = self.entries.pop();
                Err(error)
            }
        }
    }

    /// Drops the last variable, if there is one: what it hid is visible again.
    fn leave(&mut self)
        ensures { self.new ≡ take (length self.old - 1) self.old }
    {
        if let Some(last) = self.entries.pop() {
            let (id, place) = freed(last);
            note_left(&mut self.newest, id, place);
        }
    }

    /// Keeps the first `count` variables and drops the others, in a time that is linear in these;
    /// where there are fewer all stay.
    pub fn truncate(&mut self, count: usize)
        ensures { self.new ≡ take count self.old }
    {
        while self.len() > count {
            self.leave();
        }
    }
}
