ghost use Rattle.std.specs.Prelude.{◌≡◌, ◌+◌, ◌<◌, Some, length, map, slice_get, bytes_eq, IfOk};
ghost use Rattle.std.specs.Prelude.{OnOk, OnErr};
ghost use Rattle.std.specs.List.{IsDistinct};
ghost use Rattle.sw_tree.specs.Names.{predeclared, id_in, with_text, with_texts};

use indexmap::IndexSet;
use std::alloc::{AllocError, Global};
use std::marker::Model;

/// The names that each program has before it declares any.
const PREDECLARED: [&str; 13] = [
    "Int",
    "Bool",
    "Void",
    "Never",
    "Task",
    "Sendable",
    "MainActor",
    "print",
    "value",
    "shared",
    "main",
    "detached",
    "yield",
];

/// The texts of a program's names, without repeats, in the order in which they were first interned.
/// A name's id is the index of its text.
#[derive(Drop)]
pub struct Names {
    texts: IndexSet<String>,
}

impl Model for Names {
    ghost use Rattle.std.specs.Prelude.{ℕ, ◌<◌, ◌^◌, List, length, map, bytes_eq, string_bytes};
    ghost use Rattle.std.specs.List.{IsDistinct};
    ghost use Rattle.std.specs.Coded.{coded_list, coded_ℕ};

    ghost Value = { List (List ℕ) };

    ghost coded = { coded_list (coded_list coded_ℕ) };

    ghost view = { λ n. map string_bytes n.texts.keys };

    ghost invariant = { λ n. IsDistinct bytes_eq (map string_bytes n.texts.keys)
        × (length (map string_bytes n.texts.keys) < 2 ^ 32) };
}

impl Names {
    /// The predeclared names alone.
    pub fn new(alloc: Global) -> Result<Names, AllocError>
        ensures { IfOk result (λ names. names ≡ predeclared) }
    {
        let mut names = Names {
            texts: IndexSet::new(alloc),
        };
        let texts: [&str; 13] = PREDECLARED;
        names.intern_all(texts.as_slice())?;
        Ok(names)
    }

    /// The number of texts.
    pub fn count(&self) -> usize
        ensures value { result ≡ length self.now }
        ensures distinct { IsDistinct bytes_eq self.now }
    {
        self.texts.len()
    }

    /// The id of a text. Where the text isn't there it comes last; where memory runs out nothing
    /// changes.
    pub fn intern(&mut self, text: &str) -> Result<u32, AllocError>
        requires { length self.old < 4294967295 }
        ensures id { IfOk result (λ id. id ≡ id_in self.old text.now) }
        ensures texts { OnOk result (self.new ≡ with_text self.old text.now) }
        ensures err { OnErr result (self.new ≡ self.old) }
    {
        let id = self.id_of(text);
        if (id as usize) < self.count() {
            return Ok(id);
        }
        let text = String::from_str(*self.texts.allocator(), text)?;
        self.texts.insert(text)?;
        Ok(id)
    }

    /// Interns each of the texts, in turn.
    fn intern_all(&mut self, texts: &[&str]) -> Result<(), AllocError>
        requires { length self.old + length texts.now < 4294967295 }
        ensures { OnOk result (self.new ≡ with_texts self.old (map (λ text. text.now) texts.now)) }
    {
        for text in texts {
            self.intern(text)?;
        }
        Ok(())
    }

    /// The id of a text, or the number of texts where it isn't there.
    pub fn id_of(&self, text: &str) -> u32
        ensures { result ≡ id_in self.now text.now }
    {
        match self.texts.get_index_of(text) {
            Some(index) => index as u32,
            None => self.texts.len() as u32,
        }
    }

    /// The text of an id that is within the names.
    pub fn text(&self, id: u32) -> &str
        requires { id < length self.now }
        ensures { slice_get self.now id ≡ Some result.now }
    {
        match self.texts.get_index(id as usize) {
            Some(text) => text.as_str(),
            None => unreachable!(),
        }
    }
}
