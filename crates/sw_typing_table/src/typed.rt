//! The types and meanings of nodes by key.
use indexmap::IndexMap;
use std::alloc::{AllocError, Global};
use sw_list::ListOf;
use sw_types::Ty;
use sw_typing_rules::{Meaning, Row};

/// The types of a program's nodes and what its names, members and calls mean, by key.
#[derive(Drop)]
pub struct Typed {
    pub types: IndexMap<u32, Ty>,
    pub meanings: IndexMap<u32, Meaning>,
}

impl Typed {
    ghost use Rattle.std.specs.Prelude.{◌≡◌, ◌==◌, ◌∷◌, ℕ, [], Some, None, nat_eq, IfOk, OnOk};
    ghost use Rattle.std.specs.Prelude.{if◌then◌else◌};
    ghost use Rattle.std.specs.Option.{option_copied};
    ghost use Rattle.indexmap.specs.IndexMap.{get};
    ghost use Rattle.sw_decl_words.specs.Words.{or_else};
    ghost use Rattle.sw_typing_table.specs.Typed.{meaning_in, type_in};

    /// The type of the expression, place or variable with this key.
    pub fn ty_at(&self, at: u32) -> Option<&Ty>
        ensures { option_copied result ≡ get nat_eq self.now.types at }
    {
        self.types.get(&at)
    }

    /// What the name, member or call with this key means.
    pub fn meaning_at(&self, at: u32) -> Option<Meaning>
        ensures { result ≡ get nat_eq self.now.meanings at }
    {
        self.meanings.get(&at).copied()
    }

    /// Notes a type, where none is noted of the key.
    fn note_type(&mut self, at: u32, ty: Ty) -> Result<(), AllocError>
        ensures types { OnOk result ((key : ℕ) → get nat_eq self.new.types key
            ≡ or_else (get nat_eq self.old.types key) (if at == key then Some ty else None)) }
        ensures meanings { OnOk result (self.new.meanings ≡ self.old.meanings) }
    {
        if !self.types.contains_key(&at) {
            self.types.insert(at, ty)?;
        }
        Ok(())
    }

    /// Notes a meaning, where none is noted of the key.
    fn note_meaning(&mut self, at: u32, meaning: Meaning) -> Result<(), AllocError>
        ensures meanings { OnOk result ((key : ℕ) → get nat_eq self.new.meanings key
            ≡ or_else (get nat_eq self.old.meanings key)
            (if at == key then Some meaning else None)) }
        ensures types { OnOk result (self.new.types ≡ self.old.types) }
    {
        if !self.meanings.contains_key(&at) {
            self.meanings.insert(at, meaning)?;
        }
        Ok(())
    }

    /// Notes what a row says.
    fn note(&mut self, row: Row) -> Result<(), AllocError>
        ensures types { OnOk result ((key : ℕ) → get nat_eq self.new.types key
            ≡ or_else (get nat_eq self.old.types key) (type_in (row ∷ []) key)) }
        ensures meanings { OnOk result ((key : ℕ) → get nat_eq self.new.meanings key
            ≡ or_else (get nat_eq self.old.meanings key) (meaning_in (row ∷ []) key)) }
    {
        match row {
            Row::Typed { at, ty } => self.note_type(at, ty),
            Row::Means { at, meaning } => self.note_meaning(at, meaning),
            Row::Ill { .. } => Ok(()),
        }
    }

    /// The types and meanings that rows say.
    #[tactic(auto, using(crate::proofs::AnswerLemmas::type_more, crate::proofs::AnswerLemmas::meaning_more))]
    pub fn of(alloc: Global, rows: ListOf<Row>) -> Result<Typed, AllocError>
        ensures types { IfOk result (λ typed. (key : ℕ)
            → get nat_eq typed.types key ≡ type_in rows key) }
        ensures meanings { IfOk result (λ typed. (key : ℕ)
            → get nat_eq typed.meanings key ≡ meaning_in rows key) }
    {
        let mut typed = Typed {
            types: IndexMap::new(alloc),
            meanings: IndexMap::new(alloc),
        };
        for row in rows.into_vec() {
            typed.note(row)?;
        }
        Ok(typed)
    }
}
