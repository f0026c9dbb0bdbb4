//! What is noted of nodes, in order.
ghost use Rattle.std.specs.Prelude.{◌≡◌, MatchOption};
ghost use Rattle.sw_typing_rules.specs.Doubts.{decided};
ghost use Rattle.sw_typing_rules.specs.Verdicts.{is_well};
ghost use Rattle.sw_typing_steps.specs.Places.{last_before};

use crate::codes::TYPES;
use std::alloc::{AllocError, Global};
use std::marker::Model;
use sw_list::ListOf;
use sw_types::Ty;
use sw_typing_rules::{Meaning, Row, Verdict};
use sw_typing_words::{copy_of, fits};

/// What is noted of nodes. Contracts see it as the list of its rows.
#[derive(Drop)]
pub struct Rows {
    list: ListOf<Row>,
    /// The places of the ill nodes in the list.
    ills: ListOf<usize>,
}

impl Model for Rows {
    ghost use Rattle.std.specs.Prelude.{◌≡◌, List};
    ghost use Rattle.std.specs.Coded.{coded_list};
    ghost use Rattle.sw_typing_rules.specs.contracts.row.Row as row;
    ghost use Rattle.sw_typing_rules.specs.declared.row.Row.{Row};
    ghost use Rattle.sw_typing_steps.specs.Places.{ill_places};

    ghost Value = { List Row };

    ghost coded = { coded_list row.the_row.coded };

    ghost view = { λ r. r.list };

    ghost invariant = { λ r. r.ills ≡ ill_places r.list };
}

/// Whether nothing is ill by a row.
fn is_well(row: &Row) -> bool
    ensures { result ≡ is_well row.now }
{
    match row {
        Row::Typed { .. } | Row::Means { .. } => true,
        Row::Ill { .. } => false,
    }
}

/// The row that takes the place of one in doubt, by whether the result of the body is a value other
/// than `Void`.
fn decision(valued: bool, row: &Row) -> Option<Row>
    ensures { MatchOption result (decided valued row.now ≡ row.now)
        (λ made. made ≡ decided valued row.now) }
{
    match row {
        Row::Ill {
            at,
            code,
            unless: Some(bare),
        } => Some(if valued {
            Row::Ill {
                at: *bare,
                code: TYPES,
                unless: None,
            }
        } else {
            Row::Ill {
                at: *at,
                code: *code,
                unless: None,
            }
        }),
        Row::Typed { .. } | Row::Means { .. } | Row::Ill { unless: None, .. } => None,
    }
}

/// Whether the last of these places, if there is one, stands before `start`.
#[tactic(auto, using(crate::proofs::PlaceLemmas::none_last, crate::proofs::PlaceLemmas::some_last))]
fn last_before(start: usize, places: &[usize]) -> bool
    ensures { result ≡ last_before start places.now }
{
    match places.last() {
        None => true,
        Some(place) => *place < start,
    }
}

impl Rows {
    ghost use Rattle.std.specs.Prelude.{◌≡◌, [], ◌∷◌, ◌++◌, length, take, drop, MatchOption};
    ghost use Rattle.std.specs.Prelude.{OnOk};
    ghost use Rattle.sw_typing_rules.specs.Statements.{refused};
    ghost use Rattle.sw_typing_rules.specs.Verdicts.{all_well, ill_if, ill_unless, meaning_rows};
    ghost use Rattle.sw_typing_rules.specs.Verdicts.{rows_of, variable_rows};
    ghost use Rattle.sw_typing_steps.specs.Steps.{decided_since};
    ghost use Rattle.std.specs.Prelude.{◌<◌, ◌+◌};

    /// Nothing is noted yet.
    #[tactic(auto, using(crate::proofs::PlaceLemmas::no_places))]
    pub fn new(alloc: Global) -> Rows
        ensures { result ≡ [] }
    {
        Rows {
            list: ListOf::new(alloc),
            ills: ListOf::new(alloc),
        }
    }

    pub fn len(&self) -> usize
        ensures { result ≡ length self.now }
    {
        self.list.len()
    }

    /// Moves all that is noted out.
    pub fn into_list(self) -> ListOf<Row>
        ensures { result ≡ self }
    {
        let Rows { list, .. } = self;
        list
    }

    /// Whether no node is ill by what is noted from the place `start` on, in constant time.
    #[tactic(auto, using(crate::proofs::PlaceLemmas::well_after))]
    pub fn well_since(&self, start: usize) -> bool
        ensures { result ≡ all_well (drop start self.now) }
    {
        last_before(start, self.ills.as_slice())
    }

    /// Notes one thing.
    #[tactic(auto, using(crate::proofs::PlaceLemmas::pushed_ill, crate::proofs::PlaceLemmas::pushed_well))]
    pub fn push(&mut self, row: Row) -> Result<(), AllocError>
        ensures { OnOk result (self.new ≡ self.old ++ row ∷ []) }
    {
        let at = self.list.len();
        let well = is_well(&row);
        self.list.push(row)?;
        if !well {
            if let Err(error) = self.ills.push(at) {
                self.list.truncate(at);
                return Err(error);
            }
        }
        Ok(())
    }

    /// Takes back what was noted last.
    #[tactic(auto, using(crate::proofs::PlaceLemmas::popped_ill, crate::proofs::PlaceLemmas::pushed_well, crate::proofs::PlaceLemmas::popped_none))]
    fn pop(&mut self) -> Option<Row>
        ensures { MatchOption result ((self.old ≡ []) × (self.new ≡ []))
            (λ last. self.old ≡ self.new ++ last ∷ []) }
    {
        let row = self.list.pop()?;
        if !is_well(&row) {
            self.ills.pop();
        }
        Some(row)
    }

    /// Keeps the first `count` and drops the others, in a time that is linear in these; where
    /// there are fewer all stay.
    pub fn truncate(&mut self, count: usize)
        ensures { self.new ≡ take count self.old }
    {
        while self.len() > count {
            self.pop();
        }
    }

    /// Decides a doubt, if the row at an index has one.
    #[tactic(auto, using(crate::proofs::DoubtLemmas::decided_places, crate::proofs::DoubtLemmas::since_next, crate::proofs::DoubtLemmas::since_same))]
    fn decide_at(&mut self, valued: bool, index: usize)
        requires { index < length self.old }
        ensures many { length self.new ≡ length self.old }
        ensures left { decided_since (index + 1) valued self.new
            ≡ decided_since index valued self.old }
    {
        if let Some(made) = decision(valued, self.list.at(index)) {
            self.list.set(index, made);
        }
    }

    /// Decides all doubts from the place `start` on, by whether the result of the body is a value
    /// other than `Void`. Takes no time if no node is ill there.
    #[tactic(auto, using(crate::proofs::DoubtLemmas::since_end))]
    pub fn decide(&mut self, start: usize, valued: bool)
        ensures { self.new ≡ decided_since start valued self.old }
    {
        if self.well_since(start) {
            return;
        }
        for index in start..self.len() {
            self.decide_at(valued, index);
        }
    }

    /// Notes that a node is ill, if it `fails`; in doubt, `unless` a `return` is.
    pub fn note_unless(
        &mut self,
        fails: bool,
        at: u32,
        code: u16,
        unless: Option<u32>,
    ) -> Result<(), AllocError>
        ensures { OnOk result (self.new ≡ self.old ++ ill_unless fails at code unless) }
    {
        if fails {
            self.push(Row::Ill { at, code, unless })?;
        }
        Ok(())
    }

    /// Notes that a node is ill, if it `fails`.
    pub fn note_ill(&mut self, fails: bool, at: u32, code: u16) -> Result<(), AllocError>
        ensures { OnOk result (self.new ≡ self.old ++ ill_if fails at code) }
    {
        self.note_unless(fails, at, code, None)
    }

    /// Notes the type of a variable, if it has one.
    pub fn note_type(&mut self, alloc: Global, at: u32, ty: &Option<Ty>) -> Result<(), AllocError>
        ensures { OnOk result (self.new ≡ self.old ++ variable_rows at ty.now) }
    {
        match ty {
            None => Ok(()),
            Some(ty) => {
                let ty = copy_of(alloc, ty)?;
                self.push(Row::Typed { at, ty })
            }
        }
    }

    /// Notes what a name means, if it means something.
    pub fn note_meaning(&mut self, at: u32, meaning: Option<Meaning>) -> Result<(), AllocError>
        ensures { OnOk result (self.new ≡ self.old ++ meaning_rows at meaning) }
    {
        match meaning {
            None => Ok(()),
            Some(meaning) => self.push(Row::Means { at, meaning }),
        }
    }

    /// Notes what a rule says of a node.
    pub fn note_verdict(
        &mut self,
        alloc: Global,
        at: u32,
        verdict: &Verdict,
    ) -> Result<(), AllocError>
        ensures { OnOk result (self.new ≡ self.old ++ rows_of at verdict.now) }
    {
        match verdict {
            Verdict::Has(ty) => {
                let ty = copy_of(alloc, ty)?;
                self.push(Row::Typed { at, ty })
            }
            Verdict::Fails(code) => self.note_ill(true, at, *code),
            Verdict::Held => Ok(()),
        }
    }

    /// Notes that a value of this type, if it has one, isn't accepted, where it isn't.
    pub fn note_refused(&mut self, at: u32, ty: &Option<Ty>, wanted: &Ty) -> Result<(), AllocError>
        ensures { OnOk result (self.new ≡ self.old ++ refused at ty.now wanted.now) }
    {
        match ty {
            None => Ok(()),
            Some(ty) => self.note_ill(!fits(ty, wanted), at, TYPES),
        }
    }
}
