//! The region state and its operations.
ghost use Rattle.std.specs.Prelude.{◌≡◌, ◌≢◌, ℕ, ◌<◌, ◌≤◌, length, Contains, ◌↔◌, IsTrue, IsSome};
ghost use Rattle.std.specs.Prelude.{IfSome, IfOk};
ghost use Rattle.std.specs.List.Sorted.{IsStrictlyIncreasing};
ghost use Rattle.sw_partition.specs.Regions.{size_of, Together, HasPair, HasSomePair};
ghost use Rattle.sw_partition.specs.Regions.{IsWithin};
ghost use Rattle.sw_partition.specs.Effects.{IsBlank, IsFree, IsLeastSite, IsFreshened, IsPut};
ghost use Rattle.sw_partition.specs.Effects.{IsJoined, IsGiven, IsGivenOne, IsClassed};
ghost use Rattle.sw_partition.specs.Tables.{AreLabels};

use crate::labels::{first_with, is_coarser, numbers, relabel, release, replace, unite};
use crate::words::{
    clear, copy, covers, fill, first_bit, is_set, mark, mark_class, words_for, zeros,
};
use std::alloc::{AllocError, Global};
use std::marker::Model;
use std::sync::ledger::Ledger;
use sw_solve::{Lattice, Steps};

/// A region state over elements from 0 on, of which element 0 is `Here`, and over sites: an
/// equivalence of the elements, and pairs of an element and a site that gave it away.
///
/// A change passes over a table of the elements or a row of bits for each, and takes no memory.
/// Contracts speak of `Together` and `HasPair`, of how many elements there are, and of the sites.
#[derive(Drop)]
pub struct Partition {
    labels: Vec<u32>,
    sites: Vec<u32>,
    words: Vec<u64>,
}

impl Model for Partition {
    ghost use Rattle.sw_partition.specs.Regions.{Regions};
    ghost use Rattle.sw_partition.specs.Tables.{AreTables};

    ghost Value = { Regions };

    ghost view = { λ p. record {
      labels = p.labels.items;
      sites = p.sites.items;
      words =
          p.words.items;
    } };

    ghost invariant = { λ p. AreTables p.labels.items p.sites.items p.words.items };
}

impl Partition {
    /// The elements below `elements`, each alone, and no pairs; pairs may come to be with these
    /// sites.
    pub fn new(alloc: Global, elements: u32, sites: &[u32]) -> Result<Partition, AllocError>
        requires elements { 0 < elements }
        requires sites { IsStrictlyIncreasing sites.now }
        ensures { IfOk result (λ p. IsBlank elements sites.now p) }
    {
        let width = words_for(sites.len());
        Ok(Partition {
            labels: numbers(alloc, elements)?,
            sites: Vec::from_slice(alloc, sites)?,
            words: zeros(alloc, elements as usize, width)?,
        })
    }

    /// The least site that gave the element away; none where nothing did.
    pub fn need(&self, x: u32) -> Option<u32>
        requires { x < length self.now.labels }
        ensures given { IsSome result ↔ HasSomePair self.now x }
        ensures least { IfSome result (λ site. IsLeastSite self.now x site) }

        // `Here` is never given away.
        ensures here { ¬ (HasSomePair self.now 0) }
    {
        let width = words_for(self.sites.len());
        let column = first_bit(&self.words, x as usize * width, width)?;
        Some(self.sites[column])
    }

    /// Whether the element may be given away: it has no pair, and is not with `Here`.
    pub fn is_free(&self, x: u32) -> bool
        requires { x < length self.now.labels }
        ensures { IsTrue result ↔ IsFree self.now x }
    {
        self.need(x).is_none() && self.labels[x as usize] != self.labels[0]
    }

    /// The element leaves its class and loses its pairs.
    pub fn fresh(&mut self, x: u32)
        requires element { x < length self.old.labels }
        requires not_here { x ≢ 0 }
        ensures { IsFreshened x self.old self.new }
    {
        let width = words_for(self.sites.len());
        release(&mut self.labels, x as usize);
        clear(&mut self.words, x as usize * width, width);
    }

    /// The element leaves its class, loses its pairs, and becomes as `y` is: with it, and with its
    /// pairs. Nothing changes where `x` is `y`.
    pub fn put(&mut self, x: u32, y: u32)
        requires element { x < length self.old.labels }
        requires not_here { x ≢ 0 }
        requires other { y < length self.old.labels }
        ensures { IsPut x y self.old self.new }
    {
        if x == y {
            return;
        }
        let width = words_for(self.sites.len());
        release(&mut self.labels, x as usize);
        self.labels[x as usize] = self.labels[y as usize];
        copy(
            &mut self.words,
            y as usize * width,
            x as usize * width,
            width,
        );
    }

    /// The classes of the two elements unite.
    pub fn join(&mut self, x: u32, y: u32)
        requires element { x < length self.old.labels }
        requires other { y < length self.old.labels }
        ensures { IsJoined x y self.old self.new }
    {
        let from = self.labels[y as usize];
        let to = self.labels[x as usize];
        if from != to {
            relabel(&mut self.labels, from, to);
        }
    }

    /// Every element of the class but `Here` gets a pair with the site.
    pub fn give(&mut self, x: u32, site: u32)
        requires element { x < length self.old.labels }
        requires not_here { x ≢ 0 }
        requires site { Contains self.old.sites site }
        ensures { IsGiven x site self.old self.new }
    {
        let width = words_for(self.sites.len());
        let column = self.sites.binary_search(&site).unwrap();
        let label = self.labels[x as usize];
        mark_class(&mut self.words, &self.labels, label, width, column);
    }

    /// The element gets a pair with the site, and no other of its class does.
    pub fn give_one(&mut self, x: u32, site: u32)
        requires element { x < length self.old.labels }
        requires not_here { x ≢ 0 }
        requires site { Contains self.old.sites site }
        ensures { IsGivenOne x site self.old self.new }
    {
        let width = words_for(self.sites.len());
        let column = self.sites.binary_search(&site).unwrap();
        let row = x as usize * width;
        mark(&mut self.words, row + column / 64, column % 64);
    }

    /// The classes become those of the list, which has for each element one element of its class,
    /// the same for all of a class. `class_of` gives such a list.
    pub fn set_classes(&mut self, classes: &[u64])
        requires elements { length classes.now ≡ length self.old.labels }
        requires classes { AreLabels classes.now }
        ensures { IsClassed classes.now self.old self.new }
    {
        replace(&mut self.labels, classes);
    }

    /// How many elements there are.
    pub fn elements(&self) -> u32
        ensures { result ≡ length self.now.labels }
    {
        self.labels.len() as u32
    }

    /// The sites, in rising order.
    pub fn sites(&self) -> &[u32]
        ensures value { result.now ≡ self.now.sites }
        ensures rising { IsStrictlyIncreasing result.now }
    {
        self.sites.as_slice()
    }

    /// The least element of the element's class.
    pub fn class_of(&self, x: u32) -> u32
        requires { x < length self.now.labels }
        ensures class { Together self.now x result }
        ensures least { (y : ℕ) → Together self.now x y → result ≤ y }
    {
        first_with(&self.labels, self.labels[x as usize]) as u32
    }

    /// Whether the element has a pair with the site.
    pub fn has(&self, x: u32, site: u32) -> bool
        requires element { x < length self.now.labels }
        requires site { Contains self.now.sites site }
        ensures { IsTrue result ↔ HasPair self.now x site }
    {
        let width = words_for(self.sites.len());
        let column = self.sites.binary_search(&site).unwrap();
        is_set(&self.words, x as usize * width, column)
    }

    /// Whether the other state is included in this one: its equivalence and its set of pairs.
    pub fn includes(&self, other: &Partition) -> bool
        requires { size_of other.now ≡ size_of self.now }
        ensures { IsTrue result ↔ IsWithin other.now self.now }
    {
        is_coarser(&self.labels, &other.labels) && covers(&self.words, &other.words)
    }
}

impl Lattice for Partition {
    ghost use Rattle.sw_partition.specs.Regions.{size_of, IsWithin, IsSameState};
    ghost use Rattle.sw_partition.specs.Rank.{rank_of, height_of};
    ghost use Rattle.sw_partition.specs.Laws.{within_refl, within_trans, within_both, same_within};
    ghost use Rattle.sw_partition.specs.Laws.{rank_rises, rank_bound};

    ghost size = { size_of };

    ghost le = { IsWithin };

    ghost alike = { IsSameState };

    ghost rank = { rank_of };

    ghost height = { height_of };

    fn copy(&self, alloc: Global) -> Result<Partition, AllocError> {
        Ok(Partition {
            labels: Vec::from_slice(alloc, &self.labels)?,
            sites: Vec::from_slice(alloc, &self.sites)?,
            words: Vec::from_slice(alloc, &self.words)?,
        })
    }

    /// Unites the classes, with one pass over the elements, and where some unite with three more,
    /// which walk along links, and then the pairs, word by word.
    fn join_with<L: Ledger>(&mut self, other: &Partition, steps: &mut Steps<L>) -> bool {
        steps.tick();
        let united = unite(&mut self.labels, &other.labels);
        let filled = fill(&mut self.words, &other.words);
        united || filled
    }

    ghost reflexive = { within_refl };

    ghost transitive = { within_trans };

    ghost antisymmetric = { within_both };

    ghost alike_le = { same_within };

    ghost rises = { rank_rises };

    ghost bounded = { rank_bound };
}
