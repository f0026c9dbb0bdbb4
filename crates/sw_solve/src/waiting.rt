//! The list of points whose value rose.
ghost use Rattle.std.specs.Prelude.{◌≡◌, ℕ, ◌+◌, ◌<◌, ◌≤◌, List, [], ◌∷◌, Contains, sum_by, IfOk};
ghost use Rattle.std.specs.Prelude.{OnOk, OnErr, MatchOption};

use std::alloc::{AllocError, Global};
use std::collections::VecDeque;
use std::marker::Model;

/// A list of points, first in, first out. A point that is on it is not added again.
#[derive(Drop)]
pub(crate) struct Worklist {
    points: VecDeque<u32>,
    listed: Vec<bool>,
}

impl Model for Worklist {
    ghost use Rattle.std.specs.Prelude.{vec_len};
    ghost use Rattle.sw_solve.specs.Work.{Listed};
    ghost use Rattle.sw_solve.specs.Marks.{AreMarked};

    ghost Value = { Listed };

    ghost view = { λ w. record { points = w.points.items; room = vec_len w.listed } };

    ghost invariant = { λ w. AreMarked w.points.items w.listed.items };
}

impl Worklist {
    /// An empty list for the points below `room`.
    pub(crate) fn new(alloc: Global, room: u32) -> Result<Worklist, AllocError>
        ensures points { IfOk result (λ w. w.points ≡ []) }
        ensures room { IfOk result (λ w. w.room ≡ room) }
    {
        Ok(Worklist {
            points: VecDeque::new(alloc),
            listed: vec![in alloc; false; room as usize]?,
        })
    }

    /// Adds the point at the end, unless it is on the list.
    pub(crate) fn push(&mut self, point: u32) -> Result<(), AllocError>
        requires { point < self.old.room }
        ensures there { OnOk result (Contains self.new.points point) }
        ensures kept { (q : ℕ) → Contains self.old.points q → Contains self.new.points q }
        ensures weight { (weight : ℕ → ℕ)
            → sum_by weight self.new.points ≤ sum_by weight self.old.points + weight point }
        ensures room { self.new.room ≡ self.old.room }
    {
        if !self.listed[point as usize] {
            self.points.push_back(point)?;
            self.listed[point as usize] = true;
        }
        Ok(())
    }

    /// Takes the first point off the list.
    pub(crate) fn pop(&mut self) -> Option<u32>
        ensures points { MatchOption result (self.old.points ≡ [])
            (λ p. self.old.points ≡ p ∷ self.new.points) }
        ensures in_range { MatchOption result (self.old.points ≡ []) (λ p. p < self.old.room) }
        ensures room { self.new.room ≡ self.old.room }
    {
        let point = self.points.pop_front()?;
        self.listed[point as usize] = false;
        Some(point)
    }
}
