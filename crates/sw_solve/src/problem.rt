//! Graphs of points with a step at each.
ghost use Rattle.std.specs.Prelude.{◌≡◌, ℕ, ◌<◌, List, All, IfOk};

use crate::order::Lattice;
use smallvec::SmallVec;
use std::alloc::{AllocError, Global};

/// A data-flow problem: points from 0 on, the value that enters at point 0, what the step of a
/// point makes of a value, and the points that follow a point.
///
/// The entry and the steps are relations, since code may choose among values that mean the same;
/// `monotone` and `one_entry` say that it has no other choice.
pub trait Flow {
    type Fact: Lattice;

    /// How many points there are.
    ghost count: { Self → ℕ };

    /// The size of the facts at the points.
    ghost fact_size: { Self → List ℕ };

    /// The value may be the one that enters at point 0.
    ghost enters: { Self → Self.Fact → Type 0 };

    /// The step of the point may make the second value of the first.
    ghost leads: { Self → ℕ → Self.Fact → Self.Fact → Type 0 };

    /// The points that follow a point.
    ghost successors: { Self → ℕ → List ℕ };

    /// How many points there are.
    fn points(&self) -> u32
        ensures { result ≡ count self.now };

    /// The value that enters at point 0.
    fn entry(&self, alloc: Global) -> Result<Self::Fact, AllocError>
        ensures enters { IfOk result (λ fact. enters self.now fact) }
        ensures size { IfOk result (λ fact. Self.Fact.size fact ≡ fact_size self.now) };

    /// What the step of the point makes of `before`.
    fn after(
        &self,
        alloc: Global,
        point: u32,
        before: &Self::Fact,
    ) -> Result<Self::Fact, AllocError>
        requires point { point < count self.now }
        requires size { Self.Fact.size before.now ≡ fact_size self.now }
        ensures leads { IfOk result (λ fact. leads self.now point before.now fact) }
        ensures size { IfOk result (λ fact. Self.Fact.size fact ≡ fact_size self.now) };

    /// The points that follow the point, each in range.
    fn next(&self, alloc: Global, point: u32) -> Result<SmallVec<u32, 2, Global>, AllocError>
        requires { point < count self.now }
        ensures successors { IfOk result (λ points. points.items ≡ successors self.now point) }
        ensures in_range { IfOk result (λ points. All (λ q. q < count self.now) points.items) };

    /// The values that may enter mean the same.
    ghost one_entry: { (f : Self) (a b : Self.Fact) → enters f a → enters f b → Self.Fact.le a b };

    /// A greater value before a step is a greater one after it.
    ghost monotone: { (f : Self) (p : ℕ) (a b c d : Self.Fact)
        → Self.Fact.size a ≡ fact_size f → Self.Fact.size b ≡ fact_size f
        → Self.Fact.le a b → leads f p a c → leads f p b d → Self.Fact.le c d };
}
