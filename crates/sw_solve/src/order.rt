//! Lattices of finite height.
ghost use Rattle.std.specs.Prelude.{◌≡◌, ℕ, ◌+◌, ◌<◌, ◌≤◌, List, ◌↔◌, false, IsTrue, IfOk};

use crate::counter::Steps;
use std::alloc::{AllocError, Global};
use std::sync::ledger::Ledger;

/// Values with an order in which two of one size have a least upper bound.
///
/// The laws are of all values of the type. `rank` makes the height a bound: it rises strictly along
/// the order, and no value's rank is above the height of its size.
pub trait Lattice: Sized + Drop {
    /// What two values that are joined have in common, in numbers.
    ghost size: { Self → List ℕ };

    /// The order: the first value is at most the second.
    ghost le: { Self → Self → Type 0 };

    /// The two values mean the same.
    ghost alike: { Self → Self → Type 0 };

    /// How far up in the order a value stands.
    ghost rank: { Self → ℕ };

    /// How far up the values of a size can stand.
    ghost height: { List ℕ → ℕ };

    /// A second value of the same meaning.
    fn copy(&self, alloc: Global) -> Result<Self, AllocError>
        ensures alike { IfOk result (λ c. alike self.now c) }
        ensures size { IfOk result (λ c. size c ≡ size self.now) };

    /// Raises the value to the least upper bound of itself and `other`, and answers whether that
    /// changed what it means.
    fn join_with<L: Ledger>(&mut self, other: &Self, steps: &mut Steps<L>) -> bool
        requires { size self.old ≡ size other.now }
        ensures size { size self.new ≡ size self.old }
        ensures upper_self { le self.old self.new }
        ensures upper_other { le other.now self.new }
        ensures least { (z : Self) → size z ≡ size self.old
            → le self.old z → le other.now z → le self.new z }

        // A value that means the same as before is the value that was there before.
        ensures changed { IsTrue result ↔ (¬ (alike self.old self.new)) }
        ensures unchanged { result ≡ false → self.new ≡ self.old }
        ensures counted { steps.new ≡ steps.old + 1 };

    ghost reflexive: { (a : Self) → le a a };

    ghost transitive: { (a b c : Self) → le a b → le b c → le a c };

    /// Two values each at most the other mean the same.
    ghost antisymmetric: { (a b : Self) → le a b → le b a → alike a b };

    /// Values that mean the same are equal in the order.
    ghost alike_le: { (a b : Self) → alike a b → le a b × le b a };

    /// A value strictly above another has the greater rank.
    ghost rises: { (a b : Self) → size a ≡ size b → le a b → (¬ (alike a b)) → rank a < rank b };

    ghost bounded: { (a : Self) → rank a ≤ height (size a) };
}
