//! What follows from the laws of a lattice.
ghost use Rattle.std.specs.Prelude.{List, length, ◌≤◌};
ghost use Rattle.sw_solve.specs.Chain.{IsRising};

use crate::order::Lattice;

/// No chain of values of one size that rises strictly has more steps than the height of the size.
pub fn chains_are_short<T: Lattice>()
    ensures { (first : T) (rest : List T)
        → IsRising T.size T.le T.alike first rest → length rest ≤ T.height (T.size first) }
{}
