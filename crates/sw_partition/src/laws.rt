//! The laws of the operations over region states: from a greater state each makes a greater one,
//! and so what it makes of a state is one state whatever the tables were.
ghost use Rattle.std.specs.Prelude.{◌≡◌, ℕ};
ghost use Rattle.sw_partition.specs.Regions.{Regions, size_of, IsWithin, HasSomePair};
ghost use Rattle.sw_partition.specs.Effects.{IsFreshened, IsPut, IsJoined, IsGiven, IsFree};

/// `fresh` is monotone.
pub fn fresh_is_monotone()
    ensures { (x : ℕ) (a b c d : Regions) → size_of a ≡ size_of b → IsWithin a b
        → IsFreshened x a c → IsFreshened x b d → IsWithin c d }
{}

/// `put` is monotone.
pub fn put_is_monotone()
    ensures { (x y : ℕ) (a b c d : Regions) → IsWithin a b
        → IsPut x y a c → IsPut x y b d → IsWithin c d }
{}

/// `join` is monotone.
pub fn join_is_monotone()
    ensures { (x y : ℕ) (a b c d : Regions) → IsWithin a b
        → IsJoined x y a c → IsJoined x y b d → IsWithin c d }
{}

/// `give` is monotone.
pub fn give_is_monotone()
    ensures { (x site : ℕ) (a b c d : Regions) → IsWithin a b
        → IsGiven x site a c → IsGiven x site b d → IsWithin c d }
{}

/// What fails in a state fails in a greater one: a pair stays, and what is free in the greater
/// state is free in the smaller.
pub fn tests_are_monotone()
    ensures pairs { (x : ℕ) (a b : Regions) → IsWithin a b → HasSomePair a x → HasSomePair b x }
    ensures free { (x : ℕ) (a b : Regions) → IsWithin a b → IsFree b x → IsFree a x }
{}
