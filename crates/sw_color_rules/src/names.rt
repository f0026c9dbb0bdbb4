use std::marker::Model;
use sw_list::ListOf;

/// Numbers of which some were merged. Contracts see for each number which is left of it, the lowest
/// of those that were merged with it. A number is kept with a lower one into which it was merged, or
/// with itself or a higher one if it is left.
#[derive(Debug, Drop)]
pub struct Names {
    pub parents: ListOf<usize>,
}

impl Model for Names {
    ghost use Rattle.std.specs.Prelude.{ℕ, List};
    ghost use Rattle.sw_color_rules.specs.Parents.{roots};

    ghost Value = { List ℕ };

    ghost view = { λ s. roots s.parents };
}
