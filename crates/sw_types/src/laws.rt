//! Laws, without code: what a recursion on shapes says, and that it ends.
ghost use Rattle.std.specs.Prelude.{◌≡◌, ℕ, ◌<◌, List, Some, slice_get};
ghost use Rattle.sw_types.specs.Cycles.{HoldsItself};
ghost use Rattle.sw_types.specs.Held.{edges_of};
ghost use Rattle.sw_types.specs.Parts.{parts_at, shape_parts};
ghost use Rattle.sw_types.specs.Paths.{AreRanked};
ghost use Rattle.sw_types.specs.Sendable.{sends_at, shape_sends};
ghost use Rattle.sw_types.specs.declared.shape.Shape.{Shape};

/// Whether a shape is Sendable is said by which of the shapes that it holds are.
#[tactic(auto, using(crate::proofs::LawLemmas::sends_by_parts))]
pub fn shapes_send_by_parts()
    ensures { (shapes : List Shape) (k : ℕ) (shape : Shape) → AreRanked (edges_of shapes)
        → slice_get shapes k ≡ Some shape
        → sends_at shapes k ≡ shape_sends (sends_at shapes) shape }
{}

/// How many parts a value of a shape has is said by how many those that it holds have.
#[tactic(auto, using(crate::proofs::LawLemmas::counted_by_parts))]
pub fn shapes_count_by_parts()
    ensures { (shapes : List Shape) (k : ℕ) (shape : Shape) → AreRanked (edges_of shapes)
        → slice_get shapes k ≡ Some shape
        → parts_at shapes k ≡ shape_parts (parts_at shapes) shape }
{}

/// Where shapes are ranked, no struct or enum holds itself.
#[tactic(auto, using(crate::proofs::RankLemmas::no_return))]
pub fn ranked_shapes_hold_others()
    ensures { (shapes : List Shape) (k : ℕ) → AreRanked (edges_of shapes)
        → ¬ HoldsItself shapes k }
{}
