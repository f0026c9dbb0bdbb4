ghost use Rattle.std.specs.Prelude.{ℕ, ◌≡◌, ◌<◌, ◌≤◌, ◌^◌, None, List, length, All, Result};
ghost use Rattle.sw_graph.specs.declared.graph.Graph.{Graph};
ghost use Rattle.sw_replay.specs.declared.text.SchedFault.{SchedFault};
ghost use Rattle.sw_replay.specs.Items.{IsItems, IsFirstFault, HasItems, position_of};
ghost use Rattle.sw_replay.specs.declared.output.Replay.{Replay};
ghost use Rattle.sw_replay.specs.Output.{output_of};
ghost use Rattle.sw_replay.specs.Replay.{IsRacingAt, IsReplay};

use crate::items::MAX_ITEMS;
use crate::text::SCHEDULE_LIMIT;

/// Every text is the text of one list of items or has one first fault, and never both. The position
/// of a first fault is that of a byte of the text, or its end.
pub fn schedule_texts_have_one_reading()
    ensures some_reading { (bytes : List ℕ)
        → (outcome : Result (List ℕ) SchedFault) × HasItems bytes outcome }
    ensures one_list { (bytes a b : List ℕ) → IsItems bytes a → IsItems bytes b → a ≡ b }
    ensures one_fault { (bytes : List ℕ) (a b : SchedFault)
        → IsFirstFault bytes a → IsFirstFault bytes b → a ≡ b }
    ensures never_both { (bytes items : List ℕ) (fault : SchedFault)
        → IsItems bytes items → ¬ IsFirstFault bytes fault }
    ensures inside { (bytes : List ℕ) (fault : SchedFault)
        → IsFirstFault bytes fault → position_of fault ≤ length bytes }
{}

/// The items of a text are numbers of 32 bits, and no more than a schedule has.
pub fn items_of_texts()
    ensures fit { (bytes items : List ℕ) → IsItems bytes items → All (λ item. item < 2 ^ 32) items }
    ensures few { (bytes items : List ℕ) → IsItems bytes items → length items ≤ MAX_ITEMS }
{}

/// Every list of items has one replay, for every graph. Where no prefix of the items leads to a
/// state that is racing, it takes all of them and finds no race, and what comes of it is the output
/// of the items.
pub fn items_have_one_replay()
    ensures some { (graph : Graph) (items : List ℕ) →
        (replay : Replay) × IsReplay graph items replay }
    ensures one { (graph : Graph) (items : List ℕ) (a b : Replay) →
        IsReplay graph items a → IsReplay graph items b → a ≡ b }
    ensures unraced { (graph : Graph) (items : List ℕ) (replay : Replay)
        → ((n : ℕ) → ¬ IsRacingAt graph items n) → IsReplay graph items replay
        → replay ≡ record { output = output_of graph items; race = None } }
{}

/// The limits that the definitions of schedules take from here.
pub fn schedule_limits()
    ensures items { MAX_ITEMS ≡ 1000000 }
    ensures bytes { SCHEDULE_LIMIT ≡ 4194304 }
{}
