ghost use Rattle.std.specs.Prelude.{◌≡◌, ◌≢◌, ◌⊎◌, ℕ, List, Option, Some};
ghost use Rattle.sw_value.specs.Racing.{Racing};
ghost use Rattle.sw_value.specs.Reach.{reach};
ghost use Rattle.sw_color_rules.specs.declared.colors.Owner.{Owner};
ghost use Rattle.sw_color_rules.specs.declared.colors.Owner.TheVariants.{Job};
ghost use Rattle.sw_color_rules.specs.Machine.{colored_reach, colored_step};
ghost use Rattle.sw_partition.specs.Regions.{Regions};
ghost use Rattle.sw_secure_job_facts.specs.Begins.{AreAnnotated};
ghost use Rattle.sw_owner_facts.specs.View.{Element, Frame as Spot};
ghost use Rattle.sw_before.specs.Events.{events_of};
ghost use Rattle.sw_before.specs.Unordered.{AreOrdered};
ghost use Rattle.sw_owned_facts.specs.Holding.{HasLive, IsRunning, colour_with, owner_by};
ghost use Rattle.sw_owned_facts.specs.Owned.{Owned};
ghost use Rattle.sw_owned_facts.specs.Taking.{MayTake};

use crate::checked::Checked;

/// No state that items lead to has two running jobs about to access one location of which one
/// writes.
pub fn checked_graphs_never_race(checked: &Checked)
    ensures { (items : List ℕ) → ¬ Racing checked.now.graph (reach checked.now.graph items) }
{}

/// Of two accesses of one location by two jobs, of which one writes, the earlier one happens before
/// the later, whatever the items: by a job's own order, by what makes it, by its end that another
/// waits for, or by an actor that one leaves and another enters.
pub fn checked_graphs_order_their_accesses(checked: &Checked)
    ensures { (items : List ℕ) → AreOrdered (events_of checked.now.graph items) }
{}

/// The memory of each state of the coloured machine that items lead to is owned: the nine facts of
/// `Owned` hold of it. So the top frames of two running jobs have no colour in common in live
/// elements, if they aren't closing. That is of any annotations in which each test on regions
/// passes, and there are some.
pub fn checked_graphs_own_their_memory(checked: &Checked)
    ensures owned { (states : ℕ → List (Option Regions)) → AreAnnotated checked.now.graph states
        → (items : List ℕ)
        → ∥ Owned checked.now.graph states (colored_reach checked.now.graph items) ∥₁ }
    ensures apart { (states : ℕ → List (Option Regions)) → AreAnnotated checked.now.graph states
        → (items : List ℕ) (p q : Spot) (x y : Element) (colour : ℕ)
        → IsRunning (colored_reach checked.now.graph items).state p
        → IsRunning (colored_reach checked.now.graph items).state q
        → HasLive checked.now.graph states (colored_reach checked.now.graph items) p x colour
        → HasLive checked.now.graph states (colored_reach checked.now.graph items) q y colour
        → p.job ≡ q.job }
    ensures annotated { ∥ ((states : ℕ → List (Option Regions))
        × AreAnnotated checked.now.graph states) ∥₁ }
{}

/// A colour gets another owner in two ways only, and it was the job's then that the item steps. A
/// task hands it to the new job, or to the actor on which that begins; and what makes an actor, to
/// that actor. Any other step hands it to the actor that owns the `Here` of the job's top frame, or
/// of the frame that a call pushes. So colours of different owners become one in these ways only.
pub fn checked_colours_meet_in_two_ways(checked: &Checked)
    ensures taken { (items : List ℕ) (item n : ℕ) (one other : Owner)
        → owner_by (colored_reach checked.now.graph items) n ≡ Some one
        → owner_by (colored_step checked.now.graph (colored_reach checked.now.graph items) item) n
        ≡ Some other → one ≢ other
        → ∥ ((one ≡ Job item)
        × MayTake checked.now.graph (colored_reach checked.now.graph items) item other) ∥₁ }
    ensures met { (items : List ℕ) (item n m : ℕ) (one other : Owner)
        → owner_by (colored_reach checked.now.graph items) n ≡ Some one
        → owner_by (colored_reach checked.now.graph items) m ≡ Some other → one ≢ other
        → colour_with (colored_step checked.now.graph (colored_reach checked.now.graph items) item)
        n
        ≡ colour_with (colored_step checked.now.graph (colored_reach checked.now.graph items) item)
        m
        → ∥ (((one ≡ Job item)
        × MayTake checked.now.graph (colored_reach checked.now.graph items) item other)
        ⊎ ((other ≡ Job item)
        × MayTake checked.now.graph (colored_reach checked.now.graph items) item one)) ∥₁ }
{}
