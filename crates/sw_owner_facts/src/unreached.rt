//! Why the invariant is more than ownership.
ghost use Rattle.std.specs.Prelude.{◌≡◌, ℕ};
ghost use Rattle.sw_owner_facts.specs.Colours.{Actor, OfActor};
ghost use Rattle.sw_owner_facts.specs.View.{Frame, Element, View, MakesActor, RunsOn};
ghost use Rattle.sw_owner_facts.specs.Owned.{IsOwned, IsStacked, IsReturnLinked, IsInitialiserLinked};
ghost use Rattle.sw_owner_facts.specs.Owned.{IsSound};
ghost use Rattle.sw_owner_facts.specs.Within.{Kept, Merged, Recoloured, BeginsClosing};
ghost use Rattle.sw_owner_facts.specs.Calls.{Returned};
ghost use Rattle.sw_owner_facts.specs.Premises.{WaitsOn};

/// Ownership lasts only together with the three facts beside it: for each of them there is a view
/// that is owned and has the other two, and a move, or two, that end its ownership. No law says
/// that no program reaches such views.
pub fn ownership_alone_is_not_kept()
    ensures without_return_link { (old new : View) × (p : Frame) × (r : ℕ)
        × IsOwned old × IsStacked old × IsInitialiserLinked old × Returned old new p r
        × (¬ (IsOwned new)) }
    ensures without_initialiser_link { (old closed new : View) × (q : Frame) × (number : ℕ)
        × (a : Actor)
        × IsOwned old × IsStacked old × IsReturnLinked old × ((old.shape q).isolation ≡ MakesActor)
        × BeginsClosing old closed q × Recoloured closed new q.job number (OfActor a)
        × (¬ (IsOwned new)) }
    ensures without_stack_shape { (old new : View) × (p : Frame) × (r : ℕ)
        × IsOwned old × IsReturnLinked old × IsInitialiserLinked old × Returned old new p r
        × (¬ (IsOwned new)) }
{}

/// A frame of a function that runs on its caller's actor may wait there while another job runs on
/// the actor and gives it memory: such views are sound, and the frame keeps what it holds.
pub fn callers_wait_on_actors()
    ensures { (old new : View) × (p q : Frame) × (a : Actor) × (x y : Element) × (number : ℕ)
        × IsSound old × WaitsOn old p a × RunsOn old q a × Merged old new q x y number (OfActor a)
        × Kept old new p }
{}
