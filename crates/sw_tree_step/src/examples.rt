//! Closed examples: the events of small programs, item by item.
ghost use Rattle.std.specs.Prelude.{◌≡◌, false, true, [], ◌∷◌, ◌++◌, replicate, codes};
ghost use Rattle.sw_value.specs.declared.state.TrapKind.TheVariants.{ZeroDivisor};
ghost use Rattle.sw_value.specs.declared.value.Value.TheVariants as value;
ghost use Rattle.sw_step.specs.declared.event.Event.TheVariants as event;
ghost use Rattle.sw_tree_work.specs.Work.{Literal};
ghost use Rattle.sw_tree_step.specs.Examples.{awaits, both_of, events_of, hops, leaves_loop};
ghost use Rattle.sw_tree_step.specs.Examples.{printed, ran};

/// `false && 1 / 0 == 0` is false, and `true && 1 / 0 == 0` is a trap at the division.
pub fn right_is_skipped()
    ensures skipped { events_of (both_of (Literal (value.Bool false))) (replicate 7 0)
        ≡ event.Dispatched ∷ ran 3 ++ printed (codes "false" ∷ []) ∷ ran 1 ++ event.Nothing ∷ [] }
    ensures looked_at { events_of (both_of (Literal (value.Bool true))) (replicate 8 0)
        ≡ event.Dispatched ∷ ran 5 ++ event.Trapped ZeroDivisor 5 ∷ event.Nothing ∷ [] }
{}

/// `break` goes on with what follows the loop.
pub fn loops_are_left()
    ensures { events_of leaves_loop (replicate 9 0)
        ≡ event.Dispatched ∷ ran 5 ++ printed (codes "true" ∷ []) ∷ ran 1 ++ event.Nothing ∷ [] }
{}

/// A call of an actor's method hops to the actor and back: the job is dispatched for each.
pub fn actors_are_hopped_to()
    ensures { events_of hops (replicate 8 0)
        ≡ event.Dispatched ∷ ran 2 ++ event.Dispatched ∷ ran 1 ++ event.Dispatched ∷ ran 1
        ++ event.Nothing ∷ [] }
{}

/// A job that waits goes on when the other has ended.
pub fn tasks_are_awaited()
    ensures { events_of awaits (replicate 3 0 ++ replicate 2 1 ++ 0 ∷ [])
        ≡ event.Dispatched ∷ ran 2 ++ event.Dispatched ∷ ran 1 ++ event.Woken 1 ∷ [] }
{}
