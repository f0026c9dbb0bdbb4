//! Laws, without code: what an item of a schedule changes, and the first state.
ghost use Rattle.std.specs.Prelude.{◌≡◌, ℕ, ◌+◌, List, [], ◌∷◌, Some, None, length, replicate};
ghost use Rattle.std.specs.Prelude.{slice_get};
ghost use Rattle.sw_tree.specs.declared.decl.Decl.{Decl};
ghost use Rattle.sw_value.specs.declared.state.TrapKind.{TrapKind};
ghost use Rattle.sw_step.specs.declared.event.Event.TheVariants.{Nothing, Trapped};
ghost use Rattle.sw_tree_work.specs.Bodies.{Bodies};
ghost use Rattle.sw_tree_work.specs.Facts.{Facts};
ghost use Rattle.sw_tree_step.specs.Items.{tree_start_of};
ghost use Rattle.sw_tree_step.specs.State.{Ready, TreeFrame, TreeJob, TreeState};
ghost use Rattle.sw_tree_step.specs.Step.{move_of, tree_event_of, tree_step_of};

/// A machine that a trap has halted stays as it is, whatever the item.
pub fn halted_machines_stay()
    ensures state { (bodies : Bodies) (state : TreeState) (j : ℕ) (trap : TrapKind × ℕ)
        → state.halted ≡ Some trap → tree_step_of bodies state j ≡ state }
    ensures event { (bodies : Bodies) (state : TreeState) (j : ℕ) (trap : TrapKind × ℕ)
        → state.halted ≡ Some trap → tree_event_of bodies state j ≡ Nothing }
{}

/// An item that names no job, a job that has ended, waits or lacks what its work needs, or one whose
/// executor another job has, changes nothing. These are just the items without an event.
pub fn idle_items_change_nothing()
    ensures stays { (bodies : Bodies) (state : TreeState) (j : ℕ)
        → move_of bodies state j ≡ None → tree_step_of bodies state j ≡ state }
    ensures silent { (bodies : Bodies) (state : TreeState) (j : ℕ)
        → move_of bodies state j ≡ None → tree_event_of bodies state j ≡ Nothing }
    ensures only { (bodies : Bodies) (state : TreeState) (j : ℕ)
        → tree_event_of bodies state j ≡ Nothing → move_of bodies state j ≡ None }
    ensures unnamed { (bodies : Bodies) (state : TreeState) (more : ℕ)
        → move_of bodies state (length state.jobs + more) ≡ None }
{}

/// An item changes no job but the one that it names, and no job goes away.
pub fn other_jobs_stay()
    ensures { (bodies : Bodies) (state : TreeState) (j i : ℕ) (job : TreeJob) → (i ≡ j → ⊥)
        → slice_get state.jobs i ≡ Some job
        → slice_get (tree_step_of bodies state j).jobs i ≡ Some job }
{}

/// A trap halts the machine with its kind and its place.
pub fn events_tell_of_traps()
    ensures { (bodies : Bodies) (state : TreeState) (j : ℕ) (kind : TrapKind) (at : ℕ)
        → tree_event_of bodies state j ≡ Trapped kind at
        → (tree_step_of bodies state j).halted ≡ Some (kind, at) }
{}

/// A program begins with no cells, with no value of a global variable, and with one job, which has not
/// run yet.
pub fn programs_begin()
    ensures cells { (facts : Facts) (decls : List Decl) → (tree_start_of facts decls).cells ≡ [] }
    ensures globals { (facts : Facts) (decls : List Decl)
        → (tree_start_of facts decls).globals ≡ replicate (length facts.world.globals) None }
    ensures jobs { (facts : Facts) (decls : List Decl) → (frames : List TreeFrame)
        × ((tree_start_of facts decls).jobs ≡ record { frames = frames; status = Ready } ∷ []) }
    ensures halted { (facts : Facts) (decls : List Decl)
        → (tree_start_of facts decls).halted ≡ None }
{}
