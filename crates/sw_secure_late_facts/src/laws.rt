//! The laws.
ghost use Rattle.std.specs.Prelude.{◌≡◌, ℕ, false, List, Option, length};
ghost use Rattle.std.specs.List.{All};
ghost use Rattle.sw_graph.specs.declared.function.Function.{Function};
ghost use Rattle.sw_graph.specs.declared.graph.Graph.{Graph};
ghost use Rattle.sw_graph.specs.Clean.{IsClean};
ghost use Rattle.sw_graph.specs.Points.{Point};
ghost use Rattle.sw_graph.specs.Supplied.{IsSupplied};
ghost use Rattle.sw_value.specs.declared.effect.Effect.{Effect};
ghost use Rattle.sw_value.specs.declared.frame.Frame.{Frame};
ghost use Rattle.sw_value.specs.declared.job.Job.{Job};
ghost use Rattle.sw_value.specs.Effect.{is_stuck, point_effect};
ghost use Rattle.sw_value.specs.Reach.{step_of};
ghost use Rattle.sw_color_rules.specs.Changes.{after_changes};
ghost use Rattle.sw_color_rules.specs.Machine.{colored_reach, global_count};
ghost use Rattle.sw_color_rules.specs.Plans.{effect_plan, next_color};
ghost use Rattle.sw_partition.specs.Regions.{Regions};
ghost use Rattle.sw_owner_facts.specs.View.{Frame as Spot};
ghost use Rattle.sw_view_facts.specs.Standing.{StandsAt};
ghost use Rattle.sw_late_facts.specs.Late.{Late, destination_by, late_by, late_reach};
ghost use Rattle.sw_late_facts.specs.Owners.{KeepNumbers, TakesOwn};
ghost use Rattle.sw_secure_facts.specs.Painting.{Paints};
ghost use Rattle.sw_secure_facts.specs.Secure.{IsSecure};
ghost use Rattle.sw_secure_job_facts.specs.Begins.{AreAnnotated};
ghost use Rattle.sw_hue_facts.specs.Hued.{hued};
ghost use Rattle.sw_secure_late_facts.specs.LateSecure.{IsLateSecure, taking_nothing};

/// Where a late state is secure by hue and a job executes an effect, the late colours after it are,
/// by hue, what that effect may make of colours; and the state after it is secure with them.
pub fn late_effects_stay_secure()
    ensures paints { (graph : Graph) (states : ℕ → List (Option Regions)) (late : Late)
        → IsLateSecure graph states late → (q : Spot) (job : Job) (f : Frame) (function : Function)
        (point : Point) → StandsAt graph late.state q job f function point → (e : Effect)
        → point_effect graph late.state (length job.frames) f point ≡ e
        → Paints graph late.state (hued late.colors) q (next_color late.colors) f point e
        (hued (after_changes (late_by q.job (effect_plan graph late.colors q.job f point e)
        (destination_by late.colors f point e)) late.colors)) }
    ensures stays { (graph : Graph) (states : ℕ → List (Option Regions)) (late : Late)
        → IsLateSecure graph states late → (q : Spot) (job : Job) (f : Frame) (function : Function)
        (point : Point) → StandsAt graph late.state q job f function point → (e : Effect)
        → point_effect graph late.state (length job.frames) f point ≡ e → is_stuck e ≡ false
        → IsSecure graph states (step_of graph late.state q.job)
        (hued (after_changes (late_by q.job (effect_plan graph late.colors q.job f point e)
        (destination_by late.colors f point e)) late.colors)) }
{}

/// Whatever the items, the late state that they lead to is secure by hue.
pub fn late_states_are_secure()
    ensures { (graph : Graph) → IsClean graph → IsSupplied graph
        → (states : ℕ → List (Option Regions)) → AreAnnotated graph states → (items : List ℕ)
        → IsLateSecure graph states (late_reach graph items) }
{}

/// Whatever the items, in the late state that they lead to each actor owns the number that is noted
/// of its cell, and each global actor its own. What a job takes along is the job's.
pub fn late_owners_keep_their_numbers()
    ensures keep { (graph : Graph) → IsClean graph → IsSupplied graph
        → (states : ℕ → List (Option Regions)) → AreAnnotated graph states → (items : List ℕ)
        → KeepNumbers (global_count graph.functions) (late_reach graph items).colors }
    ensures take { (graph : Graph) → IsClean graph → IsSupplied graph
        → (states : ℕ → List (Option Regions)) → AreAnnotated graph states → (items : List ℕ)
        → All (TakesOwn (late_reach graph items).colors) (late_reach graph items).cargo }
{}

/// Whatever the items, the state of the coloured machine that they lead to is secure with its
/// colours by hue: its view is sound, and so no two running jobs hold one colour in their top
/// frames. It is as a late state in which no job takes anything along, and each actor owns the
/// number that is noted of its cell.
pub fn coloured_states_are_secure()
    ensures secure { (graph : Graph) → IsClean graph → IsSupplied graph
        → (states : ℕ → List (Option Regions)) → AreAnnotated graph states → (items : List ℕ)
        → IsSecure graph states (colored_reach graph items).state
        (hued (colored_reach graph items).colors) }
    ensures late { (graph : Graph) → IsClean graph → IsSupplied graph
        → (states : ℕ → List (Option Regions)) → AreAnnotated graph states → (items : List ℕ)
        → IsLateSecure graph states (taking_nothing (colored_reach graph items)) }
    ensures numbers { (graph : Graph) → IsClean graph → IsSupplied graph
        → (states : ℕ → List (Option Regions)) → AreAnnotated graph states → (items : List ℕ)
        → KeepNumbers (global_count graph.functions) (colored_reach graph items).colors }
{}
