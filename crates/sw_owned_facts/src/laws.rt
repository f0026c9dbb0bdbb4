//! The laws.
ghost use Rattle.std.specs.Prelude.{◌≡◌, ◌≢◌, ◌⊎◌, ℕ, List, Option, None, Some};
ghost use Rattle.sw_graph.specs.declared.graph.Graph.{Graph};
ghost use Rattle.sw_graph.specs.Clean.{IsClean};
ghost use Rattle.sw_graph.specs.Supplied.{IsSupplied};
ghost use Rattle.sw_color_rules.specs.declared.colored.Colored.{Colored};
ghost use Rattle.sw_color_rules.specs.declared.colors.Owner.{Owner};
ghost use Rattle.sw_color_rules.specs.declared.colors.Owner.TheVariants.{Job};
ghost use Rattle.sw_color_rules.specs.Machine.{colored_reach, colored_step};
ghost use Rattle.sw_partition.specs.Regions.{Regions};
ghost use Rattle.sw_owner_facts.specs.View.{Element, Frame as Spot};
ghost use Rattle.sw_late_facts.specs.Alike.{job_of};
ghost use Rattle.sw_secure_job_facts.specs.Begins.{AreAnnotated};
ghost use Rattle.sw_owned_facts.specs.Holding.{HasLive, IsRunning, colour_with, owner_by};
ghost use Rattle.sw_owned_facts.specs.Owned.{Owned};
ghost use Rattle.sw_owned_facts.specs.Taking.{MayTake};

/// Whatever the items, the memory of the state of the coloured machine that they lead to is owned.
pub fn coloured_states_are_owned()
    ensures { (graph : Graph) → IsClean graph → IsSupplied graph
        → (states : ℕ → List (Option Regions)) → AreAnnotated graph states → (items : List ℕ)
        → Owned graph states (colored_reach graph items) }
{}

/// Where the memory of a state is owned, running jobs whose top frames have one colour in live
/// elements are one job. That is of frames that aren't closing.
pub fn owned_jobs_share_no_colour()
    ensures { (graph : Graph) (states : ℕ → List (Option Regions)) (colored : Colored)
        → Owned graph states colored → (p q : Spot) (x y : Element) (colour : ℕ)
        → IsRunning colored.state p → IsRunning colored.state q
        → HasLive graph states colored p x colour → HasLive graph states colored q y colour
        → p.job ≡ q.job }
{}

/// Whatever the items, an actor keeps its colours in the next step, and so does a global actor. So
/// colours of two of them never become one, and what becomes one with an actor's colour is the
/// actor's.
pub fn actors_keep_their_colours()
    ensures kept { (graph : Graph) → IsClean graph → IsSupplied graph
        → (states : ℕ → List (Option Regions)) → AreAnnotated graph states
        → (items : List ℕ) (item n : ℕ) (one : Owner) → job_of (Some one) ≡ None
        → owner_by (colored_reach graph items) n ≡ Some one
        → owner_by (colored_step graph (colored_reach graph items) item) n ≡ Some one }
    ensures apart { (graph : Graph) → IsClean graph → IsSupplied graph
        → (states : ℕ → List (Option Regions)) → AreAnnotated graph states
        → (items : List ℕ) (item n m : ℕ) (one other : Owner) → job_of (Some one) ≡ None
        → job_of (Some other) ≡ None → owner_by (colored_reach graph items) n ≡ Some one
        → owner_by (colored_reach graph items) m ≡ Some other
        → colour_with (colored_step graph (colored_reach graph items) item) n
        ≡ colour_with (colored_step graph (colored_reach graph items) item) m → one ≡ other }
{}

/// A colour gets another owner in two ways only, and it was the job's then that the item steps. A
/// task hands it to the new job, or to the actor on which that begins; and what makes an actor, to
/// that actor. Any other step hands it to the actor that owns the `Here` of the job's top frame, or
/// of the frame that a call pushes. So colours of different owners become one in these ways only.
pub fn colours_meet_in_two_ways()
    ensures taken { (graph : Graph) → IsClean graph → IsSupplied graph
        → (states : ℕ → List (Option Regions)) → AreAnnotated graph states
        → (items : List ℕ) (item n : ℕ) (one other : Owner)
        → owner_by (colored_reach graph items) n ≡ Some one
        → owner_by (colored_step graph (colored_reach graph items) item) n ≡ Some other
        → one ≢ other → (one ≡ Job item) × MayTake graph (colored_reach graph items) item other }
    ensures met { (graph : Graph) → IsClean graph → IsSupplied graph
        → (states : ℕ → List (Option Regions)) → AreAnnotated graph states
        → (items : List ℕ) (item n m : ℕ) (one other : Owner)
        → owner_by (colored_reach graph items) n ≡ Some one
        → owner_by (colored_reach graph items) m ≡ Some other → one ≢ other
        → colour_with (colored_step graph (colored_reach graph items) item) n
        ≡ colour_with (colored_step graph (colored_reach graph items) item) m
        → ((one ≡ Job item) × MayTake graph (colored_reach graph items) item other)
        ⊎ ((other ≡ Job item) × MayTake graph (colored_reach graph items) item one) }
{}
