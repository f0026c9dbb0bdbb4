//! The laws.
ghost use Rattle.std.specs.Prelude.{◌≡◌, ℕ, true, Option, List};
ghost use Rattle.sw_graph.specs.declared.function.Function.{Function};
ghost use Rattle.sw_graph.specs.declared.graph.Graph.{Graph};
ghost use Rattle.sw_graph.specs.Points.{Point};
ghost use Rattle.sw_value.specs.declared.effect.Effect.{Effect};
ghost use Rattle.sw_value.specs.declared.frame.Frame.{Frame};
ghost use Rattle.sw_value.specs.declared.job.Job.{Job};
ghost use Rattle.sw_value.specs.declared.state.State.{State};
ghost use Rattle.sw_partition.specs.Regions.{Regions};
ghost use Rattle.sw_owner_facts.specs.View.{Frame as Spot};
ghost use Rattle.sw_view_facts.specs.Views.{Colours};
ghost use Rattle.sw_secure_facts.specs.Executing.{Executing, MayJoin, StaysSecure};
ghost use Rattle.sw_secure_facts.specs.Executing.{is_call};

/// A call, of a function or of a closure.
pub fn calls_stay_secure()
    ensures stays { (graph : Graph) (states : ℕ → List (Option Regions)) (state : State)
        (colours : Colours) (q : Spot) (number : ℕ) (job : Job) (f : Frame) (function : Function)
        (point : Point) (e : Effect)
        → Executing graph states state colours q number job f function point e → is_call e ≡ true
        → StaysSecure graph states state colours q number f point e }
    ensures joins { (graph : Graph) (states : ℕ → List (Option Regions)) (state : State)
        (colours : Colours) (q : Spot) (number : ℕ) (job : Job) (f : Frame) (function : Function)
        (point : Point) (e : Effect)
        → Executing graph states state colours q number job f function point e → is_call e ≡ true
        → MayJoin graph state colours q number f point e }
{}
