ghost use Rattle.std.specs.Prelude.{ℕ, List};
ghost use Rattle.sw_graph.specs.declared.graph.Graph.{Graph};
ghost use Rattle.sw_replay.specs.Replay.{IsRacingAt};
ghost use Rattle.sw_see_find.specs.Found.{RacesBy};

/// Some of the first items of a schedule that is found lead to a state that is racing.
pub fn found_schedules_race()
    ensures { (graph : Graph) (schedule : List ℕ) (races : RacesBy graph schedule)
        → (n : ℕ) × IsRacingAt graph races.items n }
{}
