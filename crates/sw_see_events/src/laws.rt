ghost use Rattle.std.specs.Prelude.{◌≡◌, ℕ, List, map};
ghost use Rattle.sw_graph.specs.declared.graph.Graph.{Graph};
ghost use Rattle.sw_before.specs.Events.{events_of};
ghost use Rattle.sw_replay.specs.Replay.{IsReplay};
ghost use Rattle.sw_see_events.specs.Happenings.{happenings, noted, noted_of};
ghost use Rattle.sw_see_events.specs.Watches.{IsWatched};
ghost use Rattle.sw_see_events.specs.declared.watching.Watched.{Watched};

/// The happenings of items are their events, in order: each has the job and the access of one.
pub fn happenings_are_events()
    ensures { (graph : Graph) (items : List ℕ)
        → map noted (happenings graph items) ≡ map noted_of (events_of graph items) }
{}

/// What is watched of items is their replay.
pub fn watches_are_replays()
    ensures { (graph : Graph) (items : List ℕ) (watched : Watched)
        → IsWatched graph items watched → IsReplay graph items watched.replay }
{}
