ghost use Rattle.std.specs.Prelude.{◌≡◌, ◌+◌, ℕ, List, length, option_map, slice_get};
ghost use Rattle.sw_graph.specs.declared.graph.Graph.{Graph};
ghost use Rattle.sw_before.specs.Events.{events_of};
ghost use Rattle.sw_see_events.specs.Happenings.{happenings};
ghost use Rattle.sw_see_events.specs.declared.happening.Happening.{Happening};
ghost use Rattle.sw_see_steps.specs.Steps.{step_line, step_lines};

/// There is one line for each event of the items, and the k-th line is that of the k-th event.
pub fn lines_follow_events()
    ensures one_each { (graph : Graph) (items text : List ℕ) (names : List (List ℕ))
        → length (step_lines text names (happenings graph items)) ≡ length (events_of graph items) }
    ensures in_order { (text : List ℕ) (names : List (List ℕ)) (events : List Happening) (k : ℕ)
        → slice_get (step_lines text names events) k
        ≡ option_map (step_line text names (k + 1)) (slice_get events k) }
{}
