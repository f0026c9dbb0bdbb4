ghost use Rattle.std.specs.Prelude.{◌≡◌, ℕ, ◌<◌, ◌≤◌, ◌⊎◌, ◌↔◌, None, Some, List, [], ◌∷◌, ◌++◌};
ghost use Rattle.std.specs.Prelude.{Contains, length, slice_get, take, option_to_list};
ghost use Rattle.sw_graph.specs.declared.graph.Graph.{Graph};
ghost use Rattle.sw_value.specs.declared.race.Access.{Access};
ghost use Rattle.sw_value.specs.Reach.{reach};
ghost use Rattle.sw_value.specs.Transition.{Transition, transition_of};
ghost use Rattle.sw_before.specs.Before.{Leads, Before};
ghost use Rattle.sw_before.specs.Channels.{Channel, told_by, heard_by, IsKnown};
ghost use Rattle.sw_before.specs.Clocks.{count_of, rank_of, heard, after_event, clocks_of};
ghost use Rattle.sw_before.specs.Events.{events_of};
ghost use Rattle.sw_before.specs.Rivals.{IsLatestRival, IsUnheard, IsFirstUnheard};
ghost use Rattle.sw_before.specs.Unordered.{IsFirstUnordered, AreOrdered, AreNamed};

/// One more item adds its transition behind the others, if it has one. So what holds of one more
/// event holds of one more item.
pub fn events_grow()
    ensures one_more { (graph : Graph) (items : List ℕ) (item : ℕ)
        → events_of graph (items ++ item ∷ [])
        ≡ events_of graph items ++ option_to_list (transition_of graph (reach graph items) item) }
    ensures named { (graph : Graph) (items : List ℕ) → AreNamed (events_of graph items) }
{}

/// What happens before an event came before it, and no later event changes what happens before it.
pub fn order_stays()
    ensures rises { (events : List Transition) (p q : ℕ) → Before events p q → p < q }
    ensures stays { (events later : List Transition) (p q : ℕ) → q < length events
        → Before (events ++ later) p q ↔ Before events p q }
{}

/// An event leads to a later one exactly if it tells a channel that the later one hears. So what
/// happens before the next event is what is known on the channels that it hears; and what is known
/// on a channel grows by the next event, and by what happens before it, if it tells the channel.
/// That holds of every list of transitions, also of one that no machine goes through.
pub fn channels_carry_the_order()
    ensures leads { (a b : Transition) → Leads a b
        ↔ ((channel : Channel) × Contains (told_by a) channel × Contains (heard_by b) channel) }
    ensures next { (events : List Transition) (e : Transition) (p : ℕ)
        → Before (events ++ e ∷ []) p (length events)
        ↔ ((channel : Channel) × Contains (heard_by e) channel × IsKnown events channel p) }
    ensures known { (events : List Transition) (e : Transition) (channel : Channel) (p : ℕ)
        → IsKnown (events ++ e ∷ []) channel p
        ↔ (IsKnown events channel p ⊎ (Contains (told_by e) channel
        × ((p ≡ length events) ⊎ Before (events ++ e ∷ []) p (length events)))) }
{}

/// An event happens before another one exactly if the clock that the other one hears counts it. So
/// two numbers are compared, and no path from one to the other is looked for. The clocks are made
/// event by event (`one_more`), and count no more events of a job than there are.
pub fn clocks_decide_the_order()
    ensures order { (events : List Transition) (p q : ℕ) (a b : Transition)
        → slice_get events p ≡ Some a → slice_get events q ≡ Some b
        → Before events p q
        ↔ (rank_of a.job events p ≤ heard (clocks_of (take q events)) b a.job) }
    ensures known { (events : List Transition) (channel : Channel) (p : ℕ) (a : Transition)
        → slice_get events p ≡ Some a
        → IsKnown events channel p ↔ (rank_of a.job events p ≤ clocks_of events channel a.job) }
    ensures within { (events : List Transition) (channel : Channel) (job : ℕ)
        → clocks_of events channel job ≤ count_of job events }
    ensures one_more { (events : List Transition) (e : Transition)
        → clocks_of (events ++ e ∷ []) ≡ after_event (clocks_of events) e }
{}

/// Every list of events has one first unordered pair, or none. Later events leave it as it is.
pub fn first_pair_is_one()
    ensures decided { (events : List Transition)
        → ((a : Access) × (b : Access) × IsFirstUnordered events a b) ⊎ AreOrdered events }
    ensures one { (events : List Transition) (a b c d : Access) → IsFirstUnordered events a b
        → IsFirstUnordered events c d → (a ≡ c) × (b ≡ d) }
    ensures stays { (events later : List Transition) (a b : Access) → IsFirstUnordered events a b
        → IsFirstUnordered (events ++ later) a b }
{}

/// The first unordered pair is found event by event. As long as there is none, it is enough to look
/// at the latest rivals of the next event's access, one of each job, and to ask of each whether the
/// clock that the event hears counts it: no other access has to be kept.
pub fn first_pair_is_found_by_clocks()
    ensures quiet { (events : List Transition) (e : Transition) → AreOrdered events
        → e.accesses ≡ None → AreOrdered (events ++ e ∷ []) }
    ensures none { (events : List Transition) (e : Transition) (b : Access)
        → AreNamed (events ++ e ∷ []) → AreOrdered events → e.accesses ≡ Some b
        → ((p : ℕ) (a : Access) → IsLatestRival events b p a
        → ¬ (IsUnheard (heard (clocks_of events) e) events p a))
        → AreOrdered (events ++ e ∷ []) }
    ensures found { (events : List Transition) (e : Transition) (a b : Access) (p : ℕ)
        → AreNamed (events ++ e ∷ []) → AreOrdered events → e.accesses ≡ Some b
        → IsFirstUnheard (heard (clocks_of events) e) events b p a
        → IsFirstUnordered (events ++ e ∷ []) a b }
{}
