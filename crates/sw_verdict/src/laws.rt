ghost use Rattle.std.specs.Prelude.{◌≡◌, ◌≢◌, ◌≤◌, ◌⊎◌, ℕ, List, [], length};
ghost use Rattle.std.specs.List.{AllByRecursion};
ghost use Rattle.std.specs.List.Sorted.{IsStrictlySortedBy};
ghost use Rattle.sw_graph.specs.declared.graph.Graph.{Graph};
ghost use Rattle.sw_breach.specs.declared.Breach.{Breach};
ghost use Rattle.sw_breach.specs.Codes.{IsCode};
ghost use Rattle.sw_breach.specs.Order.{breach_cmp};
ghost use Rattle.sw_decls.specs.declared.signature.AsyncDefault.{AsyncDefault};
ghost use Rattle.sw_region_flow.specs.Breaches.{AreBreaches};
ghost use Rattle.sw_region_flow.specs.Passing.{IsPassed};
ghost use Rattle.sw_verdict.specs.ActorNames.{HasActorNames};
ghost use Rattle.sw_verdict.specs.Phases.{Finds, IsGraphOf, Phase, Races, Sharing, all_phases};
ghost use Rattle.sw_verdict.specs.Phases.{phases_to_sharing, phases_to_size};
ghost use Rattle.sw_verdict.specs.Verdict.{Accepts, Breaches, Refuses};

/// Under each default for asynchronous functions every text is accepted or refused, and never both.
/// A text has one list of breaches, by position and then by code, each with a code that has a
/// message. A phase finds one breach at most, but for those of sharing and of races, which find all.
pub fn texts_have_one_verdict()
    ensures decided { (rule : AsyncDefault) (text : List ℕ)
        → Accepts rule text ⊎ Refuses rule all_phases text }
    ensures never_both { (rule : AsyncDefault) (text : List ℕ) → Accepts rule text
        → ¬ (Refuses rule all_phases text) }
    ensures one_list { (rule : AsyncDefault) (phases : List Phase) (text : List ℕ)
        (a b : List Breach) → Breaches rule phases text a → Breaches rule phases text b → a ≡ b }
    ensures one_breach { (rule : AsyncDefault) (phase : Phase) (text : List ℕ)
        (list : List Breach) → phase ≢ Sharing → phase ≢ Races → Finds rule phase text list
        → length list ≤ 1 }
    ensures in_order { (rule : AsyncDefault) (phases : List Phase) (text : List ℕ)
        (list : List Breach) → Breaches rule phases text list
        → IsStrictlySortedBy breach_cmp list }
    ensures codes { (rule : AsyncDefault) (phases : List Phase) (text : List ℕ)
        (list : List Breach) → Breaches rule phases text list
        → AllByRecursion (λ breach. IsCode breach.code) list }
{}

/// Under each default the phases up to the size of functions find no breach in a text, or one of
/// them does, and never both. They find none in an accepted text. A text in which they find none
/// has one graph.
pub fn texts_have_one_graph()
    ensures decided { (rule : AsyncDefault) (text : List ℕ) → Breaches rule phases_to_size text []
        ⊎ Refuses rule phases_to_size text }
    ensures never_both { (rule : AsyncDefault) (text : List ℕ)
        → Breaches rule phases_to_size text [] → ¬ (Refuses rule phases_to_size text) }
    ensures accepted { (rule : AsyncDefault) (text : List ℕ) → Accepts rule text
        → Breaches rule phases_to_size text [] }
    ensures some_graph { (rule : AsyncDefault) (text : List ℕ)
        → Breaches rule phases_to_size text [] → (graph : Graph) × IsGraphOf rule text graph }
    ensures one_graph { (rule : AsyncDefault) (text : List ℕ) (a b : Graph)
        → IsGraphOf rule text a → IsGraphOf rule text b → a ≡ b }
{}

/// A text that shares no value that may not be shared, and whose graph has no region breach, is
/// accepted.
pub fn texts_without_breaches_are_accepted()
    ensures { (rule : AsyncDefault) (text : List ℕ) (graph : Graph)
        → Breaches rule phases_to_sharing text [] → IsGraphOf rule text graph
        → AreBreaches graph [] → Accepts rule text }
{}

/// In the graph of a text that is accepted under a default each test of the regions passes, at each
/// point of each function: what is used was given away on no way there, and what is given away is
/// nothing that others may hold (SE-0414).
pub fn accepted_graphs_pass()
    ensures { (rule : AsyncDefault) (text : List ℕ) (graph : Graph) → Accepts rule text
        → IsGraphOf rule text graph → IsPassed graph }
{}

/// A text in which the phases up to the size of functions find no breach has names for its global
/// actors. No text has two lists of them.
pub fn global_actors_have_names()
    ensures some_names { (rule : AsyncDefault) (text : List ℕ) → Breaches rule phases_to_size text []
        → (names : List (List ℕ)) × HasActorNames text names }
    ensures one_list { (text : List ℕ) (a b : List (List ℕ)) → HasActorNames text a
        → HasActorNames text b → a ≡ b }
{}
