//! Laws, without code: what the definition of all breaches of a kind says of those of a list, and
//! of the region breaches of a graph.
ghost use Rattle.std.specs.Prelude.{◌≡◌, Contains, List, []};
ghost use Rattle.std.specs.List.{AllByRecursion};
ghost use Rattle.std.specs.List.Sorted.{IsStrictlySortedBy};
ghost use Rattle.sw_breach.specs.Codes.{IsCode};
ghost use Rattle.sw_breach.specs.Order.{breach_cmp};
ghost use Rattle.sw_breach.specs.declared.Breach.{Breach};
ghost use Rattle.sw_breach.specs.declared.codes.TheConstants.{GIVEN_AWAY};
ghost use Rattle.sw_graph.specs.declared.graph.Graph.{Graph};
ghost use Rattle.sw_region_flow.specs.Breaches.{AreAll, AreBreaches};
ghost use Rattle.sw_region_flow.specs.Certified.{HasCertified};
ghost use Rattle.sw_region_flow.specs.Passing.{IsPassed};
ghost use Rattle.sw_region_ops.specs.declared.op.TheConstants.{ISOLATED_TO_ACTOR, ISOLATED_TO_TASK};
ghost use Rattle.sw_region_ops.specs.declared.op.TheConstants.{NOT_DISCONNECTED};

/// The breaches of a list have one list, by position and then by code.
pub fn lists_have_one_list_of_breaches()
    ensures some { (found : List Breach) → (list : List Breach) × AreAll (Contains found) list }
    ensures one { (found a b : List Breach) → AreAll (Contains found) a
        → AreAll (Contains found) b → a ≡ b }
    ensures in_order { (found list : List Breach) → AreAll (Contains found) list
        → IsStrictlySortedBy breach_cmp list }
{}

/// A graph has one list of region breaches, by position and then by code, each with the code of a
/// text.
pub fn graphs_have_one_list_of_breaches()
    ensures some { (graph : Graph) → (list : List Breach) × AreBreaches graph list }
    ensures one { (graph : Graph) (a b : List Breach) → AreBreaches graph a → AreBreaches graph b
        → a ≡ b }
    ensures codes { (graph : Graph) (list : List Breach) → AreBreaches graph list
        → AllByRecursion (λ breach. IsCode breach.code) list }
    ensures in_order { (graph : Graph) (list : List Breach) → AreBreaches graph list
        → IsStrictlySortedBy breach_cmp list }
{}

/// A graph has no region breach exactly where each test passes in the least annotation of the
/// points of each function: what is used was given away on no way, and what is given away is
/// nothing that others may hold.
pub fn graphs_without_breaches_pass()
    ensures passes { (graph : Graph) → AreBreaches graph [] → IsPassed graph }
    ensures no_breach { (graph : Graph) → IsPassed graph → AreBreaches graph [] }
{}

/// A graph has no region breach if each function has an annotation of its blocks that is closed and
/// in which each test passes, the least or a greater one.
pub fn certified_graphs_have_no_breach()
    ensures { (graph : Graph) → HasCertified graph → AreBreaches graph [] }
{}

/// The codes of region breaches.
pub fn region_codes()
    ensures given_away { GIVEN_AWAY ≡ 701 }
    ensures to_actor { ISOLATED_TO_ACTOR ≡ 702 }
    ensures to_task { ISOLATED_TO_TASK ≡ 703 }
    ensures result { NOT_DISCONNECTED ≡ 704 }
{}
