ghost use Rattle.std.specs.Prelude.{◌≡◌, ℕ, List};
ghost use Rattle.sw_graph.specs.declared.graph.Graph.{Graph};
ghost use Rattle.sw_hb.specs.declared.ordering.OrderReplay.{OrderReplay};
ghost use Rattle.sw_hb.specs.Replay.{IsOrderReplay};

/// Every list of items has one of the four outcomes, for every graph.
pub fn items_have_one_order()
    ensures some { (graph : Graph) (items : List ℕ)
        → (replay : OrderReplay) × IsOrderReplay graph items replay }
    ensures one { (graph : Graph) (items : List ℕ) (a b : OrderReplay)
        → IsOrderReplay graph items a → IsOrderReplay graph items b → a ≡ b }
{}
