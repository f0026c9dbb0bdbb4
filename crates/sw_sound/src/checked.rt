ghost use Rattle.std.specs.Prelude.{◌≡◌, ◌≤◌, ◌+◌, IfOk, IsErrOf, List, []};
ghost use Rattle.sw_breach.specs.declared.Breach.{Breach};
ghost use Rattle.sw_graph.specs.Clean.{IsClean};
ghost use Rattle.sw_graph.specs.Supplied.{IsSupplied};
ghost use Rattle.sw_graph.specs.declared.graph.Graph.{Graph};
ghost use Rattle.sw_region_flow.specs.Breaches.{AreBreaches};
ghost use Rattle.sw_region_flow.specs.Passing.{IsPassed};
ghost use Rattle.sw_region_flow.specs.Work.{graph_joins};
ghost use Rattle.sw_sound.specs.Checks.{HasBreaches, IsChecked};

use std::alloc::{AllocError, Global};
use std::sync::ledger::Ledger;
use sw_breach::Breach;
use sw_graph::Graph;
use sw_list::ListOf;
use sw_region_flow::breaches;
use sw_solve::Steps;

/// A graph that is clean and supplied, and in which no test on regions fails.
#[derive(Debug, Drop)]
pub struct Checked {
    pub graph: Graph,
    pub ghost checked: { ∥ IsChecked graph ∥₁ },
}

/// Why a graph isn't checked.
#[derive(Debug, Drop)]
pub enum CertifyFault {
    /// It has these region breaches. It is handed back.
    Breached {
        graph: Graph,
        breaches: ListOf<Breach>,
    },
    /// Memory ran out.
    Memory,
}

impl From<AllocError> for CertifyFault {
    ghost use Rattle.std.specs.Prelude.{◌≡◌};
    ghost use Rattle.sw_sound.specs.declared.checked.CertifyFault.TheVariants.{Memory};

    ghost from_gives = { λ _ fault. fault ≡ Memory };

    fn from(_error: AllocError) -> CertifyFault {
        CertifyFault::Memory
    }
}

impl Checked {
    /// Looks for region breaches in a graph that is clean and supplied. `steps` counts the joins of
    /// states.
    pub fn new<L: Ledger>(
        alloc: Global,
        graph: Graph,
        steps: &mut Steps<L>,
    ) -> Result<Checked, CertifyFault>
        requires clean { IsClean graph }
        requires supplied { IsSupplied graph }
        ensures checked { IfOk result (λ checked. checked.graph ≡ graph) }
        ensures none { IfOk result (λ checked. AreBreaches graph []) }
        ensures breached { (back : Graph) (list : List Breach)
            → IsErrOf result (CertifyFault.Breached back list)
            → (back ≡ graph) × HasBreaches graph list }
        ensures joins { steps.new ≤ steps.old + graph_joins graph }
    {
        let found = ListOf::from_vec(breaches(alloc, &graph, steps)?);
        if found.is_empty() {
            Ok(Checked { graph })
        } else {
            Err(CertifyFault::Breached {
                graph,
                breaches: found,
            })
        }
    }

    /// A graph that is clean and supplied, and in which each test on regions passes.
    pub fn of_passed(graph: Graph) -> Checked
        requires clean { IsClean graph }
        requires supplied { IsSupplied graph }
        requires passed { IsPassed graph }
        ensures { result.graph ≡ graph }
    {
        Checked { graph }
    }

    /// The graph.
    pub fn graph(&self) -> &Graph
        ensures { result.now ≡ self.now.graph }
    {
        &self.graph
    }
}
