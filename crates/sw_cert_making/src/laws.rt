ghost use Rattle.std.specs.Prelude.{◌≡◌, ℕ, List, []};
ghost use Rattle.sw_cert.specs.Verified.{IsAccepted};
ghost use Rattle.sw_cert_making.specs.Printed.{IsLeastCertificate};
ghost use Rattle.sw_graph.specs.declared.graph.Graph.{Graph};
ghost use Rattle.sw_region_flow.specs.Breaches.{AreBreaches};

/// Each graph has one certificate with the lines of its least annotations, however long.
pub fn graphs_have_certificates()
    ensures some { (graph : Graph) → (text : List ℕ) × IsLeastCertificate graph text }
    ensures one { (graph : Graph) (text other : List ℕ) → IsLeastCertificate graph text
        → IsLeastCertificate graph other → text ≡ other }
{}

/// A certificate that is made for a graph without region breaches is accepted.
pub fn printed_certificates_are_accepted()
    ensures { (graph : Graph) (text : List ℕ) → AreBreaches graph []
        → IsLeastCertificate graph text → IsAccepted graph text }
{}
