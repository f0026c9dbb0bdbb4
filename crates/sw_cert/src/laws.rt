//! Laws, without code: certificates as texts of lines of numbers, and which numbers may stand where
//! in a line.
ghost use Rattle.std.specs.Prelude.{◌≡◌, ℕ, ◌+◌, ◌<◌, ◌↔◌, Some, List, [], ◌∷◌, ◌++◌, length};
ghost use Rattle.std.specs.Prelude.{slice_get, Result, Ok};
ghost use Rattle.sw_dictation.specs.Lines.{IsText, MayFollow, IsReadable};
ghost use Rattle.sw_graph.specs.declared.graph.Graph.{Graph};
ghost use Rattle.sw_region_flow.specs.Breaches.{AreBreaches};
ghost use Rattle.sw_cert.specs.Certificate.{start, IsCertificate, AreClasses, pair_numbers};
ghost use Rattle.sw_cert.specs.declared.line.Spot.{Spot};
ghost use Rattle.sw_cert.specs.Choices.{RisesTo, HasBlock, MayBeNext, ClosesCount, RiseTo};
ghost use Rattle.sw_cert.specs.Choices.{MayBePair, ClosesPair, HasLine, HasClasses};
ghost use Rattle.sw_cert.specs.Form.{certificate_form, AreFit};
ghost use Rattle.sw_cert.specs.Verified.{IsAccepted, Verified};
ghost use Rattle.sw_cert.specs.declared.line.Extent.{Extent};
ghost use Rattle.sw_cert.specs.declared.line.Line.{Line};
ghost use Rattle.sw_cert.specs.declared.line.Pair.{Pair};
ghost use Rattle.sw_cert.specs.declared.verdict.CertFault.{CertFault};

/// Certificates are the texts of the form.
pub fn certificates_are_texts()
    ensures lines { (extents : List Extent) (bytes : List ℕ)
        → IsText (certificate_form extents) start bytes
        ↔ ((lines : List Line) × IsCertificate extents bytes lines) }
    ensures readable { (extents : List Extent) → IsReadable (certificate_form extents) }
{}

/// Which numbers may stand behind the first numbers of a line, and what closes them.
pub fn numbers_follow()
    ensures function { (extents : List Extent) (spot : Spot) → AreFit extents → (n closer : ℕ)
        → MayFollow (certificate_form extents) spot [] n closer
        ↔ ((closer ≡ 32) × HasBlock extents spot n) }
    ensures block { (extents : List Extent) (spot : Spot) (function : ℕ) (extent : Extent)
        → AreFit extents → slice_get extents function ≡ Some extent → (n closer : ℕ)
        → MayFollow (certificate_form extents) spot (function ∷ []) n closer
        ↔ ((closer ≡ 32) × (n < extent.blocks) × RisesTo spot function n) }
    ensures elements { (extents : List Extent) (spot : Spot) (function block : ℕ)
        (extent : Extent) → AreFit extents → HasLine extents spot function block extent
        → (n closer : ℕ)
        → MayFollow (certificate_form extents) spot (function ∷ block ∷ []) n closer
        ↔ ((closer ≡ 32) × (n ≡ extent.elements)) }
    ensures class { (extents : List Extent) (spot : Spot) (function block : ℕ)
        (extent : Extent) (classes : List ℕ) → AreFit extents
        → HasLine extents spot function block extent → length classes < extent.elements
        → AreClasses classes → (n closer : ℕ)
        → MayFollow (certificate_form extents) spot
        (function ∷ block ∷ extent.elements ∷ classes) n closer
        ↔ ((closer ≡ 32) × MayBeNext classes n) }
    ensures count { (extents : List Extent) (spot : Spot) (function block : ℕ)
        (extent : Extent) (classes : List ℕ) → AreFit extents
        → HasLine extents spot function block extent → HasClasses extent classes
        → (n closer : ℕ)
        → MayFollow (certificate_form extents) spot
        (function ∷ block ∷ extent.elements ∷ classes) n closer ↔ ClosesCount extent n closer }

    // Behind some pairs, the last of which has the rank before `to`, where `left` are to come.
    ensures element { (extents : List Extent) (spot : Spot) (function block : ℕ)
        (extent : Extent) (classes : List ℕ) (known : List Pair) (to left : ℕ) → AreFit extents
        → HasLine extents spot function block extent → HasClasses extent classes
        → RiseTo extent 0 known to → 0 < left → (n closer : ℕ)
        → MayFollow (certificate_form extents) spot (function ∷ block ∷ extent.elements
        ∷ (classes ++ (length known + left) ∷ pair_numbers known)) n closer
        ↔ ((closer ≡ 32) × ((pair : Pair) × (pair.element ≡ n) × MayBePair extent to left pair)) }
    ensures site { (extents : List Extent) (spot : Spot) (function block : ℕ)
        (extent : Extent) (classes : List ℕ) (known : List Pair) (to left element : ℕ)
        → AreFit extents → HasLine extents spot function block extent
        → HasClasses extent classes → RiseTo extent 0 known to → 0 < left → (n closer : ℕ)
        → MayFollow (certificate_form extents) spot (function ∷ block ∷ extent.elements
        ∷ (classes ++ (length known + left) ∷ (pair_numbers known ++ element ∷ []))) n closer
        ↔ (ClosesPair left closer
        × MayBePair extent to left (record { element = element; site = n })) }
{}

/// All bytes are verified in one way.
pub fn texts_are_verified_in_one_way()
    ensures some { (graph : Graph) (bytes : List ℕ)
        → (result : Result (Unit {0}) CertFault) × Verified graph bytes result }
    ensures one { (graph : Graph) (bytes : List ℕ) (a b : Result (Unit {0}) CertFault)
        → Verified graph bytes a → Verified graph bytes b → a ≡ b }
{}

/// The answer is Ok exactly if the bytes are a certificate of the graph that gives each function a
/// closed annotation in which each test passes.
pub fn accepted_certificates_are_ok()
    ensures { (graph : Graph) (bytes : List ℕ)
        → Verified graph bytes (Ok tt) ↔ IsAccepted graph bytes }
{}

/// A graph of which a certificate is accepted has no region breach.
pub fn accepted_certificates_show_no_breach()
    ensures { (graph : Graph) (bytes : List ℕ) → IsAccepted graph bytes → AreBreaches graph [] }
{}
