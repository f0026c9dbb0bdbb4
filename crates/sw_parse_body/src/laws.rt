ghost use Rattle.std.specs.Prelude.{◌≡◌, ◌⊎◌, ◌≤◌, ℕ, List, length};
ghost use Rattle.sw_token.specs.Spelling.{IsSpelling, Spelled};
ghost use Rattle.sw_parse_decl.specs.declared.fault.ParseFault.{ParseFault};
ghost use Rattle.sw_parse_body.specs.Phrases.{Phrase, TreeOf, IsFront, IsFrontFault};

/// From any index on, tokens begin with one block within the limit of nests or have one fault, and
/// never both; the same of expressions and of types. Where the front ends, or the fault is, doesn't
/// hang on the indices of names.
pub fn tokens_have_one_front()
    ensures decided { (phrase : Phrase) (id_of : List ℕ → ℕ) (depth : ℕ) (tokens : List Spelled)
        (from : ℕ) → IsSpelling tokens → from ≤ length tokens
        → ((read : TreeOf phrase × ℕ) × IsFront phrase id_of depth tokens from read)
        ⊎ ((fault : ParseFault) × IsFrontFault phrase id_of depth tokens from fault) }
    ensures one_front { (phrase : Phrase) (id_of : List ℕ → ℕ) (depth : ℕ) (tokens : List Spelled)
        (from : ℕ) (a b : TreeOf phrase × ℕ) → IsFront phrase id_of depth tokens from a
        → IsFront phrase id_of depth tokens from b → a ≡ b }
    ensures one_fault { (phrase : Phrase) (id_of : List ℕ → ℕ) (depth : ℕ) (tokens : List Spelled)
        (from : ℕ) (a b : ParseFault) → IsFrontFault phrase id_of depth tokens from a
        → IsFrontFault phrase id_of depth tokens from b → a ≡ b }
    ensures never_both { (phrase : Phrase) (id_of : List ℕ → ℕ) (depth : ℕ) (tokens : List Spelled)
        (from : ℕ) (read : TreeOf phrase × ℕ) (fault : ParseFault)
        → IsFront phrase id_of depth tokens from read
        → ¬ (IsFrontFault phrase id_of depth tokens from fault) }
    ensures same_place { (phrase : Phrase) (f g : List ℕ → ℕ) (depth : ℕ) (tokens : List Spelled)
        (from : ℕ) → IsSpelling tokens → from ≤ length tokens → (read : TreeOf phrase × ℕ)
        → IsFront phrase f depth tokens from read
        → (tree : TreeOf phrase) × IsFront phrase g depth tokens from (tree, read.1) }
    ensures same_fault { (phrase : Phrase) (f g : List ℕ → ℕ) (depth : ℕ) (tokens : List Spelled)
        (from : ℕ) (fault : ParseFault) → IsSpelling tokens → from ≤ length tokens
        → IsFrontFault phrase f depth tokens from fault
        → IsFrontFault phrase g depth tokens from fault }
{}
