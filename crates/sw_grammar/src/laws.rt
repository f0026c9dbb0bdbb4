ghost use Rattle.std.specs.Prelude.{◌≡◌, ◌⊎◌, ℕ, List, Some, IsTrue, not, ◌&&◌, bytes_eq, codes};
ghost use Rattle.std.specs.Prelude.{[], ◌∷◌};
ghost use Rattle.std.specs.List.{list_any};
ghost use Rattle.sw_token.specs.declared.Fixity.TheVariants as fixities;
ghost use Rattle.sw_token.specs.Kinds.{kind_of};
ghost use Rattle.sw_token.specs.Spelling.{IsSpelling, Spelled};
ghost use Rattle.sw_grammar_forms.specs.Outcome.{stands};
ghost use Rattle.sw_grammar_forms.specs.Sets.{has, is_quoted_operator, is_name, is_at};
ghost use Rattle.sw_tree.specs.declared.decl.Decl.{Decl};
ghost use Rattle.sw_grammar.specs.Tokens.{infix_op, prefix_op, value_word, plain_word, at_word};
ghost use Rattle.sw_grammar.specs.Tokens.{plain_at_word};
ghost use Rattle.sw_grammar.specs.Program.{IsProgram, IsProgramWithin, IsTooDeep, IsUnexpected};
ghost use Rattle.sw_grammar.specs.Program.{IsFirstUnexpected};
ghost use Rattle.sw_grammar.specs.Program.{Spells, SpellsWithin};

/// Which tokens the sets have that this grammar adds to those of `sw_grammar_forms`.
pub fn grammar_sets_have_their_tokens()
    ensures infix_op { (text : List ℕ) (token : Spelled) → IsTrue (is_quoted_operator text)
        → has (infix_op text) token
        ≡ (stands fixities.Infix (Some token) && bytes_eq token.text text) }
    ensures prefix_op { (text : List ℕ) (token : Spelled) → IsTrue (is_quoted_operator text)
        → has (prefix_op text) token
        ≡ (stands fixities.Prefix (Some token) && bytes_eq token.text text) }
    ensures value_word { (token : Spelled) → has value_word token
        ≡ (is_name (kind_of token.text) && not (bytes_eq token.text (codes "Task"))) }
    ensures plain_word { (token : Spelled) → has plain_word token
        ≡ (is_name (kind_of token.text) && not (list_any (λ text. bytes_eq token.text text)
        (codes "Task" ∷ codes "Optional" ∷ []))) }
    ensures at_word { (token : Spelled) → has at_word token
        ≡ (is_at (kind_of token.text) && not (bytes_eq token.text (codes "@concurrent"))) }
    ensures plain_at_word { (token : Spelled) → has plain_at_word token
        ≡ (is_at (kind_of token.text) && not (list_any (λ text. bytes_eq token.text text)
        (codes "@main" ∷ codes "@globalActor" ∷ codes "@concurrent" ∷ []))) }
{}

/// A list of tokens spells one program or has one unexpected token or end, and never both, whatever
/// index each text of a name has.
pub fn spellings_have_one_meaning()
    ensures decided { (id_of : List ℕ → ℕ) (tokens : List Spelled) → IsSpelling tokens
        → IsProgram id_of tokens ⊎ ((n : ℕ) × IsUnexpected id_of tokens n) }
    ensures never_both { (id_of : List ℕ → ℕ) (tokens : List Spelled) (n : ℕ)
        → IsProgram id_of tokens → ¬ (IsUnexpected id_of tokens n) }
    ensures one_program { (id_of : List ℕ → ℕ) (tokens : List Spelled) (a b : List Decl)
        → Spells id_of a tokens → Spells id_of b tokens → a ≡ b }
    ensures one_unexpected { (id_of : List ℕ → ℕ) (tokens : List Spelled) (a b : ℕ)
        → IsUnexpected id_of tokens a → IsUnexpected id_of tokens b → a ≡ b }
{}

/// Within any limit of nests, a list of tokens spells one program or has one fault, and never both:
/// a token that can't be taken, or the end that comes too early, or the first token that opens a
/// nest too many where it and all before it can be taken.
pub fn spellings_have_a_depth()
    ensures decided { (id_of : List ℕ → ℕ) (depth : ℕ) (tokens : List Spelled)
        → IsSpelling tokens → IsProgramWithin id_of depth tokens
        ⊎ ((n : ℕ) × (IsFirstUnexpected id_of depth tokens n ⊎ IsTooDeep id_of depth tokens n)) }
    ensures never_unexpected { (id_of : List ℕ → ℕ) (depth : ℕ) (tokens : List Spelled) (n : ℕ)
        → IsProgramWithin id_of depth tokens → ¬ (IsFirstUnexpected id_of depth tokens n) }
    ensures never_too_deep { (id_of : List ℕ → ℕ) (depth : ℕ) (tokens : List Spelled) (n : ℕ)
        → IsProgramWithin id_of depth tokens → ¬ (IsTooDeep id_of depth tokens n) }
    ensures one_program { (id_of : List ℕ → ℕ) (depth : ℕ) (tokens : List Spelled) (a b : List Decl)
        → SpellsWithin id_of depth a tokens → SpellsWithin id_of depth b tokens → a ≡ b }
    ensures one_first_unexpected { (id_of : List ℕ → ℕ) (depth : ℕ) (tokens : List Spelled)
        (a b : ℕ)
        → IsFirstUnexpected id_of depth tokens a → IsFirstUnexpected id_of depth tokens b → a ≡ b }
    ensures one_too_deep { (id_of : List ℕ → ℕ) (depth : ℕ) (tokens : List Spelled) (a b : ℕ)
        → IsTooDeep id_of depth tokens a → IsTooDeep id_of depth tokens b → a ≡ b }
    ensures one_fault { (id_of : List ℕ → ℕ) (depth : ℕ) (tokens : List Spelled) (a b : ℕ)
        → IsFirstUnexpected id_of depth tokens a → ¬ (IsTooDeep id_of depth tokens b) }
{}
