ghost use Rattle.std.specs.Prelude.{◌≡◌, List, ℕ, Some, IsTrue, not, ◌&&◌, bytes_eq};
ghost use Rattle.std.specs.List.{list_any, list_all};
ghost use Rattle.sw_token.specs.declared.Fixity.{Fixity};
ghost use Rattle.sw_token.specs.Kinds.{kind_of};
ghost use Rattle.sw_token.specs.Spelling.{Spelled};
ghost use Rattle.sw_grammar_forms.specs.Outcome.{stands};
ghost use Rattle.sw_grammar_forms.specs.Sets.{Set, has, is_quoted, is_quoted_operator, is_name};
ghost use Rattle.sw_grammar_forms.specs.Sets.{is_integer, is_at, quoted, one_of, standing, word, integer};
ghost use Rattle.sw_grammar_forms.specs.Sets.{attribute, first_only, not_first};

/// Which tokens the sets have that grammars are written with.
pub fn sets_have_their_tokens()
    ensures quoted { (text : List ℕ) (token : Spelled) → IsTrue (is_quoted text)
        → has (quoted text) token ≡ bytes_eq token.text text }
    ensures one_of { (texts : List (List ℕ)) (token : Spelled) → IsTrue (list_all is_quoted texts)
        → has (one_of texts) token ≡ list_any (λ text. bytes_eq token.text text) texts }
    ensures standing { (fixity : Fixity) (text : List ℕ) (token : Spelled)
        → IsTrue (is_quoted_operator text) → has (standing fixity text) token
        ≡ (stands fixity (Some token) && bytes_eq token.text text) }
    ensures word { (token : Spelled) → has word token ≡ is_name (kind_of token.text) }
    ensures integer { (token : Spelled) → has integer token ≡ is_integer (kind_of token.text) }
    ensures attribute { (token : Spelled) → has attribute token ≡ is_at (kind_of token.text) }
    ensures first_only { (set : Set) (token : Spelled)
        → has (first_only set) token ≡ (has set token && token.first) }
    ensures not_first { (set : Set) (token : Spelled)
        → has (not_first set) token ≡ (has set token && not token.first) }
{}
