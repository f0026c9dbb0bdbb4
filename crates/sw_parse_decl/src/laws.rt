ghost use Rattle.std.specs.Prelude.{◌≡◌, ◌⊎◌, List, All, Some, slice_get};
ghost use Rattle.sw_token.specs.Spelling.{IsSpelling, Spelled};
ghost use Rattle.sw_tree.specs.declared.decl.Decl.{Decl};
ghost use Rattle.sw_grammar.specs.Around.{index_in};
ghost use Rattle.sw_grammar_facts.specs.Interned.{texts_in};
ghost use Rattle.sw_parse_decl.specs.Programs.{IsProgramOf, IsSyntaxFault, texts_of};
ghost use Rattle.sw_parse_decl.specs.declared.fault.ParseFault.{ParseFault};

/// A list of tokens is one program within the limit of nests or has one syntax fault, and never
/// both.
pub fn tokens_have_one_answer()
    ensures decided { (tokens : List Spelled) → IsSpelling tokens
        → ((decls : List Decl) × IsProgramOf decls tokens)
        ⊎ ((fault : ParseFault) × IsSyntaxFault tokens fault) }
    ensures one_program { (tokens : List Spelled) (a b : List Decl) → IsProgramOf a tokens
        → IsProgramOf b tokens → a ≡ b }
    ensures one_fault { (tokens : List Spelled) (a b : ParseFault) → IsSyntaxFault tokens a
        → IsSyntaxFault tokens b → a ≡ b }
    ensures never_both { (tokens : List Spelled) (decls : List Decl) (fault : ParseFault)
        → IsProgramOf decls tokens → ¬ (IsSyntaxFault tokens fault) }
{}

/// Each text that the tokens give is among the texts of the program's names, and its id leads to it.
pub fn texts_have_ids()
    ensures { (tokens : List Spelled)
        → All (λ text. slice_get (texts_of tokens) (index_in (texts_of tokens) text) ≡ Some text)
        (texts_in tokens) }
{}
