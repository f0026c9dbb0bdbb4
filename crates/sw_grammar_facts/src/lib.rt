//! Laws and lemmas, without code: the declarations of a spelling make a program. Their nodes have
//! keys of their own, which tell scopes, the words of cases differ, global variables have values,
//! texts can write the trees (no task's body has a parameter, each chain has an operator), names
//! have texts, there are no more declarations than tokens, and the size of the program is bounded by
//! the number of tokens. The crate knows the grammar's forms and what a tree holds, and which texts
//! names have. It knows no parser.
#![tactic(auto)]

ghost use Rattle.std.specs.Prelude.{◌≡◌, ℕ, ◌*◌, ◌≤◌, ◌<◌, List, length, codes};
ghost use Rattle.sw_token.specs.Spelling.{Spelled};
ghost use Rattle.sw_tree.specs.CasePlaces.{CasesApart};
ghost use Rattle.sw_tree.specs.Contents.{AreKeyed, AreNamed};
ghost use Rattle.sw_tree.specs.Names.{id_in, int_id, value_id};
ghost use Rattle.sw_tree.specs.Scopes.{AreScoped};
ghost use Rattle.sw_tree.specs.declared.decl.Decl.{Decl};
ghost use Rattle.sw_tree_facts.specs.Sizes.{size_of};
ghost use Rattle.sw_tree_facts.specs.Unwritten.{AreWritten};
ghost use Rattle.sw_tree_facts.specs.Values.{AreValued};
ghost use Rattle.sw_grammar.specs.Around.{index_in};
ghost use Rattle.sw_grammar.specs.Program.{Spells};
ghost use Rattle.sw_grammar_facts.specs.Interned.{AreInterned};

/// The declarations that a spelling spells have keys of their own. Each global variable has a value.
/// No body of a task has a parameter, and each chain has an operator. Where ids are looked up in
/// texts, of which one has the id of `value`, each name of the declarations has a text. Where these
/// have all names that a tree of the tokens may have, the words of the cases of an enum differ, in
/// place or in name, and where `Int` is their first too, the keys tell for each variable that a
/// closure uses whether it is declared around the closure or in it.
pub fn spelled_declarations_are_programs()
    ensures keyed { (id_of : List ℕ → ℕ) (decls : List Decl) (tokens : List Spelled)
        → Spells id_of decls tokens → AreKeyed decls }
    ensures apart { (texts : List (List ℕ)) (decls : List Decl) (tokens : List Spelled)
        → AreInterned texts tokens → Spells (index_in texts) decls tokens → CasesApart decls }
    ensures scoped { (texts : List (List ℕ)) (decls : List Decl) (tokens : List Spelled)
        → AreInterned texts tokens → id_in texts (codes "Int") ≡ int_id
        → Spells (index_in texts) decls tokens → AreScoped decls }
    ensures valued { (id_of : List ℕ → ℕ) (decls : List Decl) (tokens : List Spelled)
        → Spells id_of decls tokens → AreValued decls }
    ensures written { (id_of : List ℕ → ℕ) (decls : List Decl) (tokens : List Spelled)
        → Spells id_of decls tokens → AreWritten decls }
    ensures named { (texts : List (List ℕ)) (decls : List Decl) (tokens : List Spelled)
        → value_id < length texts → Spells (index_in texts) decls tokens → AreNamed texts decls }
{}

/// Each declaration of a spelling has a token of its own.
pub fn spelled_declarations_are_few()
    ensures { (id_of : List ℕ → ℕ) (decls : List Decl) (tokens : List Spelled)
        → Spells id_of decls tokens → length decls ≤ length tokens }
{}

/// The size of the declarations of a spelling is no more than sixteen for each token.
pub fn spelled_declarations_are_small()
    ensures { (id_of : List ℕ → ℕ) (decls : List Decl) (tokens : List Spelled)
        → Spells id_of decls tokens → size_of decls ≤ 16 * length tokens }
{}
