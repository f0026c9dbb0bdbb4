//! The law.
ghost use Rattle.std.specs.Prelude.{ℕ, List, [], Option};
ghost use Rattle.sw_token.specs.Spelling.{Spelled};
ghost use Rattle.sw_tree.specs.declared.decl.Decl.{Decl};
ghost use Rattle.sw_tree.specs.declared.stmt.Block.{Block};
ghost use Rattle.sw_tree.specs.declared.stmt.Stmt.TheVariants as stmts;
ghost use Rattle.sw_tree_facts.specs.Parts.{StandsIn, of_decls, of_stmt};
ghost use Rattle.sw_grammar.specs.Program.{Spells};

/// Trees may have an `if` without arms. None stands in the declarations of a spelling, at any depth.
pub fn spelled_ifs_have_arms()
    ensures { (id_of : List ℕ → ℕ) (decls : List Decl) (tokens : List Spelled)
        → Spells id_of decls tokens → (otherwise : Option Block)
        → StandsIn (of_stmt (stmts.If [] otherwise)) (of_decls decls) → ⊥ }
{}
