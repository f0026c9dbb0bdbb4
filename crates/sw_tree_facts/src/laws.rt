//! Laws, without code: of which trees the definitions hold.
ghost use Rattle.std.specs.Prelude.{◌≡◌, ◌≢◌, ◌↔◌, ◌+◌, IsSome, IsTrue, List, [], ◌∷◌, ◌++◌};
ghost use Rattle.sw_tree.specs.Place.{is_place};
ghost use Rattle.sw_tree.specs.declared.decl.Decl.{Decl};
ghost use Rattle.sw_tree.specs.declared.decl.Decl.TheVariants.{Global};
ghost use Rattle.sw_tree.specs.declared.decl.PropTree.{PropTree};
ghost use Rattle.sw_tree.specs.declared.expr.Expr.{Expr};
ghost use Rattle.sw_tree.specs.declared.stmt.Block.{Block};
ghost use Rattle.sw_tree_facts.specs.Parts.{ChainsHaveOperators, TasksTakeNothing};
ghost use Rattle.sw_tree_facts.specs.Parts.{of_expr, of_block, of_decls};
ghost use Rattle.sw_tree_facts.specs.Sizes.{expr_size, read_alone, size_of};
ghost use Rattle.sw_tree_facts.specs.Unwritten.{AreWritten, block_unwritten, expr_unwritten};
ghost use Rattle.sw_tree_facts.specs.Values.{AreValued};

/// A tree has neither of the two forms that `AreWritten` rules out exactly where no body of a task
/// in it has a parameter and each chain in it has an operator, however deep they stand. Other trees
/// that no text writes, as an `if` without arms, aren't ruled out. Lists of declarations can be
/// taken apart.
pub fn written_trees_lack_two_forms()
    ensures tasks { (decls : List Decl) → AreWritten decls → TasksTakeNothing (of_decls decls) }
    ensures chains { (decls : List Decl) → AreWritten decls → ChainsHaveOperators (of_decls decls) }
    ensures nothing_else { (decls : List Decl) → TasksTakeNothing (of_decls decls)
        → ChainsHaveOperators (of_decls decls) → AreWritten decls }
    ensures appended { (before after : List Decl)
        → AreWritten (before ++ after) ↔ (AreWritten before × AreWritten after) }
    // the same of an expression and of a block
    ensures exprs { (expr : Expr) → (expr_unwritten expr ≡ [])
        ↔ (TasksTakeNothing (of_expr expr) × ChainsHaveOperators (of_expr expr)) }
    ensures blocks { (block : Block) → (block_unwritten block ≡ [])
        ↔ (TasksTakeNothing (of_block block) × ChainsHaveOperators (of_block block)) }
{}

/// Each global variable is to have a first value, and nothing is asked of any other declaration.
/// Lists of declarations can be taken apart.
pub fn globals_need_values()
    ensures global { (prop : PropTree) → AreValued (Global prop ∷ []) ↔ IsSome prop.value }
    ensures other { (decl : Decl) → ((prop : PropTree) → decl ≢ Global prop)
        → AreValued (decl ∷ []) }
    ensures appended { (before after : List Decl)
        → AreValued (before ++ after) ↔ (AreValued before × AreValued after) }
    ensures none { AreValued [] }
{}

/// A place adds nothing to the size of a program, whether it is read or assigned to. Lists of
/// declarations can be taken apart.
pub fn sizes_add_up()
    ensures places { (expr : Expr) → IsTrue (is_place expr) → expr_size expr ≡ read_alone 0 }
    ensures appended { (before after : List Decl)
        → size_of (before ++ after) ≡ size_of before + size_of after }
    ensures none { size_of [] ≡ 0 }
{}
