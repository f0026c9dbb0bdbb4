//! Laws, without code: the graphs of programs are placed, and clean where nothing is shared.
ghost use Rattle.std.specs.Prelude.{List};
ghost use Rattle.sw_tree.specs.CasePlaces.{CasesApart};
ghost use Rattle.sw_tree.specs.Contents.{AreKeyed};
ghost use Rattle.sw_tree.specs.declared.decl.Decl.{Decl};
ghost use Rattle.sw_graph.specs.Clean.{IsClean};
ghost use Rattle.sw_graph.specs.Placed.{IsPlaced};
ghost use Rattle.sw_graph.specs.declared.graph.Graph.{Graph};
ghost use Rattle.sw_decls.specs.declared.signature.AsyncDefault.{AsyncDefault};
ghost use Rattle.sw_typing_rules.specs.Worlds.{IsWorldOf, World};
ghost use Rattle.sw_isolation_rules.specs.Answers.{Answers, IsOnePerKey};
ghost use Rattle.sw_isolation_rules.specs.Programs.{HasKind};
ghost use Rattle.sw_lower_total_facts.specs.Programs.{IsWelltyped};
ghost use Rattle.sw_lower_first_facts.specs.Programs.{IsGraph};
ghost use Rattle.sw_lower_placed_facts.specs.Programs.{KeepsApart, KeepsUnshared};

/// In the graph of a program that keeps the rules on declarations, on types and on isolation each
/// call has the kind that its callee and its caller's isolation give; parts and global variables
/// are accessed in their isolation, but for a `let` that is read; actors, and objects of classes
/// with global actors, are made as the last of their initialisers; closures and tasks stand where
/// their isolation lets them; each body that is isolated to `self` has its own in register 0, but
/// for initialisers; and only classes have a global actor (SE-0306, SE-0316).
pub fn graphs_are_placed()
    ensures { (decls : List Decl) (rule : AsyncDefault) (world : World) (graph : Graph)
        → IsWelltyped decls rule world → CasesApart decls → KeepsApart world decls
        → IsGraph world decls graph → IsPlaced graph }
{}

/// Where such a program shares no value that may not be, its graph is clean besides: what closures
/// that may be sent capture, what calls into other isolations and tasks give, and what is read from
/// outside its isolation may cross; and so may what types that declare it hold, and global
/// variables without a global actor (SE-0302, SE-0412, SE-0430).
pub fn graphs_are_clean()
    ensures { (decls : List Decl) (rule : AsyncDefault) (world : World) (graph : Graph)
        → IsWelltyped decls rule world → CasesApart decls → KeepsApart world decls
        → KeepsUnshared world decls → IsGraph world decls graph → IsClean graph }
{}

/// Each key of a program has one kind at most: that of its call, or of its read that crosses.
pub fn keys_have_one_kind()
    ensures { (decls : List Decl) (rule : AsyncDefault) (world : World) (answers : Answers)
        → AreKeyed decls → IsWorldOf decls rule world
        → IsOnePerKey (HasKind world answers decls) }
{}
