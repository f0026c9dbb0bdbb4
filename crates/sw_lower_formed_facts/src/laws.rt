//! Laws, without code: what the functions of programs are.
ghost use Rattle.std.specs.Prelude.{ℕ, List, None, map};
ghost use Rattle.sw_tree.specs.CasePlaces.{CasesApart};
ghost use Rattle.sw_tree.specs.Contents.{AreKeyed};
ghost use Rattle.sw_tree.specs.declared.decl.Decl.{Decl};
ghost use Rattle.sw_graph.specs.WellFormed.{IsWellFormed};
ghost use Rattle.sw_decls.specs.Declaring.{IsFirstBreach};
ghost use Rattle.sw_decls.specs.declared.signature.AsyncDefault.{AsyncDefault};
ghost use Rattle.sw_typing_rules.specs.Programs.{IsFirstIll};
ghost use Rattle.sw_typing_rules.specs.Worlds.{IsWorldOf, World};
ghost use Rattle.sw_lower_code.specs.Whole.{Body};
ghost use Rattle.sw_lower_rules.specs.Bodies.{AreMade, AreNumbered, AreOrdered};
ghost use Rattle.sw_lower_rules.specs.Bodies.{AreStarts, IsEntryNumber, functions_of, global_kind};
ghost use Rattle.sw_lower_rules.specs.Tables.{Isolation};
ghost use Rattle.sw_lower_formed_facts.specs.Programs.{tables_in};

/// The functions of a program that keeps the rules on declarations and on types are those of a
/// well-formed graph, where each is found by its name and its code runs to its end: it asks for
/// nothing that isn't known, and its function isn't too large.
pub fn programs_have_well_formed_graphs()
    ensures { (decls : List Decl) (rule : AsyncDefault) (world : World) (isolation : Isolation)
        (ordered : List Body) (entry : ℕ) (starts : List ℕ) → AreKeyed decls → CasesApart decls
        → IsFirstBreach decls None → IsWorldOf decls rule world → IsFirstIll world decls None
        → AreOrdered (tables_in world isolation decls) decls ordered → AreNumbered ordered
        → AreMade ordered → IsEntryNumber decls ordered entry → AreStarts world ordered starts
        → IsWellFormed world.shapes (map global_kind world.globals) (functions_of ordered) entry
        starts }
{}
