//! Laws, without code: what the functions of programs return.
ghost use Rattle.std.specs.Prelude.{ℕ, List, None, All};
ghost use Rattle.sw_tree.specs.CasePlaces.{CasesApart};
ghost use Rattle.sw_tree.specs.Contents.{AreKeyed};
ghost use Rattle.sw_tree.specs.declared.decl.Decl.{Decl};
ghost use Rattle.sw_decls.specs.Declaring.{IsFirstBreach};
ghost use Rattle.sw_decls.specs.declared.signature.AsyncDefault.{AsyncDefault};
ghost use Rattle.sw_typing_rules.specs.Programs.{IsFirstIll};
ghost use Rattle.sw_typing_rules.specs.Worlds.{IsWorldOf, World};
ghost use Rattle.sw_graph.specs.Supplied.{ReturnsResult};
ghost use Rattle.sw_lower_code.specs.Whole.{Body};
ghost use Rattle.sw_lower_rules.specs.Bodies.{AreMade, AreNumbered, AreOrdered, functions_of};
ghost use Rattle.sw_lower_rules.specs.Tables.{Isolation};
ghost use Rattle.sw_lower_formed_facts.specs.Programs.{tables_in};

/// The functions of a program that keeps the rules on declarations and on types return their
/// results: a return of nothing that a sure way leads to stands in a function that gives nothing.
/// Each function is found by its name, and its code runs to its end.
pub fn functions_return_their_results()
    ensures { (decls : List Decl) (rule : AsyncDefault) (world : World) (isolation : Isolation)
        (ordered : List Body) → AreKeyed decls → CasesApart decls → IsFirstBreach decls None
        → IsWorldOf decls rule world → IsFirstIll world decls None
        → AreOrdered (tables_in world isolation decls) decls ordered → AreNumbered ordered
        → AreMade ordered → All ReturnsResult (functions_of ordered) }
{}
