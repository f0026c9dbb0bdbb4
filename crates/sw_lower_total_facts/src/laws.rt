//! Laws, without code: each program that keeps the rules can be lowered.
ghost use Rattle.std.specs.Prelude.{ℕ, All, List, None};
ghost use Rattle.sw_tree.specs.declared.decl.Decl.{Decl};
ghost use Rattle.sw_decl_words.specs.Placed.{IsFirstPlaced};
ghost use Rattle.sw_decls.specs.declared.signature.AsyncDefault.{AsyncDefault};
ghost use Rattle.sw_typing_rules.specs.Worlds.{World};
ghost use Rattle.sw_lower_code.specs.Whole.{Body};
ghost use Rattle.sw_lower_rules.specs.Bodies.{AreMade, AreNumbered, AreOrdered};
ghost use Rattle.sw_lower_rules.specs.Bodies.{functions_of, numbers_of, too_large_in};
ghost use Rattle.sw_lower_rules.specs.Bodies.{AreStarts, IsEntryNumber, Lacks};
ghost use Rattle.sw_lower_total_facts.specs.Proceeding.{BodyProceeds};
ghost use Rattle.sw_lower_total_facts.specs.Programs.{IsWelltyped, noted_tables};

/// The bodies of a program that keeps the rules on declarations and on types ask for nothing that
/// isn't known: each variable that they read is bound, each value has a type, each member, function
/// and getter that they use is there. Each body is found by its name, so the entry and the functions
/// that give first values have numbers. So a body is made unless its function is too large, and
/// nothing is missing in the program.
pub fn programs_can_be_lowered()
    ensures proceed { (decls : List Decl) (rule : AsyncDefault) (world : World)
        (ordered : List Body) → IsWelltyped decls rule world
        → AreOrdered (noted_tables world decls) decls ordered
        → All (BodyProceeds (numbers_of ordered)) ordered }
    ensures found { (decls : List Decl) (rule : AsyncDefault) (world : World)
        (ordered : List Body) → IsWelltyped decls rule world
        → AreOrdered (noted_tables world decls) decls ordered → AreNumbered ordered }
    ensures made { (decls : List Decl) (rule : AsyncDefault) (world : World)
        (ordered : List Body) → IsWelltyped decls rule world
        → AreOrdered (noted_tables world decls) decls ordered
        → IsFirstPlaced (too_large_in (functions_of ordered)) None → AreMade ordered }
    ensures entry { (decls : List Decl) (rule : AsyncDefault) (world : World)
        (ordered : List Body) → IsWelltyped decls rule world
        → AreOrdered (noted_tables world decls) decls ordered
        → (entry : ℕ) × IsEntryNumber decls ordered entry }
    ensures starts { (decls : List Decl) (rule : AsyncDefault) (world : World)
        (ordered : List Body) → IsWelltyped decls rule world
        → AreOrdered (noted_tables world decls) decls ordered
        → (starts : List ℕ) × AreStarts world ordered starts }
    ensures lacks_nothing { (decls : List Decl) (rule : AsyncDefault) (world : World)
        → IsWelltyped decls rule world → Lacks (noted_tables world decls) decls → ⊥ }
{}
