//! Laws, without code.
ghost use Rattle.std.specs.Prelude.{◌≡◌, List};
ghost use Rattle.sw_isolation_table.specs.Known.{answers_of};
ghost use Rattle.sw_isolation_rules.specs.Answers.{answers_in};
ghost use Rattle.sw_tree.specs.declared.decl.Decl.{Decl};
ghost use Rattle.sw_typing_table.specs.Typed.{IsTyped};
ghost use Rattle.sw_typing_table.specs.declared.typed.Typed.{Typed};
ghost use Rattle.sw_typing_rules.specs.Programs.{said};
ghost use Rattle.sw_typing_rules.specs.Worlds.{World};

/// What the tables of types and meanings answer is what is said of the program.
pub fn answers_are_those_of_the_program()
    ensures { (world : World) (decls : List Decl) (typed : Typed) → IsTyped world decls typed
        → answers_of typed ≡ answers_in (said world decls) }
{}
