//! Laws, without code: what is said of the nodes of a program.
ghost use Rattle.std.specs.Prelude.{List};
ghost use Rattle.sw_tree.specs.Contents.{AreKeyed};
ghost use Rattle.sw_tree.specs.declared.decl.Decl.{Decl};
ghost use Rattle.sw_typing_rules.specs.Programs.{HasMeaning, HasType};
ghost use Rattle.sw_typing_rules.specs.Worlds.{World};
ghost use Rattle.sw_isolation_rules.specs.Answers.{IsOnePerKey};

/// Each key of a program has one type at most, and one meaning.
pub fn keys_have_one_type_and_one_meaning()
    ensures types { (world : World) (decls : List Decl) → AreKeyed decls
        → IsOnePerKey (HasType world decls) }
    ensures meanings { (world : World) (decls : List Decl) → AreKeyed decls
        → IsOnePerKey (HasMeaning world decls) }
{}
