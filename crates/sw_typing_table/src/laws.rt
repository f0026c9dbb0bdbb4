//! Laws, without code: what the tables of types and meanings have is what is said of a program.
ghost use Rattle.std.specs.Prelude.{◌≡◌, ℕ, List, None, Some, nat_eq};
ghost use Rattle.indexmap.specs.IndexMap.{get};
ghost use Rattle.sw_tree.specs.declared.decl.Decl.{Decl};
ghost use Rattle.sw_types.specs.declared.ty.Ty.{Ty};
ghost use Rattle.sw_typing_rules.specs.Programs.{HasMeaning, HasType};
ghost use Rattle.sw_typing_rules.specs.Worlds.{World};
ghost use Rattle.sw_typing_rules.specs.declared.row.Meaning.{Meaning};
ghost use Rattle.sw_typing_table.specs.Typed.{IsTyped};
ghost use Rattle.sw_typing_table.specs.declared.typed.Typed as answers;

/// A type that is found by a key is one that the node with this key has, and where none is found no
/// node with this key has a type. The same holds of meanings.
#[tactic(auto, using(crate::proofs::Looking::type_is, crate::proofs::Looking::untyped, crate::proofs::Looking::meaning_is, crate::proofs::Looking::unmeant))]
pub fn keys_find_what_nodes_have()
    ensures types { (world : World) (decls : List Decl) (typed : answers.Typed)
        → IsTyped world decls typed → (at : ℕ) (ty : Ty)
        → get nat_eq typed.types at ≡ Some ty → HasType world decls at ty }
    ensures untyped { (world : World) (decls : List Decl) (typed : answers.Typed)
        → IsTyped world decls typed → (at : ℕ) (ty : Ty)
        → get nat_eq typed.types at ≡ None → HasType world decls at ty → ⊥ }
    ensures meanings { (world : World) (decls : List Decl) (typed : answers.Typed)
        → IsTyped world decls typed → (at : ℕ) (meaning : Meaning)
        → get nat_eq typed.meanings at ≡ Some meaning → HasMeaning world decls at meaning }
    ensures unmeant { (world : World) (decls : List Decl) (typed : answers.Typed)
        → IsTyped world decls typed → (at : ℕ) (meaning : Meaning)
        → get nat_eq typed.meanings at ≡ None → HasMeaning world decls at meaning → ⊥ }
{}
