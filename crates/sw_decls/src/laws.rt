//! A law, without code: what the first breach of a program is.
ghost use Rattle.std.specs.Prelude.{◌≡◌, ◌≤◌, List, Option, Some};
ghost use Rattle.sw_tree.specs.declared.decl.Decl.{Decl};
ghost use Rattle.sw_decl_words.specs.declared.placed.Placed.{Placed};
ghost use Rattle.sw_decls.specs.Declaring.{IsFirstBreach};

/// A program has one first breach, or none; its code is one of those of declarations.
pub fn programs_have_one_first_breach()
    ensures some { (decls : List Decl) → (first : Option Placed) × IsFirstBreach decls first }
    ensures one { (decls : List Decl) (one other : Option Placed) → IsFirstBreach decls one
        → IsFirstBreach decls other → one ≡ other }
    ensures codes { (decls : List Decl) (placed : Placed) → IsFirstBreach decls (Some placed)
        → (301 ≤ placed.code) × (placed.code ≤ 307) }
{}
