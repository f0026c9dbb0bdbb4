ghost use Rattle.std.specs.Prelude.{ℕ, ◌≡◌, ◌<◌, List, length, Some, slice_get, bytes_eq, All};
ghost use Rattle.std.specs.Prelude.{Contains};
ghost use Rattle.std.specs.List.{IsDistinct};
ghost use Rattle.sw_tree.specs.Keys.{expr_keys};
ghost use Rattle.sw_tree.specs.NodeKey.{expr_key};
ghost use Rattle.sw_tree.specs.declared.expr.Expr.{Expr};
ghost use Rattle.sw_tree.specs.Names.{id_in, with_text, with_texts};

/// What an id says: in every list of texts it names one text, and interning changes no id that was
/// given.
pub fn ids_name_texts()
    ensures text { (texts : List (List ℕ)) (text : List ℕ) → id_in texts text < length texts
        → slice_get texts (id_in texts text) ≡ Some text }
    ensures interned { (texts : List (List ℕ)) (text : List ℕ)
        → (id_in (with_text texts text) text ≡ id_in texts text)
        × (id_in texts text < length (with_text texts text)) }
    ensures stays { (texts : List (List ℕ)) (text other : List ℕ) → id_in texts text < length texts
        → id_in (with_text texts other) text ≡ id_in texts text }
    ensures distinct { (texts : List (List ℕ)) (text : List ℕ) → IsDistinct bytes_eq texts
        → IsDistinct bytes_eq (with_text texts text) }
    // Of several texts that are interned in turn, each has an id at the end.
    ensures each { (texts more : List (List ℕ))
        → All (λ text. id_in (with_texts texts more) text < length (with_texts texts more)) more }
{}

/// The key of an expression is one of the keys of its tree.
pub fn keys_are_in_trees()
    ensures { (expr : Expr) → Contains (expr_keys expr) (expr_key expr) }
{}
