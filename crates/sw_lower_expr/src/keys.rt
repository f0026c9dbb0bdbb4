//! The keys of expressions.
ghost use Rattle.std.specs.Prelude.{◌≡◌, ℕ, Option};
ghost use Rattle.sw_lower_rules.specs.Statements.{expr_code};
ghost use Rattle.sw_lower_rules.specs.Tables.{Tables};

use sw_tree::Expr;

/// The key of an expression.
pub fn key_of(tree: &Expr) -> u32
    ensures { (tables : Tables) (owner : Option ℕ)
        → result ≡ (expr_code tables owner tree.now).key }
{
    tree.key()
}
