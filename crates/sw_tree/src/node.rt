ghost use Rattle.std.specs.Prelude.{◌≡◌};
ghost use Rattle.sw_tree.specs.NodeKey.{expr_key, stmt_key};
ghost use Rattle.sw_tree.specs.Place.{is_place};

use crate::expr::Expr;
use crate::stmt::Stmt;

impl Expr {
    /// The key of the expression's own node, a byte offset into the source.
    #[tactic(auto, unfolding(crate::specs::NodeKey::expr_key))]
    pub fn key(&self) -> u32
        ensures { result ≡ expr_key self.now }
    {
        match self {
            Expr::Int { at, .. }
            | Expr::Bool { at, .. }
            | Expr::Me { at }
            | Expr::Prefix { at, .. }
            | Expr::Await { at, .. }
            | Expr::Spawn { at, .. }
            | Expr::Yield { at } => *at,
            Expr::Use { name }
            | Expr::Member { name, .. }
            | Expr::Call { name, .. }
            | Expr::Method { name, .. } => name.at,
            Expr::Chain { first, rest } => match rest.as_slice().last() {
                Some(link) => link.at,
                None => first.get().key(),
            },
            Expr::Fun(closure) => closure.get().at,
        }
    }

    /// Whether it is made of words, `self` and members alone, as what is assigned to is.
    #[tactic(auto, unfolding(crate::specs::Place::is_place))]
    pub fn is_place(&self) -> bool
        ensures { result ≡ is_place self.now }
    {
        match self {
            Expr::Use { .. } | Expr::Me { .. } => true,
            Expr::Member { base, .. } => base.get().is_place(),
            Expr::Int { .. }
            | Expr::Bool { .. }
            | Expr::Call { .. }
            | Expr::Method { .. }
            | Expr::Chain { .. }
            | Expr::Prefix { .. }
            | Expr::Await { .. }
            | Expr::Fun(_)
            | Expr::Spawn { .. }
            | Expr::Yield { .. } => false,
        }
    }
}

impl Stmt {
    /// The key of the statement's own node; that of its expression where it is one.
    #[tactic(auto, unfolding(crate::specs::NodeKey::stmt_key, crate::specs::NodeKey::expr_key))]
    pub fn key(&self) -> u32
        ensures { result ≡ stmt_key self.now }
    {
        match self {
            Stmt::Assign { at, .. }
            | Stmt::Discard { at, .. }
            | Stmt::While { at, .. }
            | Stmt::Switch { at, .. }
            | Stmt::Return { at, .. }
            | Stmt::Break { at }
            | Stmt::Continue { at } => *at,
            Stmt::Bind { name, .. } => name.at,
            Stmt::If { arms, .. } => match arms.as_slice().first() {
                Some(arm) => arm.at,
                None => 0,
            },
            Stmt::Plain(value) => value.key(),
        }
    }
}
