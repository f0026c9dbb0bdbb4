//! The values that an initialiser gives its properties.
ghost use Rattle.std.specs.Prelude.{◌≡◌, ℕ, Option};
ghost use Rattle.sw_lower_draft.specs.Drafts.{GivesAsRun, making_of};
ghost use Rattle.sw_lower_known.specs.Knowledge.{tables_by};
ghost use Rattle.sw_lower_stmt.specs.Giving.{values_given, with_values};
ghost use Rattle.sw_lower_rules.specs.Bodies.{give_value};
ghost use Rattle.sw_lower_rules.specs.Statements.{block_code, expr_code, given_part, stmt_code};
ghost use Rattle.sw_lower_rules.specs.Tables.{Tables};
ghost use Rattle.sw_lower_uses.specs.Gathering.{each_after};

use std::alloc::Global;
use sw_graph::Operand;
use sw_list::ListOf;
use sw_lower_draft::Draft;
use sw_lower_expr::expr;
use sw_lower_known::Known;
use sw_lower_plans::CodeFault;
use sw_tree::{Block, Expr, Stmt};

/// The value that a property got, by the id of its name.
#[derive(Clone, Copy, Debug, PartialEq, Eq)]
pub struct GivenOperand {
    pub name: u32,
    pub value: Operand,
}

/// Whether it is the word `self`.
#[tactic(auto, unfolding(sw_lower_rules::specs::Statements::expr_code))]
fn is_self(tree: &Expr) -> bool
    ensures { (tables : Tables) (owner : Option ℕ)
        → result ≡ (expr_code tables owner tree.now).is_self }
{
    match tree {
        Expr::Me { .. } => true,
        Expr::Int { .. }
        | Expr::Bool { .. }
        | Expr::Use { .. }
        | Expr::Member { .. }
        | Expr::Call { .. }
        | Expr::Method { .. }
        | Expr::Chain { .. }
        | Expr::Prefix { .. }
        | Expr::Await { .. }
        | Expr::Fun(_)
        | Expr::Spawn { .. }
        | Expr::Yield { .. } => false,
    }
}

/// The property where it is one of the word `self`, by the id of its name.
#[tactic(auto, unfolding(sw_lower_rules::specs::Statements::expr_code))]
fn own_part(tree: &Expr) -> Option<u32>
    ensures { (tables : Tables) (owner : Option ℕ)
        → result ≡ (expr_code tables owner tree.now).own_part }
{
    match tree {
        Expr::Member { base, name } => is_self(base.get()).then_some(name.id),
        Expr::Int { .. }
        | Expr::Bool { .. }
        | Expr::Use { .. }
        | Expr::Me { .. }
        | Expr::Call { .. }
        | Expr::Method { .. }
        | Expr::Chain { .. }
        | Expr::Prefix { .. }
        | Expr::Await { .. }
        | Expr::Fun(_)
        | Expr::Spawn { .. }
        | Expr::Yield { .. } => None,
    }
}

/// What an assignment of `value` to `place` gives.
#[tactic(auto, unfolding(sw_lower_code::specs::Code::andthen, sw_lower_code::specs::Code::done))]
fn give_part(
    alloc: Global,
    known: &Known<'_>,
    owner: Option<u32>,
    place: &Expr,
    value: &Expr,
    values: &mut ListOf<GivenOperand>,
    draft: &mut Draft<'_>,
) -> Result<(), CodeFault>
    ensures { GivesAsRun (each_after give_value
        (given_part (expr_code (tables_by known.now) owner place.now).own_part
        (expr_code (tables_by known.now) owner value.now).read)
        (values_given values.old) (making_of draft.old)) (with_values result values.new) draft.new }
{
    if let Some(name) = own_part(place) {
        let value = expr(alloc, known, owner, value, draft)?;
        values.push(GivenOperand { name, value })?;
    }
    Ok(())
}

/// What a statement gives.
#[tactic(auto, unfolding(sw_lower_rules::specs::Statements::expr_code, sw_lower_rules::specs::Statements::stmt_code))]
fn give(
    alloc: Global,
    known: &Known<'_>,
    owner: Option<u32>,
    tree: &Stmt,
    values: &mut ListOf<GivenOperand>,
    draft: &mut Draft<'_>,
) -> Result<(), CodeFault>
    ensures { GivesAsRun (each_after give_value
        (stmt_code (tables_by known.now) owner tree.now).gives
        (values_given values.old) (making_of draft.old)) (with_values result values.new) draft.new }
{
    match tree {
        Stmt::Assign { place, value, .. } => {
            give_part(alloc, known, owner, place, value, values, draft)
        }
        Stmt::Bind { .. }
        | Stmt::Discard { .. }
        | Stmt::If { .. }
        | Stmt::While { .. }
        | Stmt::Switch { .. }
        | Stmt::Return { .. }
        | Stmt::Break { .. }
        | Stmt::Continue { .. }
        | Stmt::Plain(_) => Ok(()),
    }
}

/// The code of the values that the statements of an initialiser give properties, in order. Adds
/// these values to `values`.
pub fn give_values(
    alloc: Global,
    known: &Known<'_>,
    owner: Option<u32>,
    tree: &Block,
    values: &mut ListOf<GivenOperand>,
    draft: &mut Draft<'_>,
) -> Result<(), CodeFault>
    ensures { GivesAsRun (each_after give_value
        (block_code (tables_by known.now) owner tree.now).gives
        (values_given values.old) (making_of draft.old)) (with_values result values.new) draft.new }
{
    for one in tree.stmts.as_slice() {
        give(alloc, known, owner, one, values, draft)?;
    }
    Ok(())
}
