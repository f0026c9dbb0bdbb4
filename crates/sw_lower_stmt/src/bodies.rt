//! Bodies of functions, closures and tasks.
ghost use Rattle.std.specs.Prelude.{◌≡◌, ℕ, Option, None, if◌then◌else◌};
ghost use Rattle.std.specs.Option.{option_copied};
ghost use Rattle.sw_lower_draft.specs.Drafts.{GivesAsRun, making_of};
ghost use Rattle.sw_lower_known.specs.Knowledge.{tables_by};
ghost use Rattle.sw_lower_stmt.specs.Parts.{read_of};
ghost use Rattle.sw_lower_rules.specs.Expressions.{body_code, with_result};
ghost use Rattle.sw_lower_rules.specs.Statements.{block_code, stmt_code};
ghost use Rattle.sw_lower_rules.specs.Tables.{Tables};
ghost use Rattle.sw_typing_rules.specs.Verdicts.{is_unit};

use crate::walk::block;
use std::alloc::Global;
use sw_graph::Last;
use sw_lower_draft::Draft;
use sw_lower_expr::expr;
use sw_lower_known::Known;
use sw_lower_plans::CodeFault;
use sw_lower_rules::Targets;
use sw_tree::{Block, Expr, Stmt};
use sw_types::Ty;
use sw_typing_words::is_unit;

/// Outside loops.
const NO_TARGETS: Targets = Targets {
    breaks: None,
    continues: None,
};

/// The expression of a statement that is nothing else.
#[tactic(auto, unfolding(sw_lower_rules::specs::Statements::expr_code, sw_lower_rules::specs::Statements::stmt_code))]
fn plain(tree: &Stmt) -> Option<&Expr>
    ensures { (tables : Tables) (owner : Option ℕ) → read_of tables owner (option_copied result)
        ≡ (stmt_code tables owner tree.now).only }
{
    match tree {
        Stmt::Plain(value) => Some(value),
        Stmt::Bind { .. }
        | Stmt::Assign { .. }
        | Stmt::Discard { .. }
        | Stmt::If { .. }
        | Stmt::While { .. }
        | Stmt::Switch { .. }
        | Stmt::Return { .. }
        | Stmt::Break { .. }
        | Stmt::Continue { .. } => None,
    }
}

/// The only expression of a block that is nothing else.
#[tactic(auto, unfolding(sw_lower_rules::specs::Statements::block_code, sw_lower_rules::specs::Statements::stmt_code))]
fn only(tree: &Block) -> Option<&Expr>
    ensures { (tables : Tables) (owner : Option ℕ) → read_of tables owner (option_copied result)
        ≡ (block_code tables owner tree.now).only }
{
    match tree.stmts.as_slice() {
        [one] => plain(one),
        [] | [_, _, ..] => None,
    }
}

/// The expression whose value is the result of a body that gives a value of this type.
fn value_of<'t>(gives: &Ty, tree: &'t Block) -> Option<&'t Expr>
    ensures { (tables : Tables) (owner : Option ℕ) → read_of tables owner (option_copied result)
        ≡ (if is_unit gives.now then None else (block_code tables owner tree.now).only) }
{
    if is_unit(gives) { None } else { only(tree) }
}

/// The code of a body that gives a value of this type, in a member of the type with the number
/// `owner`.
#[tactic(auto, unfolding(sw_lower_code::specs::Code::andthen, sw_lower_code::specs::Code::close, sw_lower_rules::specs::Expressions::body_code))]
pub fn body(
    alloc: Global,
    known: &Known<'_>,
    owner: Option<u32>,
    gives: &Ty,
    tree: &Block,
    draft: &mut Draft<'_>,
) -> Result<(), CodeFault>
    ensures { GivesAsRun ((body_code gives.now
        (block_code (tables_by known.now) owner tree.now)).run
        (making_of draft.old)) result draft.new }
{
    match value_of(gives, tree) {
        None => {
            block(alloc, known, owner, NO_TARGETS, tree, draft)?;
            draft.close(Last::Return { value: None });
        }
        Some(value) => {
            let given = expr(alloc, known, owner, value, draft)?;
            draft.close(Last::Return { value: Some(given) });
        }
    }
    Ok(())
}
