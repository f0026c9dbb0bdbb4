//! Statements after which a new block goes on.
#![tactic(auto, unfolding(crate::specs::Parts::ended, sw_lower_code::specs::Code::andthen, sw_lower_code::specs::Code::block_for, sw_lower_code::specs::Code::close, sw_lower_code::specs::Code::known, sw_lower_code::specs::Code::resume))]

ghost use Rattle.std.specs.Prelude.{◌≡◌};
ghost use Rattle.sw_lower_draft.specs.Drafts.{GivesAsRun, making_of};
ghost use Rattle.sw_lower_known.specs.Knowledge.{tables_by};
ghost use Rattle.sw_lower_plans.specs.Run.{run_close};
ghost use Rattle.sw_lower_stmt.specs.Parts.{ended, left_for, read_of};
ghost use Rattle.sw_lower_rules.specs.Expressions.{jump};
ghost use Rattle.sw_lower_rules.specs.Statements.{return_code};

use std::alloc::Global;
use sw_graph::Last;
use sw_lower_draft::Draft;
use sw_lower_expr::expr;
use sw_lower_known::Known;
use sw_lower_plans::CodeFault;
use sw_tree::Expr;

/// Ends the block that goes on with a jump.
pub fn jump(to: u32, draft: &mut Draft<'_>)
    ensures { (jump to).run (making_of draft.old) ≡ Ok (tt, making_of draft.new) }
{
    draft.close(Last::Jump { to });
}

/// Ends the block that goes on, and goes on with a new one.
fn end(last: Last, draft: &mut Draft<'_>) -> Result<(), CodeFault>
    ensures { GivesAsRun ((ended last).run (making_of draft.old)) result draft.new }
{
    draft.close(last);
    let number = draft.block()?;
    draft.resume(number)
}

/// `return`, with the value that it gives.
pub fn give_back(
    alloc: Global,
    known: &Known<'_>,
    owner: Option<u32>,
    value: &Option<Expr>,
    draft: &mut Draft<'_>,
) -> Result<(), CodeFault>
    ensures { GivesAsRun ((return_code (tables_by known.now)
        (read_of (tables_by known.now) owner value.now)).run (making_of draft.old))
        result draft.new }
{
    match value {
        None => end(Last::Return { value: None }, draft),
        Some(value) => {
            let given = expr(alloc, known, owner, value, draft)?;
            end(Last::Return { value: Some(given) }, draft)
        }
    }
}

/// `break` or `continue`, with where it leads.
pub fn leave(to: Option<u32>, draft: &mut Draft<'_>) -> Result<(), CodeFault>
    ensures { GivesAsRun ((left_for to).run (making_of draft.old)) result draft.new }
{
    let to = to.ok_or(CodeFault::Missing)?;
    end(Last::Jump { to }, draft)
}
