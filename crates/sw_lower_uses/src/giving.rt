//! Values that instructions give.
#![tactic(auto, unfolding(sw_lower_code::specs::Code::andthen, sw_lower_code::specs::Code::done, sw_lower_code::specs::Code::emit))]

ghost use Rattle.sw_lower_draft.specs.Drafts.{GivesAsRun, making_of};
ghost use Rattle.sw_lower_code.specs.Code.{andthen, done, emit};
ghost use Rattle.sw_lower_rules.specs.Uses.{operand};

use sw_graph::{Instr, Operand};
use sw_lower_draft::Draft;
use sw_lower_plans::CodeFault;

/// Adds the instruction that sets the register `dst`, and gives what it sets.
pub fn emit_value(
    at: u32,
    dst: u32,
    instr: Instr,
    draft: &mut Draft<'_>,
) -> Result<Operand, CodeFault>
    ensures { GivesAsRun ((andthen (emit instr) (λ _. done (operand dst at))).run
        (making_of draft.old))
        result draft.new }
{
    draft.emit(instr)?;
    Ok(Operand { reg: dst, at })
}
