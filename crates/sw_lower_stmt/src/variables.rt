//! Variables that statements and patterns declare.
#![tactic(auto, unfolding(sw_lower_code::specs::Code::andthen, sw_lower_code::specs::Code::bind, sw_lower_code::specs::Code::done, sw_lower_code::specs::Code::emit, sw_lower_code::specs::Code::front, sw_lower_code::specs::Code::known, sw_lower_code::specs::Code::reg, sw_lower_rules::specs::Statements::declare_var, sw_lower_rules::specs::Uses::typed))]

ghost use Rattle.sw_lower_draft.specs.Drafts.{GivesAsRun, making_of};
ghost use Rattle.sw_lower_known.specs.Knowledge.{tables_by};
ghost use Rattle.sw_lower_stmt.specs.Parts.{var_in_box, var_in_register};
ghost use Rattle.sw_lower_rules.specs.Statements.{declare_var, pattern_code, patterns_code};

use std::alloc::Global;
use sw_graph::{Instr, Operand, RegKind};
use sw_lower_draft::Draft;
use sw_lower_known::Known;
use sw_lower_plans::{Bound, CodeFault};
use sw_lower_uses::type_of;
use sw_tree::Pattern;
use sw_types::Ty;

/// A variable in a box, with its first value.
fn boxed_var(key: u32, given: Operand, ty: Ty, draft: &mut Draft<'_>) -> Result<(), CodeFault>
    ensures { GivesAsRun ((var_in_box key given ty).run (making_of draft.old)) result draft.new }
{
    let dst = draft.reg(RegKind::BoxOf(ty))?;
    draft.emit(Instr::NewBox {
        at: key,
        dst,
        src: given,
    })?;
    draft.bind(Bound {
        key,
        reg: dst,
        boxed: true,
    })
}

/// A variable in a register of its own, with its first value.
fn plain_var(key: u32, given: Operand, ty: Ty, draft: &mut Draft<'_>) -> Result<(), CodeFault>
    ensures { GivesAsRun ((var_in_register key given ty).run (making_of draft.old)) result draft.new }
{
    let dst = draft.reg(RegKind::Plain(ty))?;
    draft.emit(Instr::Copy {
        at: key,
        dst,
        src: given,
    })?;
    draft.bind(Bound {
        key,
        reg: dst,
        boxed: false,
    })
}

/// Declares the variable with this key, whose first value is given.
pub fn declare_var(
    alloc: Global,
    known: &Known<'_>,
    key: u32,
    given: Operand,
    draft: &mut Draft<'_>,
) -> Result<(), CodeFault>
    ensures { GivesAsRun ((declare_var (tables_by known.now) key given).run (making_of draft.old))
        result draft.new }
{
    let ty = type_of(alloc, known, key)?;
    if known.is_boxed(key) {
        boxed_var(key, given, ty, draft)
    } else {
        plain_var(key, given, ty, draft)
    }
}

/// The payload with this number of what a `switch` looks at, for a pattern.
fn pattern(
    alloc: Global,
    known: &Known<'_>,
    subject: Operand,
    number: usize,
    tree: &Pattern,
    draft: &mut Draft<'_>,
) -> Result<(), CodeFault>
    ensures { GivesAsRun ((pattern_code (tables_by known.now) subject number tree.now).run
        (making_of draft.old)) result draft.new }
{
    match tree {
        Pattern::Skip { .. } => Ok(()),
        Pattern::Let { name } => {
            let ty = type_of(alloc, known, name.at)?;
            let dst = draft.reg(RegKind::Plain(ty))?;
            draft.front(Instr::Payload {
                at: name.at,
                dst,
                src: subject,
                index: number,
            })?;
            draft.bind(Bound {
                key: name.at,
                reg: dst,
                boxed: false,
            })
        }
    }
}

/// The payloads of what a `switch` looks at, for the patterns of a case.
pub fn patterns(
    alloc: Global,
    known: &Known<'_>,
    subject: Operand,
    trees: &[Pattern],
    draft: &mut Draft<'_>,
) -> Result<(), CodeFault>
    ensures { GivesAsRun ((patterns_code (tables_by known.now) subject 0 trees.now).run
        (making_of draft.old)) result draft.new }
{
    for (number, tree) in trees.iter().enumerate() {
        pattern(alloc, known, subject, number, tree, draft)?;
    }
    Ok(())
}
