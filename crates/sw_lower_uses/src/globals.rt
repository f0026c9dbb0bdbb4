//! Global variables.
#![tactic(auto, unfolding(sw_lower_code::specs::Code::andthen, sw_lower_code::specs::Code::done, sw_lower_code::specs::Code::emit, sw_lower_code::specs::Code::known, sw_lower_code::specs::Code::reg, sw_lower_rules::specs::Uses::call_getter, sw_lower_rules::specs::Uses::read_global))]

ghost use Rattle.sw_lower_draft.specs.Drafts.{GivesAsRun, making_of};
ghost use Rattle.sw_graph.specs.declared.instr.Instr.TheVariants as instr;
ghost use Rattle.sw_lower_known.specs.Knowledge.{tables_by};
ghost use Rattle.sw_lower_rules.specs.Uses.{give, global_by, read_global};

use crate::calls::call_getter;
use crate::giving::emit_value;
use std::alloc::Global;
use sw_decls::GlobalVar;
use sw_graph::{Instr, Operand, RegKind};
use sw_list::ListOf;
use sw_lower_draft::Draft;
use sw_lower_known::Known;
use sw_lower_plans::CodeFault;
use sw_types::{CallKind, Ty};
use sw_typing_words::copy_of;

/// Reads the global variable with this number, where that crosses nothing.
fn load_global(at: u32, number: u32, ty: Ty, draft: &mut Draft<'_>) -> Result<Operand, CodeFault>
    ensures { GivesAsRun ((give at ty (λ dst. instr.LoadGlobal at dst number)).run
        (making_of draft.old))
        result draft.new }
{
    let dst = draft.reg(RegKind::Plain(ty))?;
    let instr = Instr::LoadGlobal {
        at,
        dst,
        global: number,
    };
    emit_value(at, dst, instr, draft)
}

/// Reads a global variable: by its getter where that crosses.
fn global_by(
    alloc: Global,
    known: &Known<'_>,
    kind: Option<CallKind>,
    at: u32,
    number: u32,
    global: &GlobalVar,
    draft: &mut Draft<'_>,
) -> Result<Operand, CodeFault>
    ensures { GivesAsRun
        ((global_by (tables_by known.now) kind at number global.now).run (making_of draft.old))
        result draft.new }
{
    let ty = copy_of(alloc, &global.ty)?;
    match kind {
        None => load_global(at, number, ty, draft),
        Some(kind) => call_getter(at, kind, ty, global.key.at, ListOf::new(alloc), draft),
    }
}

/// Reads the global variable with this number.
pub fn read_global(
    alloc: Global,
    known: &Known<'_>,
    at: u32,
    number: u32,
    draft: &mut Draft<'_>,
) -> Result<Operand, CodeFault>
    ensures { GivesAsRun ((read_global (tables_by known.now) at number).run (making_of draft.old))
        result draft.new }
{
    let global = known.global(number).ok_or(CodeFault::Missing)?;
    let kind = known.kind_at(at);
    global_by(alloc, known, kind, at, number, global, draft)
}
