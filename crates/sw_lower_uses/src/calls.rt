//! Calls, and what is made.
#![tactic(auto, unfolding(sw_lower_code::specs::Code::andthen, sw_lower_code::specs::Code::done, sw_lower_code::specs::Code::emit, sw_lower_code::specs::Code::known, sw_lower_code::specs::Code::number, sw_lower_code::specs::Code::reg, sw_lower_rules::specs::Uses::call_closure, sw_lower_rules::specs::Uses::call_func, sw_lower_rules::specs::Uses::make, sw_lower_rules::specs::Uses::make_value, sw_lower_rules::specs::Uses::shape_at, sw_lower_rules::specs::Uses::typed, sw_lower_rules::specs::Uses::unknown))]

ghost use Rattle.sw_lower_draft.specs.Drafts.{GivesAsRun, making_of};
ghost use Rattle.sw_graph.specs.declared.instr.Instr.TheVariants as instr;
ghost use Rattle.sw_lower_code.specs.Code.{andthen, number};
ghost use Rattle.sw_lower_known.specs.Knowledge.{tables_by};
ghost use Rattle.sw_lower_rules.specs.Tables.{getter_of};
ghost use Rattle.sw_lower_rules.specs.Uses.{call_closure, call_func, call_signature, give, make};
ghost use Rattle.sw_lower_rules.specs.Uses.{make_by, make_value};

use crate::finding::{shape_at, type_of};
use crate::giving::emit_value;
use std::alloc::Global;
use sw_decls::Signature;
use sw_graph::{Instr, Operand, OperandList, RegKind};
use sw_lower_draft::Draft;
use sw_lower_known::Known;
use sw_lower_plans::{CodeFault, FunctionName};
use sw_types::{CallKind, ShapeKind, Ty};
use sw_typing_words::copy_of;

/// Calls the getter of the variable or property with this key.
pub fn call_getter(
    at: u32,
    kind: CallKind,
    ty: Ty,
    key: u32,
    operands: OperandList,
    draft: &mut Draft<'_>,
) -> Result<Operand, CodeFault>
    ensures { GivesAsRun ((andthen (number (getter_of key))
        (λ function. give at ty (λ dst. instr.Call at dst kind function operands))).run
        (making_of draft.old)) result draft.new }
{
    let function = draft.number(FunctionName { key, getter: true })?;
    let dst = draft.reg(RegKind::Plain(ty))?;
    let instr = Instr::Call {
        at,
        dst,
        kind,
        function,
        args: operands,
    };
    emit_value(at, dst, instr, draft)
}

/// Calls a function, method or initialiser.
fn call_signature(
    alloc: Global,
    known: &Known<'_>,
    at: u32,
    operands: OperandList,
    func: &Signature,
    draft: &mut Draft<'_>,
) -> Result<Operand, CodeFault>
    ensures { GivesAsRun
        ((call_signature (tables_by known.now) at operands func.now).run (making_of draft.old))
        result draft.new }
{
    let name = FunctionName {
        key: func.key.at,
        getter: false,
    };
    let function = draft.number(name)?;
    let kind = known.kind_at(at).ok_or(CodeFault::Missing)?;
    let dst = draft.reg(RegKind::Plain(copy_of(alloc, &func.result)?))?;
    let instr = Instr::Call {
        at,
        dst,
        kind,
        function,
        args: operands,
    };
    emit_value(at, dst, instr, draft)
}

/// Calls the function or method with this number.
pub fn call_func(
    alloc: Global,
    known: &Known<'_>,
    at: u32,
    number: usize,
    operands: OperandList,
    draft: &mut Draft<'_>,
) -> Result<Operand, CodeFault>
    ensures { GivesAsRun ((call_func (tables_by known.now) at number operands).run
        (making_of draft.old))
        result draft.new }
{
    let func = known.func(number).ok_or(CodeFault::Missing)?;
    call_signature(alloc, known, at, operands, func, draft)
}

/// Calls a closure.
pub fn call_closure(
    alloc: Global,
    known: &Known<'_>,
    at: u32,
    closure: Operand,
    operands: OperandList,
    draft: &mut Draft<'_>,
) -> Result<Operand, CodeFault>
    ensures { GivesAsRun
        ((call_closure (tables_by known.now) at closure operands).run (making_of draft.old))
        result draft.new }
{
    let ty = type_of(alloc, known, at)?;
    let dst = draft.reg(RegKind::Plain(ty))?;
    let instr = Instr::CallClosure {
        at,
        dst,
        closure,
        args: operands,
    };
    emit_value(at, dst, instr, draft)
}

/// Makes a value of a struct, or of the case of an enum with the number `tag`.
pub fn make_value(
    at: u32,
    shape: u32,
    tag: Option<usize>,
    operands: OperandList,
    draft: &mut Draft<'_>,
) -> Result<Operand, CodeFault>
    ensures { GivesAsRun ((make_value at shape tag operands).run (making_of draft.old))
        result draft.new }
{
    let dst = draft.reg(RegKind::Plain(Ty::Named(shape)))?;
    let instr = Instr::Make {
        at,
        dst,
        shape,
        tag,
        args: operands,
    };
    emit_value(at, dst, instr, draft)
}

/// Makes a value of a type of this kind: an object or an actor by its initialiser.
fn make_by(
    alloc: Global,
    known: &Known<'_>,
    kind: ShapeKind,
    at: u32,
    shape: u32,
    operands: OperandList,
    draft: &mut Draft<'_>,
) -> Result<Operand, CodeFault>
    ensures { GivesAsRun
        ((make_by (tables_by known.now) kind at shape operands).run (making_of draft.old))
        result draft.new }
{
    match kind {
        ShapeKind::Struct => make_value(at, shape, None, operands, draft),
        ShapeKind::Enum => Err(CodeFault::Missing),
        ShapeKind::Class | ShapeKind::Actor => {
            let maker = known.maker(shape).ok_or(CodeFault::Missing)?;
            call_signature(alloc, known, at, operands, maker, draft)
        }
    }
}

/// Makes a value of the struct, class or actor with this number.
pub fn make(
    alloc: Global,
    known: &Known<'_>,
    at: u32,
    shape: u32,
    operands: OperandList,
    draft: &mut Draft<'_>,
) -> Result<Operand, CodeFault>
    ensures { GivesAsRun ((make (tables_by known.now) at shape operands).run (making_of draft.old))
        result draft.new }
{
    let kind = shape_at(known, shape)?.kind;
    make_by(alloc, known, kind, at, shape, operands, draft)
}
