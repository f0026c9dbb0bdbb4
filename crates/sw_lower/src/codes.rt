//! The code of each form of body.
ghost use Rattle.std.specs.Prelude.{◌≡◌, ◌≢◌, ◌++◌, map, None, Ok, Err, IfErr, IfOk};
ghost use Rattle.std.specs.Option.{option_copied};
ghost use Rattle.sw_lower_draft.specs.Drafts.{GivesAsRun, making_of};
ghost use Rattle.sw_lower.specs.Initialised.{parts_code, values_of};
ghost use Rattle.sw_lower_bodies.specs.Trees.{closure_code, code_by, gives_by, result_by};
ghost use Rattle.sw_lower_known.specs.Knowledge.{tables_by};
ghost use Rattle.sw_lower_rules.specs.Bodies.{first_code, first_values, getter_code, init_code};
ghost use Rattle.sw_lower_code.specs.Code.{each};
ghost use Rattle.sw_lower_plans.specs.Run.{Making};
ghost use Rattle.sw_lower_plans.specs.declared.fault.CodeFault.TheVariants.{Memory};
ghost use Rattle.sw_lower_stmt.specs.Giving.{values_given, with_values};
ghost use Rattle.sw_lower_rules.specs.Bodies.{made_instr, part_read, prop_given, stored_read};
ghost use Rattle.sw_lower_rules.specs.Bodies.{give_value, value_of};
ghost use Rattle.sw_lower_uses.specs.Gathering.{each_after};
ghost use Rattle.sw_lower_rules.specs.Expressions.{body_code};
ghost use Rattle.sw_lower_rules.specs.Statements.{expr_code};

use std::alloc::Global;
use sw_graph::{Instr, Last, Operand, OperandList, RegKind};
use sw_list::ListOf;
use sw_lower_bodies::BodyForm;
use sw_lower_draft::Draft;
use sw_lower_expr::expr;
use sw_lower_known::Known;
use sw_lower_plans::CodeFault;
use sw_lower_stmt::{GivenOperand, body, give_values};
use sw_tree::{Block, Closure, Expr, PropTree};
use sw_types::{Part, Shape, ShapeKind, Ty};
use sw_typing_words::copy_of;

/// Gives the stored value of a property of `self`.
#[tactic(auto, unfolding(sw_lower_code::specs::Code::andthen, sw_lower_code::specs::Code::done, sw_lower_code::specs::Code::reg, sw_lower_code::specs::Code::emit, sw_lower_code::specs::Code::close,))]
fn get_part(
    alloc: Global,
    key: u32,
    index: usize,
    ty: &Ty,
    draft: &mut Draft<'_>,
) -> Result<(), CodeFault>
    ensures { GivesAsRun ((getter_code (part_read key index ty.now)).run (making_of draft.old))
        result draft.new }
{
    let dst = draft.reg(RegKind::Plain(copy_of(alloc, ty)?))?;
    let cell = Operand { reg: 0, at: key };
    draft.emit(Instr::LoadProp {
        at: key,
        dst,
        cell,
        part: index,
    })?;
    draft.close(Last::Return {
        value: Some(Operand { reg: dst, at: key }),
    });
    Ok(())
}

/// Gives the stored value of a global variable.
#[tactic(auto, unfolding(sw_lower_code::specs::Code::andthen, sw_lower_code::specs::Code::done, sw_lower_code::specs::Code::reg, sw_lower_code::specs::Code::emit, sw_lower_code::specs::Code::close,))]
fn get_global(
    alloc: Global,
    key: u32,
    index: u32,
    ty: &Ty,
    draft: &mut Draft<'_>,
) -> Result<(), CodeFault>
    ensures { GivesAsRun ((getter_code (stored_read key index ty.now)).run (making_of draft.old))
        result draft.new }
{
    let dst = draft.reg(RegKind::Plain(copy_of(alloc, ty)?))?;
    draft.emit(Instr::LoadGlobal {
        at: key,
        dst,
        global: index,
    })?;
    draft.close(Last::Return {
        value: Some(Operand { reg: dst, at: key }),
    });
    Ok(())
}

/// Stores the first value of a global variable.
#[tactic(auto, unfolding(sw_lower_code::specs::Code::andthen, sw_lower_code::specs::Code::emit, sw_lower_code::specs::Code::close,))]
fn store_first(
    alloc: Global,
    known: &Known<'_>,
    key: u32,
    index: u32,
    value: &Expr,
    draft: &mut Draft<'_>,
) -> Result<(), CodeFault>
    ensures { GivesAsRun
        ((first_code key index (expr_code (tables_by known.now) None value.now).read).run
        (making_of draft.old)) result draft.new }
{
    let src = expr(alloc, known, None, value, draft)?;
    draft.emit(Instr::StoreGlobal {
        at: key,
        global: index,
        src,
    })?;
    draft.close(Last::Return { value: None });
    Ok(())
}

/// The code of the first values of properties; adds these values to `values`.
#[tactic(auto, unfolding(sw_lower_code::specs::Code::andthen, sw_lower_code::specs::Code::done, sw_lower_code::specs::Code::each,))]
fn give_first(
    alloc: Global,
    known: &Known<'_>,
    number: u32,
    prop: &PropTree,
    values: &mut ListOf<GivenOperand>,
    draft: &mut Draft<'_>,
) -> Result<(), CodeFault>
    ensures { GivesAsRun (each_after give_value
        (prop_given (tables_by known.now) number prop.now prop.now.value)
        (values_given values.old) (making_of draft.old)) (with_values result values.new) draft.new }
{
    if let Some(value) = &prop.value {
        let value = expr(alloc, known, Some(number), value, draft)?;
        values.push(GivenOperand {
            name: prop.word.id,
            value,
        })?;
    }
    Ok(())
}

/// The code of the first values of the properties of the type with a number, in order; adds these
/// values to `values`.
#[tactic(auto, unfolding(sw_lower_code::specs::Code::andthen, sw_lower_code::specs::Code::done, sw_lower_code::specs::Code::each,))]
fn give_firsts(
    alloc: Global,
    known: &Known<'_>,
    number: u32,
    props: &[PropTree],
    values: &mut ListOf<GivenOperand>,
    draft: &mut Draft<'_>,
) -> Result<(), CodeFault>
    ensures { GivesAsRun (each_after give_value
        (first_values (tables_by known.now) number props.now)
        (values_given values.old) (making_of draft.old)) (with_values result values.new) draft.new }
{
    for prop in props {
        give_first(alloc, known, number, prop, values, draft)?;
    }
    Ok(())
}

/// The code of what an initialiser's statements give, where it is written; adds these values to
/// `values`.
#[tactic(auto, unfolding(sw_lower_code::specs::Code::andthen, sw_lower_code::specs::Code::done, sw_lower_code::specs::Code::each,))]
fn give_written(
    alloc: Global,
    known: &Known<'_>,
    number: u32,
    block: Option<&Block>,
    values: &mut ListOf<GivenOperand>,
    draft: &mut Draft<'_>,
) -> Result<(), CodeFault>
    ensures { GivesAsRun (each_after give_value
        (gives_by (tables_by known.now) number (option_copied block.entry))
        (values_given values.old) (making_of draft.old)) (with_values result values.new) draft.new }
{
    match block {
        None => Ok(()),
        Some(block) => give_values(alloc, known, Some(number), block, values, draft),
    }
}

/// The value that a property got, by the id of its name.
fn value_of(values: &[GivenOperand], name: u32) -> Option<Operand>
    ensures { result ≡ value_of (values_given values.now) name }
{
    for one in values {
        if one.name == name {
            return Some(one.value);
        }
    }
    None
}

/// The values of properties, in order.
#[tactic(auto, unfolding(sw_lower_code::specs::Code::andthen, sw_lower_code::specs::Code::done, sw_lower_code::specs::Code::each, sw_lower_code::specs::Code::known,))]
fn parts_given(
    alloc: Global,
    parts: &[Part],
    values: &[GivenOperand],
) -> Result<OperandList, CodeFault>
    ensures given { IfOk result (λ operands. (making : Making)
        → (parts_code (values_given values.now) parts.now).run making ≡ Ok (operands, making)) }
    ensures missing { IfErr result (λ fault. fault ≢ Memory → (making : Making)
        → (parts_code (values_given values.now) parts.now).run making ≡ Err fault) }
{
    let mut operands = ListOf::new(alloc);
    for part in parts {
        operands.push(value_of(values, part.name).ok_or(CodeFault::Missing)?)?;
    }
    Ok(operands)
}

/// Makes an actor or an object of the values of its properties.
fn made_instr(kind: ShapeKind, at: u32, dst: u32, shape: u32, args: OperandList) -> Instr
    ensures { result ≡ made_instr kind at dst shape args }
{
    match kind {
        ShapeKind::Actor => Instr::NewActor {
            at,
            dst,
            shape,
            args,
        },
        ShapeKind::Struct | ShapeKind::Enum | ShapeKind::Class => {
            Instr::NewObject {
                at,
                dst,
                shape,
                args,
            }
        }
    }
}

/// The code of the values that an initialiser of the type with a number gives its properties.
fn given(
    alloc: Global,
    known: &Known<'_>,
    number: u32,
    props: &[PropTree],
    block: Option<&Block>,
    draft: &mut Draft<'_>,
) -> Result<ListOf<GivenOperand>, CodeFault>
    ensures { GivesAsRun ((each give_value (first_values (tables_by known.now) number props.now
        ++ gives_by (tables_by known.now) number (option_copied block.entry))).run
        (making_of draft.old)) (values_of result) draft.new }
{
    let mut values = ListOf::new(alloc);
    give_firsts(alloc, known, number, props, &mut values, draft)?;
    give_written(alloc, known, number, block, &mut values, draft)?;
    Ok(values)
}

/// The code of an initialiser of the type with a number.
#[tactic(auto, unfolding(sw_lower_code::specs::Code::andthen, sw_lower_code::specs::Code::done, sw_lower_code::specs::Code::reg, sw_lower_code::specs::Code::emit, sw_lower_code::specs::Code::close, sw_lower_rules::specs::Bodies::init_code,))]
fn initialise(
    alloc: Global,
    known: &Known<'_>,
    key: u32,
    number: u32,
    shape: &Shape,
    props: &[PropTree],
    block: Option<&Block>,
    draft: &mut Draft<'_>,
) -> Result<(), CodeFault>
    ensures { GivesAsRun ((init_code key number shape.now
        (first_values (tables_by known.now) number props.now
        ++ gives_by (tables_by known.now) number (option_copied block.entry))).run
        (making_of draft.old)) result draft.new }
{
    let values = given(alloc, known, number, props, block, draft)?;
    let args = parts_given(alloc, shape.parts.as_slice(), values.as_slice())?;
    let dst = draft.reg(RegKind::Plain(Ty::Named(number)))?;
    draft.emit(made_instr(shape.kind, key, dst, number, args))?;
    draft.close(Last::Return {
        value: Some(Operand { reg: dst, at: key }),
    });
    Ok(())
}

/// The code of the body of a closure or a task that gives a value of this type.
#[tactic(auto, unfolding(sw_lower_bodies::specs::Trees::closure_code, sw_lower_rules::specs::Statements::block_code,))]
fn closure_code(
    alloc: Global,
    known: &Known<'_>,
    owner: Option<u32>,
    gives: &Ty,
    closure: &Closure,
    draft: &mut Draft<'_>,
) -> Result<(), CodeFault>
    ensures { GivesAsRun ((body_code gives.now
        (closure_code (tables_by known.now) owner closure.now).body).run (making_of draft.old))
        result draft.new }
{
    body(alloc, known, owner, gives, &closure.body, draft)
}

/// The code of a body that gives a value of the type `gives`.
pub fn code(
    alloc: Global,
    known: &Known<'_>,
    key: u32,
    form: BodyForm<'_>,
    gives: &Ty,
    draft: &mut Draft<'_>,
) -> Result<(), CodeFault>
    requires { gives.now ≡ result_by (tables_by known.now) form }
    ensures { GivesAsRun ((code_by (tables_by known.now) key form.entry).run (making_of draft.old))
        result draft.new }
{
    match form {
        BodyForm::Declared { block, func, .. } => {
            body(alloc, known, func.owner, gives, block, draft)
        }
        BodyForm::Init {
            number,
            shape,
            props,
            block,
            ..
        } => initialise(alloc, known, key, number, shape, props, block, draft),
        BodyForm::Closure { owner, closure } | BodyForm::Task { owner, closure, .. } => {
            closure_code(alloc, known, owner, gives, closure, draft)
        }
        BodyForm::PartGetter { index, part, .. } => get_part(alloc, key, index, &part.ty, draft),
        BodyForm::GlobalGetter { index, global } => {
            get_global(alloc, key, index, &global.ty, draft)
        }
        BodyForm::FirstValue { index, value } => {
            store_first(alloc, known, key, index, value, draft)
        }
    }
}
