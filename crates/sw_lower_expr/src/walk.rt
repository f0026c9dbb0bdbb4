//! Expressions at any depth.
#![tactic(auto, unfolding(sw_lower_code::specs::Code::andthen, sw_lower_code::specs::Code::block_for, sw_lower_code::specs::Code::close, sw_lower_code::specs::Code::done, sw_lower_code::specs::Code::emit, sw_lower_code::specs::Code::known, sw_lower_code::specs::Code::resume, sw_lower_rules::specs::Uses::shape_of, sw_lower_rules::specs::Uses::unknown))]

ghost use Rattle.std.specs.Prelude.{◌≡◌, ◌∷◌, Option, IfOk};
ghost use Rattle.sw_lower_draft.specs.Drafts.{GivesAsRun, making_of};
ghost use Rattle.sw_lower_expr.specs.Walked.{arg_codes, case_made, held_called, link_codes};
ghost use Rattle.sw_lower_expr.specs.Walked.{method_called};
ghost use Rattle.sw_lower_known.specs.Knowledge.{tables_by};
ghost use Rattle.sw_lower_rules.specs.Expressions.{args_read, binary, both, by_op, call_read};
ghost use Rattle.sw_lower_rules.specs.Expressions.{either, links_read, member_read};
ghost use Rattle.sw_lower_rules.specs.Expressions.{read_of_base, right_in};
ghost use Rattle.sw_lower_rules.specs.Statements.{expr_code};

use crate::closures::{closure_made, task_made};
use crate::keys::key_of;
use crate::operators::{Operation, operation_of};
use crate::values::{computed, copied, literal, prefixed, print, waited, yielded};
use std::alloc::{AllocError, Global};
use sw_graph::{BinOp, Instr, Last, Literal, Operand, OperandList};
use sw_list::ListOf;
use sw_lower_draft::Draft;
use sw_lower_known::Known;
use sw_lower_plans::CodeFault;
use sw_lower_uses::{
    call_closure, call_func, make, make_value, read_global, read_own, read_part, read_self,
    read_var, read_word, shape_of,
};
use sw_tree::{Arg, Expr, Link};
use sw_types::Ty;
use sw_typing_rules::Meaning;

/// The value of an expression, in a member of the type with the number `owner`.
#[cycle(walk)]
#[tactic(auto, unfolding(sw_lower_code::specs::Code::andthen, sw_lower_code::specs::Code::done, sw_lower_code::specs::Code::known, sw_lower_rules::specs::Statements::expr_code, sw_lower_rules::specs::Uses::unknown, crate::specs::Walked::arg_codes, crate::specs::Walked::link_codes))]
pub fn expr(
    alloc: Global,
    known: &Known<'_>,
    owner: Option<u32>,
    tree: &Expr,
    draft: &mut Draft<'_>,
) -> Result<Operand, CodeFault>
    ensures { GivesAsRun ((expr_code (tables_by known.now) owner tree.now).read.run
        (making_of draft.old)) result draft.new }
{
    match tree {
        Expr::Int { at, value } => literal(*at, Ty::Int, Literal::Int(*value), draft),
        Expr::Bool { at, value } => literal(*at, Ty::Bool, Literal::Bool(*value), draft),
        Expr::Use { name } => read_word(alloc, known, owner, name.at, draft),
        Expr::Me { at } => read_self(alloc, known, owner, *at, draft),
        Expr::Member { base, name } => member(alloc, known, owner, base.get(), name.at, draft),
        Expr::Call { name, args } => call(alloc, known, owner, name.at, args.as_slice(), draft),
        Expr::Method { base, name, args } => {
            let at = name.at;
            let args = args.as_slice();
            match known.meaning_at(at).ok_or(CodeFault::Missing)? {
                Meaning::FuncOf(number) => {
                    let receiver = expr(alloc, known, owner, base.get(), draft)?;
                    method_called(alloc, known, owner, at, number, args, receiver, draft)
                }
                Meaning::CaseOf(shape, number) => {
                    case_made(alloc, known, owner, at, shape, number, args, draft)
                }
                Meaning::PartOf(number) => {
                    let closure = part(alloc, known, owner, base.get(), at, number, draft)?;
                    held_called(alloc, known, owner, at, args, closure, draft)
                }
                Meaning::Local(_)
                | Meaning::OwnPart(_)
                | Meaning::OwnFunc(_)
                | Meaning::GlobalOf(_)
                | Meaning::MakeOf(_)
                | Meaning::Print
                | Meaning::TaskValue => Err(CodeFault::Missing),
            }
        }
        Expr::Chain { first, rest } => {
            let left = expr(alloc, known, owner, first.get(), draft)?;
            links(alloc, known, owner, rest.as_slice(), left, draft)
        }
        Expr::Prefix { op, at, inner } => {
            let value = expr(alloc, known, owner, inner.get(), draft)?;
            prefixed(*op, *at, value, draft)
        }
        Expr::Await { at, inner } => {
            let given = expr(alloc, known, owner, inner.get(), draft)?;
            Ok(Operand {
                reg: given.reg,
                at: *at,
            })
        }
        Expr::Fun(closure) => closure_made(alloc, known, closure.get().at, draft),
        Expr::Spawn { at, body, .. } => task_made(alloc, known, *at, body.get().at, draft),
        Expr::Yield { at } => yielded(*at, draft),
    }
}

/// The values of arguments, in order.
#[cycle(walk)]
#[tactic(auto, using(crate::proofs::Parts::args_are))]
fn arguments(
    alloc: Global,
    known: &Known<'_>,
    owner: Option<u32>,
    args: &[Arg],
    draft: &mut Draft<'_>,
) -> Result<OperandList, CodeFault>
    ensures { GivesAsRun ((args_read (arg_codes (tables_by known.now) owner args.now)).run
        (making_of draft.old)) result draft.new }
{
    let mut operands = ListOf::new(alloc);
    for arg in args {
        operands.push(expr(alloc, known, owner, &arg.value, draft)?)?;
    }
    Ok(operands)
}

/// The operators of a chain from the left, after the value `left`.
#[cycle(walk)]
#[tactic(auto, using(crate::proofs::Parts::links_are))]
fn links(
    alloc: Global,
    known: &Known<'_>,
    owner: Option<u32>,
    links: &[Link],
    left: Operand,
    draft: &mut Draft<'_>,
) -> Result<Operand, CodeFault>
    ensures { GivesAsRun ((links_read (link_codes (tables_by known.now) owner links.now) left).run
        (making_of draft.old)) result draft.new }
{
    let mut value = left;
    for link in links {
        value = operator(alloc, known, owner, link, value, draft)?;
    }
    Ok(value)
}

/// An operator of a chain after its left value.
#[cycle(walk)]
fn operator(
    alloc: Global,
    known: &Known<'_>,
    owner: Option<u32>,
    link: &Link,
    left: Operand,
    draft: &mut Draft<'_>,
) -> Result<Operand, CodeFault>
    ensures { GivesAsRun ((by_op link.now.op link.now.at
        (expr_code (tables_by known.now) owner link.now.operand).read left).run
        (making_of draft.old)) result draft.new }
{
    let at = link.at;
    let right = &link.operand;
    match operation_of(link.op) {
        Operation::Either => either(alloc, known, owner, right, at, left, draft),
        Operation::Both => both(alloc, known, owner, right, at, left, draft),
        Operation::Compared(op) => {
            binary(alloc, known, owner, right, at, op, Ty::Bool, left, draft)
        }
        Operation::Calculated(op) => {
            binary(alloc, known, owner, right, at, op, Ty::Int, left, draft)
        }
    }
}

/// An operator that computes from both values.
#[cycle(walk)]
fn binary(
    alloc: Global,
    known: &Known<'_>,
    owner: Option<u32>,
    right: &Expr,
    at: u32,
    op: BinOp,
    ty: Ty,
    left: Operand,
    draft: &mut Draft<'_>,
) -> Result<Operand, CodeFault>
    ensures { GivesAsRun ((binary at op ty (expr_code (tables_by known.now) owner right.now).read
        left).run (making_of draft.old)) result draft.new }
{
    let other = expr(alloc, known, owner, right, draft)?;
    computed(at, op, ty, left, other, draft)
}

/// `&&`: the right operand has a block of its own.
#[cycle(walk)]
fn both(
    alloc: Global,
    known: &Known<'_>,
    owner: Option<u32>,
    right: &Expr,
    at: u32,
    left: Operand,
    draft: &mut Draft<'_>,
) -> Result<Operand, CodeFault>
    ensures { GivesAsRun ((both at (expr_code (tables_by known.now) owner right.now).read left).run
        (making_of draft.old)) result draft.new }
{
    let dst = copied(at, left, draft)?;
    let own = draft.block()?;
    let merge = draft.block()?;
    draft.close(Last::Branch {
        condition: left,
        yes: own,
        no: merge,
    });
    right_in(alloc, known, owner, right, at, dst, own, merge, draft)
}

/// `||`: the right operand has a block of its own.
#[cycle(walk)]
fn either(
    alloc: Global,
    known: &Known<'_>,
    owner: Option<u32>,
    right: &Expr,
    at: u32,
    left: Operand,
    draft: &mut Draft<'_>,
) -> Result<Operand, CodeFault>
    ensures { GivesAsRun ((either at (expr_code (tables_by known.now) owner right.now).read
        left).run
        (making_of draft.old)) result draft.new }
{
    let dst = copied(at, left, draft)?;
    let own = draft.block()?;
    let merge = draft.block()?;
    draft.close(Last::Branch {
        condition: left,
        yes: merge,
        no: own,
    });
    right_in(alloc, known, owner, right, at, dst, own, merge, draft)
}

/// The right operand of `&&` or `||`, in the block `own`; then the block `merge` goes on.
#[cycle(walk)]
fn right_in(
    alloc: Global,
    known: &Known<'_>,
    owner: Option<u32>,
    right: &Expr,
    at: u32,
    dst: u32,
    own: u32,
    merge: u32,
    draft: &mut Draft<'_>,
) -> Result<Operand, CodeFault>
    ensures { GivesAsRun ((right_in at dst (expr_code (tables_by known.now) owner right.now).read
        own
        merge).run (making_of draft.old)) result draft.new }
{
    draft.resume(own)?;
    let given = expr(alloc, known, owner, right, draft)?;
    draft.emit(Instr::Copy {
        at,
        dst,
        src: given,
    })?;
    draft.close(Last::Jump { to: merge });
    draft.resume(merge)?;
    Ok(Operand { reg: dst, at })
}

/// The member at `at` of the value of `base`.
#[cycle(walk)]
fn member(
    alloc: Global,
    known: &Known<'_>,
    owner: Option<u32>,
    base: &Expr,
    at: u32,
    draft: &mut Draft<'_>,
) -> Result<Operand, CodeFault>
    ensures { GivesAsRun ((member_read (tables_by known.now) owner at
        (expr_code (tables_by known.now) owner base.now)
        ((tables_by known.now).answers.meaning_at at)).run (making_of draft.old))
        result draft.new }
{
    match known.meaning_at(at).ok_or(CodeFault::Missing)? {
        Meaning::CaseOf(shape, number) => {
            make_value(at, shape, Some(number), ListOf::new(alloc), draft)
        }
        Meaning::PartOf(number) => part(alloc, known, owner, base, at, number, draft),
        Meaning::TaskValue => {
            let task = expr(alloc, known, owner, base, draft)?;
            waited(alloc, known, at, task, draft)
        }
        Meaning::Local(_)
        | Meaning::OwnPart(_)
        | Meaning::OwnFunc(_)
        | Meaning::GlobalOf(_)
        | Meaning::FuncOf(_)
        | Meaning::MakeOf(_)
        | Meaning::Print => Err(CodeFault::Missing),
    }
}

/// The property with a number of the value of `base`.
#[cycle(walk)]
fn part(
    alloc: Global,
    known: &Known<'_>,
    owner: Option<u32>,
    base: &Expr,
    at: u32,
    number: usize,
    draft: &mut Draft<'_>,
) -> Result<Operand, CodeFault>
    ensures { GivesAsRun ((read_of_base (tables_by known.now) owner at
        (expr_code (tables_by known.now) owner base.now) number).run (making_of draft.old))
        result draft.new }
{
    let from = expr(alloc, known, owner, base, draft)?;
    let shape = shape_of(known, key_of(base))?;
    read_part(alloc, known, at, shape, number, from, draft)
}

/// The call at `at` of what a name means.
#[cycle(walk)]
fn call(
    alloc: Global,
    known: &Known<'_>,
    owner: Option<u32>,
    at: u32,
    args: &[Arg],
    draft: &mut Draft<'_>,
) -> Result<Operand, CodeFault>
    ensures { GivesAsRun ((call_read (tables_by known.now) owner at
        (arg_codes (tables_by known.now) owner args.now)
        ((tables_by known.now).answers.meaning_at at)).run (making_of draft.old))
        result draft.new }
{
    match known.meaning_at(at).ok_or(CodeFault::Missing)? {
        Meaning::Local(variable) => {
            let closure = read_var(alloc, known, at, variable, draft)?;
            held_called(alloc, known, owner, at, args, closure, draft)
        }
        Meaning::OwnPart(number) => {
            let closure = read_own(alloc, known, owner, at, number, draft)?;
            held_called(alloc, known, owner, at, args, closure, draft)
        }
        Meaning::OwnFunc(number) => {
            let me = read_self(alloc, known, owner, at, draft)?;
            method_called(alloc, known, owner, at, number, args, me, draft)
        }
        Meaning::GlobalOf(number) => {
            let closure = read_global(alloc, known, at, number, draft)?;
            held_called(alloc, known, owner, at, args, closure, draft)
        }
        Meaning::FuncOf(number) => {
            let operands = arguments(alloc, known, owner, args, draft)?;
            call_func(alloc, known, at, number, operands, draft)
        }
        Meaning::MakeOf(shape) => {
            let operands = arguments(alloc, known, owner, args, draft)?;
            make(alloc, known, at, shape, operands, draft)
        }
        Meaning::Print => print(at, arguments(alloc, known, owner, args, draft)?, draft),
        Meaning::CaseOf(..) | Meaning::PartOf(_) | Meaning::TaskValue => Err(CodeFault::Missing),
    }
}

/// A call of the closure `closure`.
#[cycle(walk)]
fn held_called(
    alloc: Global,
    known: &Known<'_>,
    owner: Option<u32>,
    at: u32,
    args: &[Arg],
    closure: Operand,
    draft: &mut Draft<'_>,
) -> Result<Operand, CodeFault>
    ensures { GivesAsRun ((held_called (tables_by known.now) at
        (arg_codes (tables_by known.now) owner args.now) closure).run (making_of draft.old))
        result draft.new }
{
    let operands = arguments(alloc, known, owner, args, draft)?;
    call_closure(alloc, known, at, closure, operands, draft)
}

/// Operands after a first one.
fn with_first(first: Operand, operands: OperandList) -> Result<OperandList, AllocError>
    ensures { IfOk result (λ all. all ≡ first ∷ operands) }
{
    let mut all = operands.into_vec();
    all.insert(0, first)?;
    Ok(ListOf::from_vec(all))
}

/// A call of the method with this number among the functions, of the value `receiver`.
#[cycle(walk)]
fn method_called(
    alloc: Global,
    known: &Known<'_>,
    owner: Option<u32>,
    at: u32,
    number: usize,
    args: &[Arg],
    receiver: Operand,
    draft: &mut Draft<'_>,
) -> Result<Operand, CodeFault>
    ensures { GivesAsRun ((method_called (tables_by known.now) at number
        (arg_codes (tables_by known.now) owner args.now) receiver).run (making_of draft.old))
        result draft.new }
{
    let operands = arguments(alloc, known, owner, args, draft)?;
    let operands = with_first(receiver, operands)?;
    call_func(alloc, known, at, number, operands, draft)
}

/// A value of the case of an enum with this number.
#[cycle(walk)]
fn case_made(
    alloc: Global,
    known: &Known<'_>,
    owner: Option<u32>,
    at: u32,
    shape: u32,
    number: usize,
    args: &[Arg],
    draft: &mut Draft<'_>,
) -> Result<Operand, CodeFault>
    ensures { GivesAsRun ((case_made at shape number
        (arg_codes (tables_by known.now) owner args.now)).run (making_of draft.old))
        result draft.new }
{
    let operands = arguments(alloc, known, owner, args, draft)?;
    make_value(at, shape, Some(number), operands, draft)
}
