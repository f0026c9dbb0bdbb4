//! The operations of a call, by its kind.
ghost use Rattle.std.specs.Prelude.{◌≡◌, ◌++◌, OnOk};
ghost use Rattle.sw_region_ops.specs.Calls.{is_isolated, free_code, kind_ops, kind_result};
ghost use Rattle.sw_region_ops.specs.Calls.{result_ops, call_ops};

use crate::groups::{
    free_each, fresh, join_all, keep, meet, part_with, put_first, put_here, send_each,
};
use crate::marks::Mark;
use crate::op::{ISOLATED_TO_ACTOR, ISOLATED_TO_TASK, OpList};
use std::alloc::AllocError;
use sw_types::{CallKind, Iso};

/// Whether a body is isolated to an actor or to a global actor.
pub(crate) fn is_isolated(iso: Iso) -> bool
    ensures { result ≡ is_isolated iso }
{
    match iso {
        Iso::Own | Iso::Global(_) => true,
        Iso::Free | Iso::Caller => false,
    }
}

/// What is wrong where a body gives away something that is with `Here`.
pub(crate) fn free_code(iso: Iso) -> u16
    ensures { result ≡ free_code iso }
{
    if is_isolated(iso) {
        ISOLATED_TO_ACTOR
    } else {
        ISOLATED_TO_TASK
    }
}

/// What happens to the arguments whose parameters aren't `sending`.
fn kind_ops(
    ops: &mut OpList,
    kind: CallKind,
    code: u16,
    site: u32,
    kept: &[Mark],
) -> Result<(), AllocError>
    ensures { OnOk result (ops.new ≡ ops.old ++ kind_ops kind code site kept.now) }
{
    match kind {
        CallKind::Plain => meet(ops, kept),
        CallKind::Same => keep(ops, kept),
        CallKind::Weak => {
            free_each(ops, code, kept)?;
            join_all(ops, kept)
        }
        CallKind::Strong | CallKind::Make => part_with(ops, code, site, kept),
    }
}

/// What the result is, where it isn't `sending`.
fn kind_result(
    ops: &mut OpList,
    kind: CallKind,
    r: Option<u32>,
    kept: &[Mark],
) -> Result<(), AllocError>
    ensures { OnOk result (ops.new ≡ ops.old ++ kind_result kind r kept.now) }
{
    match kind {
        CallKind::Plain | CallKind::Weak => put_first(ops, r, kept),
        CallKind::Same => put_here(ops, r),
        CallKind::Strong | CallKind::Make => fresh(ops, r),
    }
}

fn result_ops(
    ops: &mut OpList,
    sends: bool,
    kind: CallKind,
    r: Option<u32>,
    kept: &[Mark],
) -> Result<(), AllocError>
    ensures { OnOk result (ops.new ≡ ops.old ++ result_ops sends kind r kept.now) }
{
    if sends {
        fresh(ops, r)
    } else {
        kind_result(ops, kind, r, kept)
    }
}

/// What a call does: its kind, the code of a test that fails, its position, and whether its result
/// is `sending`.
#[derive(Clone, Copy, Debug)]
pub(crate) struct Form {
    pub kind: CallKind,
    pub code: u16,
    pub site: u32,
    pub sends: bool,
}

/// Adds the operations of a call with these `sending` arguments and these others.
pub(crate) fn call_ops(
    ops: &mut OpList,
    form: Form,
    r: Option<u32>,
    sent: &[Mark],
    kept: &[Mark],
) -> Result<(), AllocError>
    ensures { OnOk result (ops.new ≡ ops.old
        ++ call_ops form.kind form.code form.site form.sends r sent.now kept.now) }
{
    send_each(ops, form.code, form.site, sent)?;
    kind_ops(ops, form.kind, form.code, form.site, kept)?;
    result_ops(ops, form.sends, form.kind, r, kept)
}
