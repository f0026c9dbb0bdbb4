//! The texts of instructions: what `{:?}` prints, except for lists, which stand in brackets.

use std::alloc::{AllocError, Global};
use sw_graph::{Instr, Last};

/// An instruction.
pub fn instr_text(alloc: Global, instr: &Instr) -> Result<String, AllocError> {
    match instr {
        Instr::Print { at, dst, args } => {
            let args = args.as_slice();
            format!(in alloc; "Print {{ at: {at}, dst: {dst}, args: {args:?} }}")
        }
        Instr::Make {
            at,
            dst,
            shape,
            tag,
            args,
        } => {
            let args = args.as_slice();
            format!(in alloc;
                "Make {{ at: {at}, dst: {dst}, shape: {shape}, tag: {tag:?}, args: {args:?} }}"
            )
        }
        Instr::NewObject {
            at,
            dst,
            shape,
            args,
        } => {
            let args = args.as_slice();
            format!(in alloc;
                "NewObject {{ at: {at}, dst: {dst}, shape: {shape}, args: {args:?} }}"
            )
        }
        Instr::NewActor {
            at,
            dst,
            shape,
            args,
        } => {
            let args = args.as_slice();
            format!(in alloc; "NewActor {{ at: {at}, dst: {dst}, shape: {shape}, args: {args:?} }}")
        }
        Instr::NewClosure {
            at,
            dst,
            function,
            captures,
        } => {
            let captures = captures.as_slice();
            format!(in alloc;
                "NewClosure {{ at: {at}, dst: {dst}, function: {function}, captures: {captures:?} }}"
            )
        }
        Instr::NewTask {
            at,
            dst,
            function,
            captures,
        } => {
            let captures = captures.as_slice();
            format!(in alloc;
                "NewTask {{ at: {at}, dst: {dst}, function: {function}, captures: {captures:?} }}"
            )
        }
        Instr::Call {
            at,
            dst,
            kind,
            function,
            args,
        } => {
            let args = args.as_slice();
            format!(in alloc;
                "Call {{ at: {at}, dst: {dst}, kind: {kind:?}, function: {function}, args: {args:?} }}"
            )
        }
        Instr::CallClosure {
            at,
            dst,
            closure,
            args,
        } => {
            let args = args.as_slice();
            format!(in alloc;
                "CallClosure {{ at: {at}, dst: {dst}, closure: {closure:?}, args: {args:?} }}"
            )
        }
        // These have no list.
        Instr::Const { .. }
        | Instr::Un { .. }
        | Instr::Bin { .. }
        | Instr::Copy { .. }
        | Instr::Field { .. }
        | Instr::Payload { .. }
        | Instr::SetField { .. }
        | Instr::NewBox { .. }
        | Instr::LoadBox { .. }
        | Instr::StoreBox { .. }
        | Instr::LoadProp { .. }
        | Instr::StoreProp { .. }
        | Instr::LoadGlobal { .. }
        | Instr::StoreGlobal { .. }
        | Instr::Await { .. }
        | Instr::Yield { .. } => format!(in alloc; "{instr:?}"),
    }
}

/// The last instruction of a block.
pub fn last_text(alloc: Global, last: &Last) -> Result<String, AllocError> {
    match last {
        Last::Switch { subject, to } => {
            let to = to.as_slice();
            format!(in alloc; "Switch {{ subject: {subject:?}, to: {to:?} }}")
        }
        Last::Jump { .. } | Last::Branch { .. } | Last::Return { .. } => {
            format!(in alloc; "{last:?}")
        }
    }
}
