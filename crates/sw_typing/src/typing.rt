//! The types of a program.
ghost use Rattle.std.specs.Prelude.{◌<◌, ◌^◌, None, length, IfErr, IfOk, OnOk};
ghost use Rattle.sw_typing_rules.specs.Programs.{IsFirstIll};
ghost use Rattle.sw_typing_rules.specs.Worlds.{world_of};
ghost use Rattle.sw_typing.specs.Ill.{IsIllProgram};
ghost use Rattle.sw_typing_table.specs.Typed.{IsTyped};
ghost use Rattle.sw_typing.specs.declared.typing.TypeFault.{TypeFault};

use crate::ills::first_ill;
use crate::programs::rows_of_program;
use std::alloc::{AllocError, Global};
use sw_decls::Decls;
use sw_tree::Program;
use sw_typing_table::Typed;
use thiserror::Error;

/// Why a program has no types.
#[derive(Clone, Copy, Debug, PartialEq, Eq, Error)]
pub enum TypeFault {
    /// The first ill node, by position and then by code.
    #[error("E{code} at {at}")]
    Breach { code: u16, at: u32 },
    #[error("out of memory")]
    Memory,
}

impl From<AllocError> for TypeFault {
    ghost use Rattle.std.specs.Prelude.{◌≡◌};
    ghost use Rattle.sw_typing.specs.declared.typing.TypeFault.{TypeFault};

    ghost from_gives = { λ _ fault. fault ≡ TypeFault.Memory };

    fn from(_error: AllocError) -> TypeFault {
        TypeFault::Memory
    }
}

/// The types of a program, whose declarations are `world`.
#[tactic(auto, using(crate::proofs::FirstIll::is_first_ill))]
pub fn type_program(alloc: Global, program: &Program, world: &Decls) -> Result<Typed, TypeFault>
    requires { length program.now.decls < 2 ^ 31 }
    ensures typed { IfOk result (IsTyped (world_of world.now) program.now.decls) }
    ensures none { OnOk result (IsFirstIll (world_of world.now) program.now.decls None) }
    ensures ill { IfErr result (IsIllProgram (world_of world.now) program.now.decls) }
{
    let rows = rows_of_program(alloc, world, program.decls())?.into_list();
    match first_ill(alloc, rows.as_slice())? {
        None => Ok(Typed::of(alloc, rows)?),
        Some(first) => Err(TypeFault::Breach {
            code: first.code,
            at: first.at,
        }),
    }
}
