//! The isolation of a program.
ghost use Rattle.std.specs.Prelude.{◌≡◌, ◌++◌, ◌<◌, ◌^◌, None, flat_map, length, IfErr, IfOk, OnOk};
ghost use Rattle.sw_isolation_table.specs.Known.{answers_of};
ghost use Rattle.sw_isolation.specs.Refused.{IsIsolationFault};
ghost use Rattle.sw_isolation_table.specs.Isolated.{IsIsolated};
ghost use Rattle.sw_isolation.specs.declared.isolating.IsoFault.{IsoFault};
ghost use Rattle.sw_isolation_rules.specs.Lists.{refusals_in};
ghost use Rattle.sw_isolation_rules.specs.Programs.{IsFirstRefusal, global_refusals, is_shared};
ghost use Rattle.sw_typing_rules.specs.Worlds.{world_of};

use crate::collecting::{isolated_of, refusals_in};
use crate::programs::noted;
use std::alloc::{AllocError, Global};
use sw_decl_words::{Placed, first_of};
use sw_decls::{Decls, GlobalVar};
use sw_isolation_rules::Note;
use sw_isolation_steps::may_cross;
use sw_isolation_table::Isolated;
use sw_list::ListOf;
use sw_tree::Program;
use sw_typing_table::Typed;
use thiserror::Error;

/// A global variable that may be used from everywhere and changes, or isn't Sendable.
const SHARED_GLOBAL: u16 = 505;

/// Why a program has no isolation.
#[derive(Clone, Copy, Debug, PartialEq, Eq, Error)]
pub enum IsoFault {
    /// The first breach of isolation, by position and then by code.
    #[error("E{code} at {at}")]
    Breach { code: u16, at: u32 },
    #[error("out of memory")]
    Memory,
}

impl From<AllocError> for IsoFault {
    ghost use Rattle.std.specs.Prelude.{◌≡◌};
    ghost use Rattle.sw_isolation.specs.declared.isolating.IsoFault.{IsoFault};

    ghost from_gives = { λ _ fault. fault ≡ IsoFault.Memory };

    fn from(_error: AllocError) -> IsoFault {
        IsoFault::Memory
    }
}

/// Whether a global variable is isolated to no actor, and is a `var` or not Sendable (SE-0412).
fn is_shared(world: &Decls, global: &GlobalVar) -> bool
    ensures { result ≡ is_shared (world_of world.now) global.now }
{
    global.actor.is_none() && (global.mutable || !may_cross(world, &global.ty))
}

/// Adds the breach of a global variable, where it is shared.
fn add_shared(
    world: &Decls,
    global: &GlobalVar,
    found: &mut ListOf<Placed>,
) -> Result<(), AllocError>
    ensures { OnOk result (found.new
        ≡ found.old ++ global_refusals (world_of world.now) global.now) }
{
    if is_shared(world, global) {
        found.push(Placed {
            at: global.key.at,
            code: SHARED_GLOBAL,
        })?;
    }
    Ok(())
}

/// The breaches of isolation, by what is noted and by the global variables.
fn refusals(alloc: Global, world: &Decls, notes: &[Note]) -> Result<ListOf<Placed>, AllocError>
    ensures { IfOk result (λ found. found ≡ refusals_in notes.now
        ++ flat_map (global_refusals (world_of world.now)) (world_of world.now).globals) }
{
    let mut found = refusals_in(alloc, notes)?;
    for global in world.globals.as_slice() {
        add_shared(world, global, &mut found)?;
    }
    Ok(found)
}

/// The isolation of a program, whose declarations are `world` and whose nodes have these types and
/// meanings.
pub fn isolate(
    alloc: Global,
    program: &Program,
    world: &Decls,
    typed: &Typed,
) -> Result<Isolated, IsoFault>
    requires { length program.now.decls < 2 ^ 31 }
    ensures isolated { IfOk result
        (IsIsolated (world_of world.now) (answers_of typed.now) program.now.decls) }
    ensures none { OnOk result
        (IsFirstRefusal (world_of world.now) (answers_of typed.now) program.now.decls None) }
    ensures refused { IfErr result
        (IsIsolationFault (world_of world.now) (answers_of typed.now) program.now.decls) }
{
    let notes = noted(alloc, world, typed, program.decls())?;
    let found = refusals(alloc, world, notes.as_slice())?;
    match first_of(found.as_slice()) {
        None => Ok(isolated_of(alloc, notes.as_slice())?),
        Some(first) => Err(IsoFault::Breach {
            code: first.code,
            at: first.at,
        }),
    }
}
