//! The graph of a program.
ghost use Rattle.std.specs.Prelude.{◌≡◌, List, None, map, IfOk};
ghost use Rattle.sw_isolation_table.specs.Known.{answers_of};
ghost use Rattle.sw_decls.specs.Declaring.{IsDeclared, IsFirstBreach};
ghost use Rattle.sw_decls.specs.declared.declaring.Decls.{Decls};
ghost use Rattle.sw_decls.specs.declared.signature.AsyncDefault.{AsyncDefault};
ghost use Rattle.sw_graph.specs.WellFormed.{IsWellFormed};
ghost use Rattle.sw_lower.specs.Lowered.{IsLowering};
ghost use Rattle.sw_lower.specs.declared.lowering.Lowering.{Lowering};
ghost use Rattle.sw_lower_known.specs.Knowledge.{isolation_of};
ghost use Rattle.sw_tree.specs.CasePlaces.{CasesApart};
ghost use Rattle.sw_lower_rules.specs.Bodies.{Lowered, global_kind, tables_of};
ghost use Rattle.sw_lower_rules.specs.Tables.{Isolation};
ghost use Rattle.sw_tree.specs.Contents.{AreKeyed};
ghost use Rattle.sw_tree.specs.declared.decl.Decl.{Decl};
ghost use Rattle.sw_typing_table.specs.Typed.{IsTyped};
ghost use Rattle.sw_typing_table.specs.declared.typed.Typed.{Typed};
ghost use Rattle.sw_typing_rules.specs.Programs.{IsFirstIll};
ghost use Rattle.sw_typing_rules.specs.Worlds.{world_of};

use std::alloc::{AllocError, Global};
use sw_decls::{Decls, GlobalVar};
use sw_graph::{Functions, GlobalKind, GlobalKinds, Graph};
use sw_isolation_table::{Isolated, answers_are_those_of_the_program};
use sw_list::ListOf;
use sw_lower::Lowering;
use sw_lower_formed_facts::programs_have_well_formed_graphs;
use sw_tree::Program;
use sw_typing_rules::programs_have_one_world;
use sw_typing_table::Typed;
use sw_typing_words::copy_of;

/// What a graph knows of a global variable.
fn kind_of(alloc: Global, global: &GlobalVar) -> Result<GlobalKind, AllocError>
    ensures { IfOk result (λ kind. kind ≡ global_kind global.now) }
{
    Ok(GlobalKind {
        ty: copy_of(alloc, &global.ty)?,
        mutable: global.mutable,
        actor: global.actor,
    })
}

/// What a graph knows of global variables.
fn kinds_of(alloc: Global, globals: &[GlobalVar]) -> Result<GlobalKinds, AllocError>
    ensures { IfOk result (λ kinds. kinds ≡ map global_kind globals.now) }
{
    let mut kinds = ListOf::new(alloc);
    for global in globals {
        kinds.push(kind_of(alloc, global)?)?;
    }
    Ok(kinds)
}

/// What is lowered of a program that keeps the rules on declarations and on types makes a
/// well-formed graph.
fn lowerings_are_well_formed()
    ensures { (decls : List Decl) (rule : AsyncDefault) (declared : Decls) (typed : Typed)
        (isolation : Isolation) (lowering : Lowering) → AreKeyed decls → CasesApart decls
        → IsFirstBreach decls None → IsDeclared decls rule declared
        → IsTyped (world_of declared) decls typed → IsFirstIll (world_of declared) decls None
        → IsLowering (tables_of (world_of declared) (answers_of typed) isolation decls) decls
        lowering
        → IsWellFormed declared.shapes (map global_kind declared.globals) lowering.functions
        lowering.entry lowering.starts }
{
    programs_have_one_world();
    answers_are_those_of_the_program();
    programs_have_well_formed_graphs();
}

/// The graph of a program that keeps the rules on declarations and on types. It declares
/// `declared`, its nodes have the types and meanings of `typed`, `isolated` is what is known of its
/// isolation, and `lowering` has its functions.
pub fn graph_of(
    alloc: Global,
    program: &Program,
    declared: Decls,
    typed: &Typed,
    isolated: &Isolated,
    lowering: Lowering,
) -> Result<Graph, AllocError>
    requires apart { CasesApart program.now.decls }
    requires sound { IsFirstBreach program.now.decls None }
    requires declared { (rule : AsyncDefault) × IsDeclared program.now.decls rule declared }
    requires typed { IsTyped (world_of declared) program.now.decls typed.now }
    requires well { IsFirstIll (world_of declared) program.now.decls None }
    requires lowering { IsLowering (tables_of (world_of declared) (answers_of typed.now)
        (isolation_of isolated.now) program.now.decls) program.now.decls lowering }
    ensures { IfOk result (Lowered (world_of declared) (answers_of typed.now)
        (isolation_of isolated.now) program.now.decls) }
{
    lowerings_are_well_formed();
    let _decls = program.decls();
    let globals = kinds_of(alloc, declared.globals.as_slice())?;
    let functions = Functions::new(alloc, lowering.functions)?;
    Ok(Graph::new(
        declared.shapes,
        globals,
        functions,
        lowering.entry,
        lowering.starts,
    ))
}
