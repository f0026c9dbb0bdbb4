//! The functions of a program.
ghost use Rattle.std.specs.Prelude.{◌≡◌, ◌++◌, ◌∷◌, ◌<◌, ◌^◌, [], None, List, length, map, All};
ghost use Rattle.std.specs.Prelude.{IfErr, IfOk, OnOk};
ghost use Rattle.sw_isolation_table.specs.Known.{answers_of};
ghost use Rattle.sw_lower.specs.Lowered.{AsksInVain, EndsWell, FailsFor, HasMade, IsFaultOf};
ghost use Rattle.sw_lower.specs.Lowered.{IsLowering, IsMadeOf, SomeAsks, function_by};
ghost use Rattle.sw_lower_known.specs.Knowledge.{isolation_of, tables_by};
ghost use Rattle.sw_lower_rules.specs.Bodies.{IsFirstTooLarge, Lacks, tables_of, too_large_in};
ghost use Rattle.sw_lower_rules.specs.Tables.{Tables};
ghost use Rattle.sw_tree.specs.declared.decl.Decl.{Decl};
ghost use Rattle.sw_typing_rules.specs.Worlds.{world_of};

use crate::fault::LowerFault;
use crate::making::function_of;
use crate::numbers::{entry_of, in_order, numbers_of, starts_of};
use std::alloc::Global;
use sw_decl_words::{Placed, first_of};
use sw_decls::Decls;
use sw_graph::{FunctionList, IdList};
use sw_isolation_table::Isolated;
use sw_list::ListOf;
use sw_lower_bodies::{BodyTree, bodies_of};
use sw_lower_code::BodyFault;
use sw_lower_draft::NumberTable;
use sw_lower_known::Known;
use sw_tree::{Decl, Program};
use sw_typing_table::Typed;

/// A function with more registers than a function of a graph.
const TOO_MANY_REGISTERS: u16 = 510;

/// A function with more points than a function of a graph.
const TOO_MANY_POINTS: u16 = 511;

/// How many functions have a number.
const MOST_FUNCTIONS: usize = 4_294_967_295;

/// The functions of bodies, and those that are too large.
#[derive(Drop)]
pub struct Made {
    pub functions: FunctionList,
    pub too_large: ListOf<Placed>,
}

/// The functions of a program, with the numbers of those that a graph names.
#[derive(Drop)]
pub struct Lowering {
    pub functions: FunctionList,
    /// The function of the entry.
    pub entry: u32,
    /// The functions that give the global variables their first values, in order.
    pub starts: IdList,
}

/// What is made of a program: its functions, and the numbers of those that a graph names.
#[derive(Drop)]
pub struct MadeProgram {
    pub made: Made,
    pub entry: u32,
    pub starts: IdList,
}

/// Adds the function of a body to others.
#[tactic(auto, unfolding(sw_lower_code::specs::Whole::function_of))]
fn add(
    alloc: Global,
    known: &Known<'_>,
    numbers: &NumberTable,
    tree: BodyTree<'_>,
    made: &mut Made,
) -> Result<(), LowerFault>
    ensures too_large { OnOk result (made.new.too_large ≡ made.old.too_large
        ++ too_large_in (function_by known.now numbers.now tree.entry ∷ [])) }
    ensures functions { OnOk result (made.new.too_large ≡ [] → made.new.functions
        ≡ made.old.functions ++ function_by known.now numbers.now tree.entry ∷ []) }
    ensures made { OnOk result (made.new.too_large ≡ []
        → EndsWell known.now numbers.now tree.entry) }
    ensures fault { IfErr result (FailsFor (AsksInVain known.now numbers.now tree.entry)) }
{
    match function_of(alloc, known, numbers, tree) {
        Ok(function) => Ok(made.functions.push(function)?),
        Err(BodyFault::TooManyRegisters { function }) => Ok(
            made.too_large.push(Placed {
                at: function,
                code: TOO_MANY_REGISTERS,
            })?,
        ),
        Err(BodyFault::TooManyPoints { function }) => Ok(
            made.too_large.push(Placed {
                at: function,
                code: TOO_MANY_POINTS,
            })?,
        ),
        Err(BodyFault::TooManyBlocks) => Err(LowerFault::Missing),
        Err(BodyFault::Missing) => Err(LowerFault::Missing),
        Err(BodyFault::Memory) => Err(LowerFault::Memory),
    }
}

/// The functions of bodies in order.
fn make_all(
    alloc: Global,
    known: &Known<'_>,
    numbers: &NumberTable,
    bodies: &[BodyTree<'_>],
) -> Result<Made, LowerFault>
    ensures functions { IfOk result (HasMade (map (function_by known.now numbers.now) bodies.now)) }
    ensures made { IfOk result (λ made. made.too_large ≡ []
        → All (EndsWell known.now numbers.now) bodies.now) }
    ensures fault { IfErr result (FailsFor (SomeAsks known.now numbers.now bodies.now)) }
{
    let mut made = Made {
        functions: ListOf::new(alloc),
        too_large: ListOf::new(alloc),
    };
    for tree in bodies {
        add(alloc, known, numbers, *tree, &mut made)?;
    }
    Ok(made)
}

/// The functions of a program in the order of their keys.
fn make_program<'a>(
    alloc: Global,
    known: &'a Known<'a>,
    decls: &'a [Decl],
) -> Result<MadeProgram, LowerFault>
    requires { length decls.now < 2 ^ 31 }
    ensures made { IfOk result (IsMadeOf (tables_by known.now) decls.now) }
    ensures fault { IfErr result (FailsFor (Lacks (tables_by known.now) decls.now)) }
{
    let bodies = in_order(bodies_of(alloc, known, decls)?);
    if bodies.len() > MOST_FUNCTIONS {
        return Err(LowerFault::Missing);
    }
    let numbers = numbers_of(alloc, bodies.as_slice())?;
    let made = make_all(alloc, known, &numbers, bodies.as_slice())?;
    let entry = entry_of(decls, &numbers)?;
    let starts = starts_of(alloc, known.world.globals.as_slice(), &numbers)?;
    Ok(MadeProgram {
        made,
        entry,
        starts,
    })
}

/// The functions that were made, or the first that is too large.
fn decided(program: MadeProgram) -> Result<Lowering, LowerFault>
    ensures functions { (tables : Tables) (decls : List Decl) → IsMadeOf tables decls program
        → IfOk result (IsLowering tables decls) }
    ensures none { (tables : Tables) (decls : List Decl) → IsMadeOf tables decls program
        → OnOk result (IsFirstTooLarge tables decls None) }
    ensures first { (tables : Tables) (decls : List Decl) → IsMadeOf tables decls program
        → IfErr result (IsFaultOf tables decls) }
{
    let MadeProgram {
        made,
        entry,
        starts,
    } = program;
    match first_of(made.too_large.as_slice()) {
        None => Ok(Lowering {
            functions: made.functions,
            entry,
            starts,
        }),
        Some(first) => Err(LowerFault::Breach {
            code: first.code,
            at: first.at,
        }),
    }
}

/// The functions of a program in the order of their keys, or the first that is too large. A program
/// in which something is missing has none. The program declares `world`, its nodes have the types
/// and meanings of `typed`, and `isolated` is what is known of its isolation.
pub fn lower(
    alloc: Global,
    program: &Program,
    world: &Decls,
    typed: &Typed,
    isolated: &Isolated,
) -> Result<Lowering, LowerFault>
    requires { length program.now.decls < 2 ^ 31 }
    ensures functions { IfOk result (IsLowering (tables_of (world_of world.now)
        (answers_of typed.now) (isolation_of isolated.now) program.now.decls) program.now.decls) }
    ensures none { OnOk result (IsFirstTooLarge (tables_of (world_of world.now)
        (answers_of typed.now) (isolation_of isolated.now) program.now.decls) program.now.decls
        None) }
    ensures first { IfErr result (IsFaultOf (tables_of (world_of world.now)
        (answers_of typed.now) (isolation_of isolated.now) program.now.decls) program.now.decls) }
{
    let decls = program.decls();
    let known = Known::of(alloc, decls, world, typed, isolated)?;
    let made = make_program(alloc, &known, decls)?;
    decided(made)
}
