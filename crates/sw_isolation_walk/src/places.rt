//! What stands before a `.`, and what an assignment writes.
ghost use Rattle.std.specs.Prelude.{◌≡◌, ◌++◌, OnOk};
ghost use Rattle.sw_isolation_table.specs.Known.{answers_of};
ghost use Rattle.sw_isolation_rules.specs.Answers.{Answers};
ghost use Rattle.sw_isolation_rules.specs.Noting.{see};
ghost use Rattle.sw_isolation_rules.specs.Uses.{base_of};
ghost use Rattle.sw_isolation_walk.specs.Walked.{written_place};
ghost use Rattle.sw_typing_rules.specs.Worlds.{World, world_of};

use std::alloc::AllocError;
use sw_decls::Decls;
use sw_isolation_rules::{Base, Context, Note, Used, expressions_are_noted_by_key};
use sw_isolation_steps::{base_of, no_base, store_notes, used};
use sw_list::ListOf;
use sw_tree::Expr;
use sw_typing_table::Typed;

/// The key of an expression.
fn key_of(tree: &Expr) -> u32
    ensures { (world : World) (answers : Answers)
        → result ≡ (see world answers tree.now).key }
{
    expressions_are_noted_by_key();
    tree.key()
}

/// Whether it is the word `self`.
#[tactic(auto, unfolding(sw_isolation_rules::specs::Noting::see))]
fn is_self(tree: &Expr) -> bool
    ensures { (world : World) (answers : Answers)
        → result ≡ (see world answers tree.now).is_self }
{
    match tree {
        Expr::Me { .. } => true,
        Expr::Int { .. }
        | Expr::Bool { .. }
        | Expr::Use { .. }
        | Expr::Member { .. }
        | Expr::Call { .. }
        | Expr::Method { .. }
        | Expr::Chain { .. }
        | Expr::Prefix { .. }
        | Expr::Await { .. }
        | Expr::Fun(_)
        | Expr::Spawn { .. }
        | Expr::Yield { .. } => false,
    }
}

/// What is known of an expression that stands before a `.`.
pub fn base_at(typed: &Typed, tree: &Expr) -> Base
    ensures { (world : World) → result ≡ base_of (answers_of typed.now)
        (see world (answers_of typed.now) tree.now).key
        (see world (answers_of typed.now) tree.now).is_self }
{
    base_of(typed, key_of(tree), is_self(tree))
}

/// Notes the assignment to a part of the place `tree`, or to itself, which is said of the key `at`.
#[tactic(auto, unfolding(sw_isolation_rules::specs::Noting::see))]
fn stores(
    world: &Decls,
    typed: &Typed,
    context: Context,
    at: u32,
    tree: &Expr,
    notes: &mut ListOf<Note>,
) -> Result<(), AllocError>
    ensures { OnOk result (notes.new ≡ notes.old
        ++ (see (world_of world.now) (answers_of typed.now) tree.now).stores context at) }
{
    match tree {
        Expr::Use { name } => {
            let one = used(world, typed, context.owner, no_base(), name.at);
            store_notes(context, at, one, notes)
        }
        Expr::Member { base, name } => {
            let base = base.get();
            let known = base_at(typed, base);
            match used(world, typed, context.owner, known, name.at) {
                Used::Field => stores(world, typed, context, at, base, notes),
                one @ (Used::Called { .. } | Used::Stored(_) | Used::Waited | Used::Nothing) => {
                    store_notes(context, at, one, notes)
                }
            }
        }
        Expr::Int { .. }
        | Expr::Bool { .. }
        | Expr::Me { .. }
        | Expr::Call { .. }
        | Expr::Method { .. }
        | Expr::Chain { .. }
        | Expr::Prefix { .. }
        | Expr::Await { .. }
        | Expr::Fun(_)
        | Expr::Spawn { .. }
        | Expr::Yield { .. } => Ok(()),
    }
}

/// Notes the assignment to a place.
#[tactic(auto, unfolding(crate::specs::Walked::written_place))]
pub fn written(
    world: &Decls,
    typed: &Typed,
    context: Context,
    tree: &Expr,
    notes: &mut ListOf<Note>,
) -> Result<(), AllocError>
    ensures { OnOk result (notes.new ≡ notes.old
        ++ written_place (world_of world.now) (answers_of typed.now) tree.now context) }
{
    stores(world, typed, context, key_of(tree), tree, notes)
}
