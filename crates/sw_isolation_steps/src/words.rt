//! What is noted of a word and of a member.
ghost use Rattle.std.specs.Prelude.{◌≡◌, ◌++◌, OnOk};
ghost use Rattle.sw_isolation_table.specs.Known.{answers_of};
ghost use Rattle.sw_isolation_rules.specs.Noting.{use_notes, used_at, word_notes};
ghost use Rattle.sw_typing_rules.specs.Worlds.{world_of};

use crate::lookups::{no_base, used};
use crate::steps::use_notes;
use std::alloc::AllocError;
use sw_decls::Decls;
use sw_isolation_captures::mention_word;
use sw_isolation_rules::{Base, Context, Note};
use sw_list::ListOf;
use sw_typing_table::Typed;

/// Notes a member after `base`, whose own notes stand before.
pub fn member_notes(
    world: &Decls,
    typed: &Typed,
    context: Context,
    base: Base,
    at: u32,
    notes: &mut ListOf<Note>,
) -> Result<(), AllocError>
    ensures { OnOk result (notes.new ≡ notes.old ++ use_notes context at
        (used_at (world_of world.now) (answers_of typed.now) context base at)) }
{
    let one = used(world, typed, context.owner, base, at);
    use_notes(context, at, one, notes)
}

/// Notes a word, which may leave out `self.`: what it mentions, and then its use.
pub fn word_notes(
    world: &Decls,
    typed: &Typed,
    context: Context,
    at: u32,
    notes: &mut ListOf<Note>,
) -> Result<(), AllocError>
    ensures { OnOk result (notes.new ≡ notes.old
        ++ word_notes (world_of world.now) (answers_of typed.now) context at) }
{
    mention_word(world, typed, context.owner, at, notes)?;
    member_notes(world, typed, context, no_base(), at, notes)
}
