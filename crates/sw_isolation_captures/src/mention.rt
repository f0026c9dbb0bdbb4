//! Where variables are mentioned.
ghost use Rattle.std.specs.Prelude.{◌≡◌, ◌++◌, map, OnOk};
ghost use Rattle.std.specs.Option.{option_to_list};
ghost use Rattle.sw_isolation_table.specs.Known.{answers_of};
ghost use Rattle.sw_isolation_rules.specs.Captures.{me_mentions, meant_mentions, self_of};
ghost use Rattle.sw_isolation_rules.specs.Captures.{list_mentions, variables, word_mentions};
ghost use Rattle.sw_isolation_rules.specs.declared.note.Note.TheVariants.{Mentioned};
ghost use Rattle.sw_typing_rules.specs.Worlds.{world_of};

use crate::listed::Listed;
use std::alloc::AllocError;
use sw_decls::Decls;
use sw_isolation_rules::{Mention, Note};
use sw_list::ListOf;
use sw_tree::Name;
use sw_typing_rules::Meaning;
use sw_typing_table::Typed;

/// The variable `self` of a member of the type `owner`, if there is such a type.
pub fn self_of(world: &Decls, owner: Option<u32>) -> Option<u32>
    ensures { option_to_list result ≡ self_of (world_of world.now) owner }
{
    match owner {
        None => None,
        Some(shape) => match world.shapes.list().get(shape as usize) {
            None => None,
            Some(shape) => Some(shape.at),
        },
    }
}

/// The mention of `self` at this key, in a member of the type `owner`.
#[tactic(auto, unfolding(sw_isolation_rules::specs::Captures::me_mentions))]
pub fn self_mention(world: &Decls, owner: Option<u32>, at: u32) -> Option<Mention>
    ensures { option_to_list result ≡ me_mentions (world_of world.now) owner at }
{
    match self_of(world, owner) {
        None => None,
        Some(me) => Some(Mention { variable: me, at }),
    }
}

/// The mention of a variable by a word with this meaning.
fn meant_mention(world: &Decls, owner: Option<u32>, at: u32, meaning: Meaning) -> Option<Mention>
    ensures { option_to_list result ≡ meant_mentions (world_of world.now) owner at meaning }
{
    match meaning {
        Meaning::Local(variable) => Some(Mention { variable, at }),
        Meaning::OwnPart(_) | Meaning::OwnFunc(_) => self_mention(world, owner, at),
        Meaning::GlobalOf(_)
        | Meaning::FuncOf(_)
        | Meaning::MakeOf(_)
        | Meaning::CaseOf(_, _)
        | Meaning::PartOf(_)
        | Meaning::Print
        | Meaning::TaskValue => None,
    }
}

/// The mention of a variable by the word with this key.
#[tactic(auto, unfolding(sw_isolation_rules::specs::Captures::word_mentions))]
fn word_mention(world: &Decls, typed: &Typed, owner: Option<u32>, at: u32) -> Option<Mention>
    ensures { option_to_list result
        ≡ word_mentions (world_of world.now) (answers_of typed.now) owner at }
{
    match typed.meaning_at(at) {
        None => None,
        Some(meaning) => meant_mention(world, owner, at, meaning),
    }
}

/// Notes a mention, if it is one.
fn note_mention(mention: Option<Mention>, notes: &mut ListOf<Note>) -> Result<(), AllocError>
    ensures { OnOk result (notes.new ≡ notes.old ++ map Mentioned (option_to_list mention)) }
{
    match mention {
        None => Ok(()),
        Some(mention) => notes.push(Note::Mentioned(mention)),
    }
}

/// Notes that `self` is mentioned at this key, in a member of the type `owner`. Outside of types
/// there is no `self`, and nothing is noted.
pub fn mention_self(
    world: &Decls,
    owner: Option<u32>,
    at: u32,
    notes: &mut ListOf<Note>,
) -> Result<(), AllocError>
    ensures { OnOk result (notes.new
        ≡ notes.old ++ map Mentioned (me_mentions (world_of world.now) owner at)) }
{
    note_mention(self_mention(world, owner, at), notes)
}

/// Notes what the word with this key mentions: the variable that it means, or `self` where it is a
/// member of the type around.
pub fn mention_word(
    world: &Decls,
    typed: &Typed,
    owner: Option<u32>,
    at: u32,
    notes: &mut ListOf<Note>,
) -> Result<(), AllocError>
    ensures { OnOk result (notes.new ≡ notes.old
        ++ map Mentioned (word_mentions (world_of world.now) (answers_of typed.now) owner at)) }
{
    note_mention(word_mention(world, typed, owner, at), notes)
}

/// Notes what the words of a capture list mention.
pub fn mention_list(
    world: &Decls,
    typed: &Typed,
    owner: Option<u32>,
    words: &[Name],
    notes: &mut ListOf<Note>,
) -> Result<(), AllocError>
    ensures { OnOk result (notes.new ≡ notes.old ++ map Mentioned
        (list_mentions (world_of world.now) (answers_of typed.now) owner words.now)) }
{
    for word in words {
        mention_word(world, typed, owner, word.at, notes)?;
    }
    Ok(())
}

/// Adds the variable of a mention, if it is one.
fn list_mention(mention: Option<Mention>, listed: &mut Listed) -> Result<(), AllocError>
    ensures { OnOk result (listed.new ≡ listed.old ++ variables (option_to_list mention)) }
{
    match mention {
        None => Ok(()),
        Some(mention) => listed.push(mention.variable),
    }
}

/// Adds the variable that the word with this key mentions.
fn list_word(
    world: &Decls,
    typed: &Typed,
    owner: Option<u32>,
    at: u32,
    listed: &mut Listed,
) -> Result<(), AllocError>
    ensures { OnOk result (listed.new ≡ listed.old ++ variables
        (word_mentions (world_of world.now) (answers_of typed.now) owner at)) }
{
    list_mention(word_mention(world, typed, owner, at), listed)
}

/// Adds the variables of a capture list to those that the closures around list.
pub fn list_words(
    world: &Decls,
    typed: &Typed,
    owner: Option<u32>,
    words: &[Name],
    listed: &mut Listed,
) -> Result<(), AllocError>
    ensures { OnOk result (listed.new ≡ listed.old ++ variables
        (list_mentions (world_of world.now) (answers_of typed.now) owner words.now)) }
{
    for word in words {
        list_word(world, typed, owner, word.at, listed)?;
    }
    Ok(())
}
