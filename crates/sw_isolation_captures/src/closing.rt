//! What a closure makes of what is noted inside it.
ghost use Rattle.std.specs.Prelude.{◌≡◌, ◌++◌, ◌∷◌, [], flat_map, not, map, OnOk};
ghost use Rattle.std.specs.List.{filter};
ghost use Rattle.std.specs.Option.{option_to_list};
ghost use Rattle.sw_isolation_rules.specs.Captures.{captured, closed, firsts, held_self};
ghost use Rattle.sw_isolation_rules.specs.Captures.{is_among, is_mention, mentioned, outer};
ghost use Rattle.sw_isolation_rules.specs.Captures.{own_mentions, self_first};
ghost use Rattle.sw_isolation_rules.specs.declared.note.Mention.{Mention};
ghost use Rattle.sw_isolation_rules.specs.declared.note.Note.TheVariants.{Mentioned};
ghost use Rattle.sw_typing_rules.specs.Worlds.{world_of};

use crate::firsts::own_mentions;
use crate::listed::Listed;
use crate::mention::{self_mention, self_of};
use std::alloc::{AllocError, Global};
use sw_decls::Decls;
use sw_isolation_rules::{Captured, Context, Mention, Note, is_own};
use sw_list::ListOf;

/// That a closure holds `self`, as a mention of it at the closure, where its body is isolated to
/// `self`.
fn held_self(world: &Decls, context: Context, closure: u32) -> Option<Mention>
    ensures { option_to_list result ≡ held_self (world_of world.now) context closure }
{
    if is_own(context.iso) {
        self_mention(world, context.owner, closure)
    } else {
        None
    }
}

/// Whether a note is a mention.
fn is_mention(note: Note) -> bool
    ensures { result ≡ is_mention note }
{
    match note {
        Note::Mentioned(_) => true,
        Note::Body(_)
        | Note::Kind(_)
        | Note::Refused(_)
        | Note::Race(_)
        | Note::Var(_)
        | Note::Captures(_) => false,
    }
}

/// Notes again what is no mention.
fn note_others(inner: &[Note], notes: &mut ListOf<Note>) -> Result<(), AllocError>
    ensures { OnOk result (notes.new
        ≡ notes.old ++ filter (λ note. not (is_mention note)) inner.now) }
{
    for note in inner {
        if !is_mention(*note) {
            notes.push(*note)?;
        }
    }
    Ok(())
}

/// Notes mentions.
fn note_mentions(mentions: &[Mention], notes: &mut ListOf<Note>) -> Result<(), AllocError>
    ensures { OnOk result (notes.new ≡ notes.old ++ map Mentioned mentions.now) }
{
    for mention in mentions {
        notes.push(Note::Mentioned(*mention))?;
    }
    Ok(())
}

/// Notes that a closure captures what is mentioned so first.
fn note_capture(
    closure: u32,
    listed: &Listed,
    mention: Mention,
    notes: &mut ListOf<Note>,
) -> Result<(), AllocError>
    ensures { OnOk result (notes.new ≡ notes.old ++ captured closure listed.now mention ∷ []) }
{
    notes.push(Note::Captures(Captured {
        closure,
        mention,
        listed: listed.contains(mention.variable),
    }))
}

/// Whether a variable is `self`, where there is one.
fn is_self(me: Option<u32>, variable: u32) -> bool
    ensures { result ≡ is_among (option_to_list me) variable }
{
    match me {
        None => false,
        Some(me) => me == variable,
    }
}

/// Notes the capture of `self`, where it is mentioned.
fn note_self(
    me: Option<u32>,
    closure: u32,
    listed: &Listed,
    mentions: &[Mention],
    notes: &mut ListOf<Note>,
) -> Result<(), AllocError>
    ensures { OnOk result (notes.new ≡ notes.old ++ map (captured closure listed.now)
        (filter (λ (one : Mention). is_among (option_to_list me) one.variable) mentions.now)) }
{
    for one in mentions {
        if is_self(me, one.variable) {
            note_capture(closure, listed, *one, notes)?;
        }
    }
    Ok(())
}

/// Notes the captures of all that is mentioned but `self`.
fn note_rest(
    me: Option<u32>,
    closure: u32,
    listed: &Listed,
    mentions: &[Mention],
    notes: &mut ListOf<Note>,
) -> Result<(), AllocError>
    ensures { OnOk result (notes.new ≡ notes.old ++ map (captured closure listed.now) (filter
        (λ (one : Mention). not (is_among (option_to_list me) one.variable)) mentions.now)) }
{
    for one in mentions {
        if !is_self(me, one.variable) {
            note_capture(closure, listed, *one, notes)?;
        }
    }
    Ok(())
}

/// Notes the captures of a closure by the first mentions of what it takes.
fn note_captures(
    me: Option<u32>,
    closure: u32,
    listed: &Listed,
    mentions: &[Mention],
    notes: &mut ListOf<Note>,
) -> Result<(), AllocError>
    ensures { OnOk result (notes.new ≡ notes.old ++ map (captured closure listed.now)
        (self_first (option_to_list me) mentions.now)) }
{
    note_self(me, closure, listed, mentions, notes)?;
    note_rest(me, closure, listed, mentions, notes)
}

/// Notes what remains of the notes inside a closure, where `self` is known, if there is one, and
/// so is the mention of it that the closure holds in any case.
fn close_with(
    alloc: Global,
    me: Option<u32>,
    held: Option<Mention>,
    closure: u32,
    listed: &Listed,
    inner: &[Note],
    notes: &mut ListOf<Note>,
) -> Result<(), AllocError>
    ensures { OnOk result (notes.new ≡ notes.old
        ++ (filter (λ note. not (is_mention note)) inner.now
        ++ map (captured closure listed.now) (self_first (option_to_list me)
        (firsts (outer closure (flat_map mentioned inner.now ++ option_to_list held))))
        ++ map Mentioned (own_mentions closure inner.now))) }
{
    note_others(inner, notes)?;
    let mut firsts = own_mentions(alloc, closure, inner)?;
    let own = firsts.len();
    firsts.add_outer(closure, held)?;
    note_captures(me, closure, listed, firsts.as_slice(), notes)?;
    note_mentions(&firsts.as_slice()[..own], notes)
}

/// Notes what remains of the notes inside a closure or a task once its end is reached: these but
/// for the mentions, then its captures, and then the outer variables that it mentions, for what is
/// around it. `context` is that of the body, `closure` its key, and `listed` has the closure's own
/// list too. It takes a time that is linear in the notes.
pub fn close(
    alloc: Global,
    world: &Decls,
    context: Context,
    closure: u32,
    listed: &Listed,
    inner: ListOf<Note>,
    notes: &mut ListOf<Note>,
) -> Result<(), AllocError>
    ensures { OnOk result (notes.new ≡ notes.old
        ++ closed (world_of world.now) context closure listed.now inner) }
{
    let me = self_of(world, context.owner);
    let held = held_self(world, context, closure);
    close_with(alloc, me, held, closure, listed, inner.as_slice(), notes)
}
