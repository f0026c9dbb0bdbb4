//! The captures and the boxes of a program.
ghost use Rattle.std.specs.Prelude.{◌≡◌, ◌++◌, ◌∷◌, [], flat_map, map, OnOk, IfOk};
ghost use Rattle.std.specs.Option.{option_to_list};
ghost use Rattle.sw_isolation_rules.specs.Lists.{by_reference, capture_of, captures_in, held_in};
ghost use Rattle.sw_isolation_rules.specs.Lists.{var_in, vars_in};
ghost use Rattle.sw_isolation_rules.specs.declared.note.Capture.{Capture};

use crate::listed::Listed;
use std::alloc::{AllocError, Global};
use sw_isolation_rules::{Capture, Captured, Note};
use sw_list::ListOf;

/// Adds the key of a `var`, if it is noted here.
fn add_var(note: Note, vars: &mut Listed) -> Result<(), AllocError>
    ensures { OnOk result (vars.new ≡ vars.old ++ var_in note) }
{
    match note {
        Note::Var(key) => vars.push(key),
        Note::Body(_)
        | Note::Kind(_)
        | Note::Refused(_)
        | Note::Race(_)
        | Note::Mentioned(_)
        | Note::Captures(_) => Ok(()),
    }
}

/// The variables that are declared by `var`.
fn vars_in(alloc: Global, notes: &[Note]) -> Result<Listed, AllocError>
    ensures { IfOk result (λ vars. vars ≡ vars_in notes.now) }
{
    let mut vars = Listed::new(alloc);
    for note in notes {
        add_var(*note, &mut vars)?;
    }
    Ok(vars)
}

/// A captured variable, and whether the closure shares it.
fn capture_of(vars: &Listed, held: Captured) -> Capture
    ensures { result ≡ capture_of vars.now held }
{
    let Captured {
        closure,
        mention,
        listed,
    } = held;
    Capture {
        closure,
        variable: mention.variable,
        by_ref: vars.contains(mention.variable) && !listed,
        first: mention.at,
    }
}

/// Adds the capture that is noted here, if it is one.
fn add_capture(vars: &Listed, note: Note, captures: &mut ListOf<Capture>) -> Result<(), AllocError>
    ensures { OnOk result (captures.new
        ≡ captures.old ++ map (capture_of vars.now) (held_in note)) }
{
    match note {
        Note::Captures(held) => captures.push(capture_of(vars, held)),
        Note::Body(_)
        | Note::Kind(_)
        | Note::Refused(_)
        | Note::Race(_)
        | Note::Var(_)
        | Note::Mentioned(_) => Ok(()),
    }
}

/// The captures that are noted, where the keys of the `var`s are known.
fn captures_by(alloc: Global, vars: &Listed, notes: &[Note]) -> Result<ListOf<Capture>, AllocError>
    ensures { IfOk result (λ captures. captures
        ≡ map (capture_of vars.now) (flat_map held_in notes.now)) }
{
    let mut captures = ListOf::new(alloc);
    for note in notes {
        add_capture(vars, *note, &mut captures)?;
    }
    Ok(captures)
}

/// The captures among the notes of a program, in their order: closure after closure as they end.
/// It takes a time that is linear in the notes.
pub fn captures_in(alloc: Global, notes: &[Note]) -> Result<ListOf<Capture>, AllocError>
    ensures { IfOk result (λ captures. captures ≡ captures_in notes.now) }
{
    let vars = vars_in(alloc, notes)?;
    captures_by(alloc, &vars, notes)
}

/// The variables that are captured by reference, which are kept in boxes: one for each such
/// capture, so that a variable of several closures stands there several times.
pub fn boxes_in(alloc: Global, captures: &[Capture]) -> Result<ListOf<u32>, AllocError>
    ensures { IfOk result (λ variables. variables
        ≡ map (λ (one : Capture). one.variable) (by_reference captures.now)) }
{
    let mut variables = ListOf::new(alloc);
    for one in captures {
        if one.by_ref {
            variables.push(one.variable)?;
        }
    }
    Ok(variables)
}
