//! Words and members that are read.
ghost use Rattle.std.specs.Prelude.{◌≡◌, IfOk, OnOk};
ghost use Rattle.sw_typing_rules.specs.Verdicts.{type_in};
ghost use Rattle.sw_typing_rules.specs.Words.{sense};
ghost use Rattle.sw_typing_rules.specs.Worlds.{world_of};
ghost use Rattle.sw_typing_words.specs.Outer.{as_sense};
ghost use Rattle.sw_typing_steps.specs.Readings.{case_reading, found_reading, member_reading};
ghost use Rattle.sw_typing_steps.specs.Readings.{read_known, read_rows, sense_reading};
ghost use Rattle.sw_typing_steps.specs.Readings.{value_reading, variable_reading};
ghost use Rattle.sw_typing_steps.specs.Steps.{with_rows};

use crate::known::Known;
use crate::table::Table;
use std::alloc::{AllocError, Global};
use sw_decls::Decls;
use sw_types::Ty;
use sw_typing_rules::{Found, Meaning, Var, Verdict};
use sw_typing_words::{
    Outer, Scope, case_in, case_meaning, enum_types, found_in, found_meaning, found_settable,
    found_types, outer, outer_enum, outer_meaning, outer_settable, outer_types, var_types,
};

/// What is said of a word or a member that is read.
#[derive(Drop)]
pub struct Reading {
    pub meaning: Option<Meaning>,
    pub verdict: Verdict,
    /// The enum that it names before a `.`, by number.
    pub names: Option<u32>,
    /// Whether it can be assigned.
    pub settable: bool,
}

/// The type that a rule gives, if it gives one.
pub fn type_in(verdict: Verdict) -> Option<Ty>
    ensures { result ≡ type_in verdict }
{
    match verdict {
        Verdict::Has(ty) => Some(ty),
        Verdict::Fails(_) | Verdict::Held => None,
    }
}

/// A variable.
fn variable_reading(alloc: Global, var: &Var) -> Result<Reading, AllocError>
    ensures { IfOk result (λ reading. reading ≡ variable_reading var.now) }
{
    Ok(Reading {
        meaning: Some(Meaning::Local(var.at)),
        verdict: var_types(alloc, &var.ty)?,
        names: None,
        settable: var.mutable,
    })
}

/// A word that no visible variable has as its name.
fn outer_reading(alloc: Global, world: &Decls, meant: Outer) -> Result<Reading, AllocError>
    ensures { IfOk result (λ reading. reading
        ≡ sense_reading (world_of world.now) (as_sense meant)) }
{
    Ok(Reading {
        meaning: outer_meaning(meant),
        verdict: outer_types(alloc, world, meant)?,
        names: outer_enum(meant),
        settable: outer_settable(world, meant),
    })
}

/// A word in a member of the type `owner`, if there is one, where these variables are visible.
pub fn word_reading(
    alloc: Global,
    world: &Decls,
    owner: Option<u32>,
    vars: &Scope,
    id: u32,
) -> Result<Reading, AllocError>
    ensures { IfOk result (λ reading. reading ≡ sense_reading (world_of world.now)
        (sense (world_of world.now) (record { owner = owner; vars = vars.now }) id)) }
{
    match vars.find(id) {
        Some(var) => variable_reading(alloc, var),
        None => outer_reading(alloc, world, outer(world, owner, id)),
    }
}

/// What a name means after a value.
fn found_reading(
    alloc: Global,
    world: &Decls,
    base: bool,
    found: Found,
) -> Result<Reading, AllocError>
    ensures { IfOk result (λ reading. reading ≡ found_reading (world_of world.now) base found) }
{
    Ok(Reading {
        meaning: found_meaning(&found),
        verdict: found_types(alloc, world, &found)?,
        names: None,
        settable: found_settable(world, base, &found),
    })
}

/// A member of a value of this type, if it has one; `base` says whether the value can be assigned.
fn value_reading(
    alloc: Global,
    world: &Decls,
    base: bool,
    ty: &Option<Ty>,
    id: u32,
) -> Result<Reading, AllocError>
    ensures { IfOk result (λ reading. reading
        ≡ value_reading (world_of world.now) base ty.now id) }
{
    match ty {
        None => Ok(Reading {
            meaning: None,
            verdict: Verdict::Held,
            names: None,
            settable: false,
        }),
        Some(ty) => {
            let found = found_in(alloc, world, ty, id)?;
            found_reading(alloc, world, base, found)
        }
    }
}

/// A case of an enum.
fn case_reading(world: &Decls, shape: u32, id: u32) -> Reading
    ensures { result ≡ case_reading (world_of world.now) shape id }
{
    let number = case_in(world, shape, id);
    Reading {
        meaning: case_meaning(shape, number),
        verdict: enum_types(world, shape, number),
        names: None,
        settable: false,
    }
}

/// A member of a value, or of the enum that a word names.
pub fn member_reading(
    alloc: Global,
    world: &Decls,
    base: &Known,
    id: u32,
) -> Result<Reading, AllocError>
    ensures { IfOk result (λ reading. reading ≡ member_reading (world_of world.now)
        base.now.settable base.now.names base.now.ty id) }
{
    match base.names {
        None => value_reading(alloc, world, base.settable, &base.ty, id),
        Some(shape) => Ok(case_reading(world, shape, id)),
    }
}

/// Notes what is read at a node.
pub fn note_reading(
    alloc: Global,
    at: u32,
    reading: Reading,
    table: &mut Table,
) -> Result<Known, AllocError>
    ensures known { IfOk result (λ known. known ≡ read_known at reading) }
    ensures noted { OnOk result (table.new ≡ with_rows table.old (read_rows at reading)) }
{
    table.rows.note_meaning(at, reading.meaning)?;
    table.rows.note_verdict(alloc, at, &reading.verdict)?;
    Ok(Known {
        key: at,
        ty: type_in(reading.verdict),
        names: reading.names,
        settable: reading.settable,
        is_true: false,
    })
}
