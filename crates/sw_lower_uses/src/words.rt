//! What words mean where they are read.
#![tactic(auto, unfolding(sw_lower_code::specs::Code::andthen, sw_lower_code::specs::Code::known, sw_lower_rules::specs::Uses::read_own, sw_lower_rules::specs::Uses::read_self, sw_lower_rules::specs::Uses::read_word, sw_lower_rules::specs::Uses::unknown))]

ghost use Rattle.sw_lower_draft.specs.Drafts.{GivesAsRun, making_of};
ghost use Rattle.sw_lower_known.specs.Knowledge.{tables_by};
ghost use Rattle.sw_lower_rules.specs.Uses.{read_own, read_self, read_word, word_by};

use crate::globals::read_global;
use crate::parts::read_part;
use crate::variables::read_var;
use std::alloc::Global;
use sw_graph::Operand;
use sw_lower_draft::Draft;
use sw_lower_known::Known;
use sw_lower_plans::CodeFault;
use sw_typing_rules::Meaning;

/// Reads `self` in a member of the type with the number `owner`.
pub fn read_self(
    alloc: Global,
    known: &Known<'_>,
    owner: Option<u32>,
    at: u32,
    draft: &mut Draft<'_>,
) -> Result<Operand, CodeFault>
    ensures { GivesAsRun ((read_self (tables_by known.now) owner at).run (making_of draft.old))
        result draft.new }
{
    let key = known.self_key(owner).ok_or(CodeFault::Missing)?;
    read_var(alloc, known, at, key, draft)
}

/// Reads the property with this number of `self`, which is left out.
pub fn read_own(
    alloc: Global,
    known: &Known<'_>,
    owner: Option<u32>,
    at: u32,
    number: usize,
    draft: &mut Draft<'_>,
) -> Result<Operand, CodeFault>
    ensures { GivesAsRun ((read_own (tables_by known.now) owner at number).run
        (making_of draft.old))
        result draft.new }
{
    let me = read_self(alloc, known, owner, at, draft)?;
    let shape = owner.ok_or(CodeFault::Missing)?;
    read_part(alloc, known, at, shape, number, me, draft)
}

/// Reads what a word means.
fn word_by(
    alloc: Global,
    known: &Known<'_>,
    owner: Option<u32>,
    at: u32,
    meaning: Option<Meaning>,
    draft: &mut Draft<'_>,
) -> Result<Operand, CodeFault>
    ensures { GivesAsRun ((word_by (tables_by known.now) owner at meaning).run
        (making_of draft.old))
        result draft.new }
{
    match meaning {
        Some(Meaning::Local(key)) => read_var(alloc, known, at, key, draft),
        Some(Meaning::OwnPart(number)) => read_own(alloc, known, owner, at, number, draft),
        Some(Meaning::GlobalOf(number)) => read_global(alloc, known, at, number, draft),
        Some(
            Meaning::OwnFunc(_)
            | Meaning::FuncOf(_)
            | Meaning::MakeOf(_)
            | Meaning::CaseOf(_, _)
            | Meaning::PartOf(_)
            | Meaning::Print
            | Meaning::TaskValue,
        )
        | None => Err(CodeFault::Missing),
    }
}

/// Reads the word at `at`.
pub fn read_word(
    alloc: Global,
    known: &Known<'_>,
    owner: Option<u32>,
    at: u32,
    draft: &mut Draft<'_>,
) -> Result<Operand, CodeFault>
    ensures { GivesAsRun ((read_word (tables_by known.now) owner at).run (making_of draft.old))
        result draft.new }
{
    word_by(alloc, known, owner, at, known.meaning_at(at), draft)
}
