//! Tables by key, of lists in which the first with a key counts.
ghost use Rattle.std.specs.Prelude.{◌≡◌, ◌==◌, ℕ, Some, None, nat_eq, if◌then◌else◌, IfOk, OnOk};
ghost use Rattle.indexmap.specs.IndexMap.{get};
ghost use Rattle.sw_isolation_rules.specs.Lists.{kind_with};
ghost use Rattle.sw_decl_words.specs.Words.{or_else};

use indexmap::IndexMap;
use std::alloc::{AllocError, Global};
use sw_isolation_rules::Kinded;
use sw_types::CallKind;

/// Notes the value of a key, where none is noted of the key.
pub fn note_first<T: Copy>(
    table: &mut IndexMap<u32, T>,
    key: u32,
    value: T,
) -> Result<(), AllocError>
    ensures { OnOk result ((other : ℕ) → get nat_eq table.new other
        ≡ or_else (get nat_eq table.old other) (if key == other then Some value else None)) }
{
    if !table.contains_key(&key) {
        table.insert(key, value)?;
    }
    Ok(())
}

/// How calls and crossing reads cross, by their keys.
pub fn kinds_of(alloc: Global, kinds: &[Kinded]) -> Result<IndexMap<u32, CallKind>, AllocError>
    ensures { IfOk result (λ table. (key : ℕ) → get nat_eq table key ≡ kind_with kinds.now key) }
{
    let mut table = IndexMap::new(alloc);
    for one in kinds {
        note_first(&mut table, one.at, one.kind)?;
    }
    Ok(table)
}
