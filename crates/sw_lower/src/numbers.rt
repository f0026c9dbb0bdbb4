//! The order and the numbers of functions.
ghost use Rattle.std.specs.Prelude.{◌≡◌, ◌≢◌, ◌==◌, ◌<◌, ◌^◌, ℕ, List, None, Some, length, map};
ghost use Rattle.std.specs.Prelude.{nat_eq, IfErr, IfOk, IsPermutation, OnOk, if◌then◌else◌};
ghost use Rattle.std.specs.List.Sorted.{IsNonDecreasingBy};
ghost use Rattle.indexmap.specs.IndexMap.{get};
ghost use Rattle.sw_lower_draft.specs.Drafts.{number_by};
ghost use Rattle.sw_lower.specs.Lowered.{FailsFor};
ghost use Rattle.sw_lower.specs.Ordered.{AreFound, tree_name, tree_order};
ghost use Rattle.sw_lower_plans.specs.declared.name.FunctionName.{FunctionName};
ghost use Rattle.sw_lower_rules.specs.Bodies.{entry_key, starts_in};
ghost use Rattle.sw_lower_rules.specs.Tables.{is_named, number_in, plain};
ghost use Rattle.sw_typing_rules.specs.Worlds.{and_then};
ghost use Rattle.sw_decl_words.specs.Words.{or_else};

use crate::fault::LowerFault;
use indexmap::IndexMap;
use std::alloc::Global;
use sw_decls::GlobalVar;
use sw_graph::IdList;
use sw_list::ListOf;
use sw_lower_bodies::{BodyList, BodyTree};
use sw_lower_draft::NumberTable;
use sw_lower_plans::FunctionName;
use sw_tree::Decl;

/// The place of a body among others: by its key, and a getter after what gives a first value.
fn order_of(tree: &BodyTree<'_>) -> u64
    ensures { result ≡ tree_order tree.now }
{
    2 * u64::from(tree.key) + u64::from(tree.getter)
}

/// Bodies in the order of their keys.
pub fn in_order<'a>(bodies: BodyList<'a>) -> BodyList<'a>
    ensures same { IsPermutation bodies.entry result }
    ensures ordered { IsNonDecreasingBy tree_order result }
{
    let mut bodies = bodies.into_vec();
    bodies.sort_unstable_by_key(|tree| order_of(tree));
    ListOf::from_vec(bodies)
}

/// Notes the number of a function. It fails for a key that is noted: no program that was judged has
/// two functions of a name.
fn note(table: &mut IndexMap<u32, u32>, key: u32, number: u32) -> Result<(), LowerFault>
    ensures noted { OnOk result ((other : ℕ) → get nat_eq table.new other
        ≡ or_else (get nat_eq table.old other) (if key == other then Some number else None)) }
    ensures first { OnOk result (get nat_eq table.old key ≡ None) }
    ensures fault { IfErr result (FailsFor (get nat_eq table.old key ≢ None)) }
{
    if table.contains_key(&key) {
        return Err(LowerFault::Missing);
    }
    table.insert(key, number)?;
    Ok(())
}

/// Notes the number of the function with a name. It fails for a name that is noted.
fn note_name(table: &mut NumberTable, name: FunctionName, number: u32) -> Result<(), LowerFault>
    ensures noted { OnOk result ((other : FunctionName) → number_by table.new other
        ≡ or_else (number_by table.old other) (if is_named name other then Some number else None)) }
    ensures first { OnOk result (number_by table.old name ≡ None) }
    ensures fault { IfErr result (FailsFor (number_by table.old name ≢ None)) }
{
    if name.getter {
        note(&mut table.getters, name.key, number)
    } else {
        note(&mut table.others, name.key, number)
    }
}

/// The numbers of the functions of bodies in order. It fails where two bodies have one name.
pub fn numbers_of(alloc: Global, bodies: &[BodyTree<'_>]) -> Result<NumberTable, LowerFault>
    requires { length bodies.now < 2 ^ 32 }
    ensures numbers { IfOk result (λ table. (name : FunctionName)
        → number_by table name ≡ number_in (map tree_name bodies.now) name) }
    ensures places { OnOk result (AreFound (map tree_name bodies.now)) }
    ensures fault { IfErr result (FailsFor (¬ (AreFound (map tree_name bodies.now)))) }
{
    let mut table = NumberTable {
        getters: IndexMap::new(alloc),
        others: IndexMap::new(alloc),
    };
    for (number, tree) in bodies.iter().enumerate() {
        let name = FunctionName {
            key: tree.key,
            getter: tree.getter,
        };
        note_name(&mut table, name, number as u32)?;
    }
    Ok(table)
}

/// The number of the function with this key that is no getter. Each program that was judged has
/// those that are asked for.
fn number_of(numbers: &NumberTable, key: u32) -> Result<u32, LowerFault>
    ensures known { IfOk result (λ number. number_by numbers.now (plain key) ≡ Some number) }
    ensures fault { IfErr result (FailsFor (number_by numbers.now (plain key) ≡ None)) }
{
    let name = FunctionName { key, getter: false };
    numbers.get(name).ok_or(LowerFault::Missing)
}

/// Where the key of the first entry stands, if there is one.
fn entry_key(decls: &[Decl]) -> Option<u32>
    ensures { result ≡ entry_key decls.now }
{
    for decl in decls {
        if let Decl::Entry { at, .. } = decl {
            return Some(*at);
        }
    }
    None
}

/// The number of the entry's function.
pub fn entry_of(decls: &[Decl], numbers: &NumberTable) -> Result<u32, LowerFault>
    ensures known { IfOk result (λ entry. Some entry
        ≡ and_then (entry_key decls.now) (λ key. number_by numbers.now (plain key))) }
    ensures fault { IfErr result (FailsFor (and_then (entry_key decls.now)
        (λ key. number_by numbers.now (plain key)) ≡ None)) }
{
    let key = entry_key(decls).ok_or(LowerFault::Missing)?;
    number_of(numbers, key)
}

/// The numbers of the functions that give global variables their first values, in order.
pub fn starts_of(
    alloc: Global,
    globals: &[GlobalVar],
    numbers: &NumberTable,
) -> Result<IdList, LowerFault>
    ensures known { IfOk result (λ starts. map Some starts ≡ starts_in (number_by numbers.now)
        globals.now) }
    ensures fault { IfErr result (FailsFor ((starts : List ℕ)
        → map Some starts ≢ starts_in (number_by numbers.now) globals.now)) }
{
    let mut starts = ListOf::new(alloc);
    for global in globals {
        starts.push(number_of(numbers, global.key.at)?)?;
    }
    Ok(starts)
}
