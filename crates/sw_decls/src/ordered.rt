//! Functions in the order of their keys.
ghost use Rattle.std.specs.Prelude.{IfOk, IsPermutation};
ghost use Rattle.std.specs.List.Sorted.{IsNonDecreasingBy};
ghost use Rattle.sw_decls.specs.Declaring.{key_place};

use crate::signature::{Signature, SignatureList};
use indexmap::IndexMap;
use std::alloc::{AllocError, Global};
use sw_list::ListOf;

/// The functions in the order of their keys.
pub fn in_key_order(funcs: SignatureList) -> Result<SignatureList, AllocError>
    ensures same { IfOk result (λ sorted. IsPermutation funcs sorted) }
    ensures ordered { IfOk result (λ sorted. IsNonDecreasingBy key_place sorted) }
{
    let mut funcs = funcs.into_vec();
    funcs.sort_by_key(|func| func.key.at)?;
    Ok(ListOf::from_vec(funcs))
}

/// The numbers of functions by their keys.
#[derive(Drop)]
pub struct Numbers {
    pub table: IndexMap<u32, usize>,
}

impl Numbers {
    ghost use Rattle.std.specs.Prelude.{◌≡◌, ◌==◌, ℕ, Some, None, nat_eq, IfOk, OnOk};
    ghost use Rattle.std.specs.Prelude.{if◌then◌else◌};
    ghost use Rattle.indexmap.specs.IndexMap.{get};
    ghost use Rattle.sw_decl_words.specs.Words.{or_else};
    ghost use Rattle.sw_decls.specs.Declaring.{numbered};

    /// The number of the function with this key, if there is one.
    pub fn get(&self, key: u32) -> Option<usize>
        ensures { result ≡ get nat_eq self.now.table key }
    {
        self.table.get(&key).copied()
    }

    /// Notes the number of the function with a key, where there is none yet.
    fn note(&mut self, key: u32, number: usize) -> Result<(), AllocError>
        ensures { OnOk result ((other : ℕ) → get nat_eq self.new.table other
            ≡ or_else (get nat_eq self.old.table other)
            (if key == other then Some number else None)) }
    {
        if self.get(key).is_none() {
            self.table.insert(key, number)?;
        }
        Ok(())
    }

    /// The numbers of these functions.
    pub fn of(alloc: Global, funcs: &[Signature]) -> Result<Numbers, AllocError>
        ensures { IfOk result (λ numbers. (key : ℕ)
            → get nat_eq numbers.table key ≡ numbered funcs.now key) }
    {
        let mut numbers = Numbers {
            table: IndexMap::new(alloc),
        };
        for (number, func) in funcs.iter().enumerate() {
            numbers.note(func.key.at, number)?;
        }
        Ok(numbers)
    }
}
