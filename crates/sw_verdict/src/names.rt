//! The names of global actors.

ghost use Rattle.std.specs.Prelude.{◌≡◌, ◌<◌, All, IfOk, length, map, string_bytes};
ghost use Rattle.sw_verdict.specs.ActorNames.{name_by};

use std::alloc::{AllocError, Global};
use sw_list::ListOf;
use sw_tree::Names;

/// The names that have these ids.
pub fn names_of(alloc: Global, names: &Names, ids: &[u32]) -> Result<ListOf<String>, AllocError>
    requires { All (λ id. id < length names.now) ids.now }
    ensures { IfOk result (λ list. map string_bytes list ≡ map (name_by names.now) ids.now) }
{
    let mut list = ListOf::new(alloc);
    for id in ids {
        list.push(String::from_str(alloc, names.text(*id))?)?;
    }
    Ok(list)
}
