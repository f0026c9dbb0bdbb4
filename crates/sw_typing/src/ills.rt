//! The first ill node.
ghost use Rattle.std.specs.Prelude.{◌≡◌, IfOk};
ghost use Rattle.sw_decl_words.specs.Placed.{IsFirstPlaced};
ghost use Rattle.sw_typing_rules.specs.Verdicts.{ills_in};

use std::alloc::{AllocError, Global};
use sw_decl_words::{Placed, first_of};
use sw_list::ListOf;
use sw_typing_rules::Row;

/// The ill nodes among what is noted.
fn ills_in(alloc: Global, rows: &[Row]) -> Result<ListOf<Placed>, AllocError>
    ensures { IfOk result (λ ills. ills ≡ ills_in rows.now) }
{
    let mut ills = ListOf::new(alloc);
    for row in rows {
        if let Row::Ill { at, code, .. } = row {
            ills.push(Placed {
                at: *at,
                code: *code,
            })?;
        }
    }
    Ok(ills)
}

/// The first ill node among what is noted, by position and then by code.
pub fn first_ill(alloc: Global, rows: &[Row]) -> Result<Option<Placed>, AllocError>
    ensures { IfOk result (λ first. IsFirstPlaced (ills_in rows.now) first) }
{
    let ills = ills_in(alloc, rows)?;
    Ok(first_of(ills.as_slice()))
}
