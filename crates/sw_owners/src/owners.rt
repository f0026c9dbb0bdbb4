ghost use Rattle.std.specs.Prelude.{◌≡◌, ◌<◌, ◌^◌, IfOk, length};
ghost use Rattle.sw_owners.specs.Owners.{owner_at, owners_of};

use std::alloc::{AllocError, Global};
use sw_color::owner_of;
use sw_color_rules::{Colored, Owner};
use sw_list::ListOf;

/// A coloured cell, by number, and who owns its colour.
#[derive(Clone, Copy, Debug, PartialEq, Eq)]
pub struct CellOwner {
    pub cell: u32,
    pub owner: Owner,
}

/// Coloured cells by number, each with its owner.
pub type OwnedList = ListOf<CellOwner>;

/// A cell with its owner, if it is a coloured cell.
fn owner_at(colored: &Colored, cell: u32) -> Option<CellOwner>
    ensures { result ≡ owner_at colored.now cell }
{
    owner_of(colored, cell).map(|owner| CellOwner { cell, owner })
}

/// The coloured cells of a state, each with its owner.
#[tactic(auto, unfolding(crate::specs::Owners::owners_of))]
pub fn owners_of(alloc: Global, colored: &Colored) -> Result<OwnedList, AllocError>
    requires { length colored.now.state.cells < 2 ^ 32 }
    ensures { IfOk result (λ owners. owners ≡ owners_of colored.now) }
{
    let mut owners = ListOf::new(alloc);
    for cell in 0..colored.state.cells.len() as u32 {
        if let Some(owned) = owner_at(colored, cell) {
            owners.push(owned)?;
        }
    }
    Ok(owners)
}
