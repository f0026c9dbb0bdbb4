//! Variables that become visible.
ghost use Rattle.std.specs.Prelude.{◌≡◌, ◌++◌, ◌∷◌, [], OnOk};
ghost use Rattle.sw_typing_rules.specs.Statements.{variable};
ghost use Rattle.sw_typing_rules.specs.Verdicts.{variable_rows};

use crate::table::Table;
use std::alloc::{AllocError, Global};
use sw_tree::Name;
use sw_types::Ty;
use sw_typing_rules::Var;

/// Makes a variable visible, and notes its type, if it has one.
pub fn declare(
    alloc: Global,
    name: Name,
    mutable: bool,
    ty: Option<Ty>,
    table: &mut Table,
) -> Result<(), AllocError>
    ensures { OnOk result (table.new ≡ record table.old {
      vars = table.old.vars ++ variable name mutable ty ∷ [];
      rows = table.old.rows ++ variable_rows name.at ty;
    }) }
{
    table.rows.note_type(alloc, name.at, &ty)?;
    table.vars.declare(Var {
        name: name.id,
        at: name.at,
        mutable,
        ty,
    })
}
