//! Bodies of functions, initialisers and the entry, and their ends.
ghost use Rattle.std.specs.Prelude.{◌≡◌, ◌++◌, map, IfOk, OnOk};
ghost use Rattle.sw_typing_rules.specs.Programs.{param_var};
ghost use Rattle.sw_typing_rules.specs.Statements.{body_result, is_result, lacks_result, vars_rows};
ghost use Rattle.sw_typing_rules.specs.Verdicts.{ill_if};
ghost use Rattle.sw_typing_rules.specs.Worlds.{world_of};
ghost use Rattle.sw_typing_rules.specs.declared.scope.Returned.TheVariants.{Wants};
ghost use Rattle.sw_typing_steps.specs.Steps.{left_since, with_rows};
ghost use Rattle.sw_typing_steps.specs.Variables.{with_variables};

use crate::codes::NO_RESULT;
use crate::declare::declare;
use crate::known::Went;
use crate::rows::Rows;
use crate::table::Table;
use std::alloc::{AllocError, Global};
use sw_decl_words::type_of;
use sw_decls::Decls;
use sw_tree::ParamTree;
use sw_types::Ty;
use sw_typing_rules::Returned;
use sw_typing_words::{Scope, is_unit};

/// Makes parameters visible, and notes them.
#[tactic(auto, using(crate::proofs::TableLemmas::one_more))]
fn declare_params(
    alloc: Global,
    world: &Decls,
    params: &[ParamTree],
    table: &mut Table,
) -> Result<(), AllocError>
    ensures { OnOk result (table.new
        ≡ with_variables table.old (map (param_var (world_of world.now)) params.now)) }
{
    for param in params {
        let ty = type_of(alloc, &world.words, &param.ty)?;
        declare(alloc, param.name, false, Some(ty), table)?;
    }
    Ok(())
}

/// A table for a body with these parameters and this result, which adds to what is noted.
pub fn open_body(
    alloc: Global,
    world: &Decls,
    params: &[ParamTree],
    wanted: Ty,
    rows: Rows,
) -> Result<Table, AllocError>
    ensures { IfOk result (λ table. table ≡ record {
      vars = map (param_var (world_of world.now)) params.now;
      rows = rows ++ vars_rows (map (param_var (world_of world.now)) params.now);
      returned = Wants wanted;
    }) }
{
    let mut table = Table {
        vars: Scope::new(alloc),
        rows,
        returned: Returned::Wants(wanted),
    };
    declare_params(alloc, world, params, &mut table)?;
    Ok(table)
}

/// Whether a body has a result other than `Void`.
pub fn has_result(returned: &Returned) -> bool
    ensures { result ≡ is_result (body_result returned.now) }
{
    match returned {
        Returned::Wants(ty) | Returned::Gives(Some(ty)) => !is_unit(ty),
        Returned::Open(_) | Returned::Gives(None) => false,
    }
}

/// Whether a body has a way without the result, and nothing inside it is ill. Its statements were
/// judged since the table had `start` rows, and went like this.
pub fn lacks_result(start: usize, went: Went, table: &Table) -> bool
    ensures { result ≡ lacks_result (left_since went start table.now) }
{
    table.rows.well_since(start) && (has_result(&table.returned) && !went.ends)
}

/// Notes a body that has a way without the result. Its statements were judged since the table had
/// `start` rows, and went like this.
pub fn body_rows(start: usize, at: u32, went: Went, table: &mut Table) -> Result<(), AllocError>
    ensures { OnOk result (table.new ≡ with_rows table.old
        (ill_if (lacks_result (left_since went start table.old)) at 406)) }
{
    let lacks = lacks_result(start, went, table);
    table.rows.note_ill(lacks, at, NO_RESULT)
}
