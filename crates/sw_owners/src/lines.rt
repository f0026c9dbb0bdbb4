ghost use Rattle.std.specs.Prelude.{◌≡◌, IfOk, map, string_bytes};
ghost use Rattle.sw_owners.specs.Lines.{name_of, owner_line, owner_lines};

use crate::owners::CellOwner;
use std::alloc::{AllocError, Global};
use sw_color_rules::Owner;

/// The name of a global actor, by number.
fn name_of(names: &[String], actor: u32) -> &str
    ensures { result.now ≡ name_of (map string_bytes names.now) actor }
{
    match names.get(actor as usize) {
        None => "",
        Some(name) => name.as_str(),
    }
}

/// `cell K: OWNER`.
#[tactic(auto, unfolding(crate::specs::Lines::owner_line))]
fn owner_line(alloc: Global, names: &[String], owned: CellOwner) -> Result<String, AllocError>
    ensures { IfOk result (λ text.
        string_bytes text ≡ owner_line (map string_bytes names.now) owned) }
{
    let cell = owned.cell;
    match owned.owner {
        Owner::Job(job) => format!(in alloc; "cell {cell}: job {job}\n"),
        Owner::ActorOf(actor) => format!(in alloc; "cell {cell}: actor {actor}\n"),
        Owner::Global(actor) => {
            let name = name_of(names, actor);
            format!(in alloc; "cell {cell}: {name}\n")
        }
    }
}

/// A line for each of these cells. `names` are those of the global actors, by number.
#[tactic(auto, unfolding(crate::specs::Lines::owner_lines))]
pub fn owner_lines(
    alloc: Global,
    names: &[String],
    owners: &[CellOwner],
) -> Result<String, AllocError>
    ensures { IfOk result (λ lines.
        string_bytes lines ≡ owner_lines (map string_bytes names.now) owners.now) }
{
    let mut lines = String::new(alloc);
    for owned in owners {
        let line = owner_line(alloc, names, *owned)?;
        lines.push_str(line.as_str())?;
    }
    Ok(lines)
}
