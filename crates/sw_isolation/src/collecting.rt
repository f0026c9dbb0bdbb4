//! What is known of the isolation of a program, by what is noted of it.
ghost use Rattle.std.specs.Prelude.{◌≡◌, IfOk};
ghost use Rattle.sw_isolation_table.specs.Isolated.{AreBoxes, HasNotes};
ghost use Rattle.sw_isolation_rules.specs.Lists.{bodies_in, kinds_in, races_in, refusals_in};

use std::alloc::{AllocError, Global};
use sw_decl_words::Placed;
use sw_isolation_captures::{boxes_in, captures_in};
use sw_isolation_rules::{BodyIso, Kinded, Note};
use sw_isolation_table::{Isolated, kinds_of};
use sw_list::ListOf;

/// The bodies among what is noted.
fn bodies_in(alloc: Global, notes: &[Note]) -> Result<ListOf<BodyIso>, AllocError>
    ensures { IfOk result (λ bodies. bodies ≡ bodies_in notes.now) }
{
    let mut bodies = ListOf::new(alloc);
    for note in notes {
        if let Note::Body(body) = note {
            bodies.push(*body)?;
        }
    }
    Ok(bodies)
}

/// The kinds among what is noted.
fn kinds_in(alloc: Global, notes: &[Note]) -> Result<ListOf<Kinded>, AllocError>
    ensures { IfOk result (λ kinds. kinds ≡ kinds_in notes.now) }
{
    let mut kinds = ListOf::new(alloc);
    for note in notes {
        if let Note::Kind(kinded) = note {
            kinds.push(*kinded)?;
        }
    }
    Ok(kinds)
}

/// The breaches of isolation among what is noted.
pub fn refusals_in(alloc: Global, notes: &[Note]) -> Result<ListOf<Placed>, AllocError>
    ensures { IfOk result (λ refusals. refusals ≡ refusals_in notes.now) }
{
    let mut refusals = ListOf::new(alloc);
    for note in notes {
        if let Note::Refused(placed) = note {
            refusals.push(*placed)?;
        }
    }
    Ok(refusals)
}

/// The values that cross and may not, among what is noted.
fn crossings_in(alloc: Global, notes: &[Note]) -> Result<ListOf<Placed>, AllocError>
    ensures { IfOk result (λ crossings. crossings ≡ races_in notes.now) }
{
    let mut crossings = ListOf::new(alloc);
    for note in notes {
        if let Note::Race(placed) = note {
            crossings.push(*placed)?;
        }
    }
    Ok(crossings)
}

/// Keys of variables in order, each once.
fn each_once(keys: ListOf<u32>) -> ListOf<u32>
    ensures { AreBoxes keys result }
{
    let mut keys = keys.into_vec();
    keys.sort_unstable();
    keys.dedup();
    ListOf::from_vec(keys)
}

/// What is known by what is noted of a program.
pub fn isolated_of(alloc: Global, notes: &[Note]) -> Result<Isolated, AllocError>
    ensures { IfOk result (HasNotes notes.now) }
{
    let bodies = bodies_in(alloc, notes)?;
    let kinds = kinds_in(alloc, notes)?;
    let kinds_by_key = kinds_of(alloc, kinds.as_slice())?;
    let captures = captures_in(alloc, notes)?;
    let boxes = each_once(boxes_in(alloc, captures.as_slice())?);
    let crossings = crossings_in(alloc, notes)?;
    Ok(Isolated {
        bodies,
        kinds,
        kinds_by_key,
        captures,
        boxes,
        crossings,
    })
}
