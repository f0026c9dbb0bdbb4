//! What a job did, in words.

ghost use Rattle.std.specs.Prelude.{◌≡◌, IfOk, map, string_bytes};
ghost use Rattle.sw_see_steps.specs.Deeds.{access_text, computing_text, deed_text, executor_text};
ghost use Rattle.sw_see_steps.specs.Deeds.{made_text, name_of, place_text, printed, with_executor};

use std::alloc::{AllocError, Global};
use sw_see_events::{Deed, Happening};
use sw_see_lines::shown_text;
use sw_value::{Access, Executor, Place};

/// Where a location is.
#[tactic(auto, unfolding(crate::specs::Deeds::place_text))]
fn place_text(alloc: Global, place: Place) -> Result<String, AllocError>
    ensures { IfOk result (λ text. string_bytes text ≡ place_text place) }
{
    match place {
        Place::Prop { cell, .. } => format!(in alloc; " of cell {cell}"),
        Place::Global(_) => Ok(String::new(alloc)),
        Place::BoxOf(cell) => format!(in alloc; " in cell {cell}"),
    }
}

/// An access to what has the name `word`.
#[tactic(auto, unfolding(crate::specs::Deeds::access_text))]
fn access_text(alloc: Global, word: &str, access: Access) -> Result<String, AllocError>
    ensures { IfOk result (λ text. string_bytes text ≡ access_text word.now access) }
{
    let place = place_text(alloc, access.place)?;
    if access.writes {
        format!(in alloc; "writes {word}{place}")
    } else {
        format!(in alloc; "reads {word}{place}")
    }
}

/// What an instruction does that computes.
fn computing_text(alloc: Global, word: &str, access: Option<Access>) -> Result<String, AllocError>
    ensures { IfOk result (λ text. string_bytes text ≡ computing_text word.now access) }
{
    match access {
        None => String::from_str(alloc, "computes"),
        Some(access) => access_text(alloc, word, access),
    }
}

/// The name of a global actor, by number.
fn name_of(names: &[String], actor: u32) -> &str
    ensures { result.now ≡ name_of (map string_bytes names.now) actor }
{
    match names.get(actor as usize) {
        None => "",
        Some(name) => name.as_str(),
    }
}

/// An executor; `names` are those of the global actors, by number.
#[tactic(auto, unfolding(crate::specs::Deeds::executor_text))]
pub fn executor_text(
    alloc: Global,
    names: &[String],
    executor: Executor,
) -> Result<String, AllocError>
    ensures { IfOk result (λ text.
        string_bytes text ≡ executor_text (map string_bytes names.now) executor) }
{
    match executor {
        Executor::Generic => String::from_str(alloc, "no actor"),
        Executor::ActorOf(cell) => format!(in alloc; "actor {cell}"),
        Executor::Global(actor) => String::from_str(alloc, name_of(names, actor)),
    }
}

/// A word and an executor, where there is one.
#[tactic(auto, unfolding(crate::specs::Deeds::with_executor))]
fn with_executor(
    alloc: Global,
    names: &[String],
    word: &str,
    executor: Option<Executor>,
) -> Result<String, AllocError>
    ensures { IfOk result (λ text.
        string_bytes text ≡ with_executor (map string_bytes names.now) word.now executor) }
{
    match executor {
        None => Ok(String::new(alloc)),
        Some(executor) => {
            let text = executor_text(alloc, names, executor)?;
            format!(in alloc; "{word}{text}")
        }
    }
}

/// The making of a cell.
#[tactic(auto, unfolding(crate::specs::Deeds::made_text))]
fn made_text(alloc: Global, word: &str, cell: u32) -> Result<String, AllocError>
    ensures { IfOk result (λ text. string_bytes text ≡ made_text word.now cell) }
{
    if word.is_empty() {
        format!(in alloc; "makes cell {cell}")
    } else {
        format!(in alloc; "makes {word}, cell {cell}")
    }
}

/// A printed line without the line feed that ends it.
fn printed(alloc: Global, line: &[u8]) -> Result<String, AllocError>
    ensures { IfOk result (λ text. string_bytes text ≡ printed line.now) }
{
    shown_text(alloc, &line[..line.len().saturating_sub(1)])
}

/// What the job of an event did. `word` is the word of the source at its position.
#[tactic(auto, unfolding(crate::specs::Deeds::deed_text))]
pub fn deed_text(
    alloc: Global,
    names: &[String],
    word: &str,
    happening: &Happening,
) -> Result<String, AllocError>
    ensures { IfOk result (λ text. string_bytes text
        ≡ deed_text (map string_bytes names.now) word.now happening.now.executor
        happening.now.access happening.now.deed) }
{
    match &happening.deed {
        Deed::Runs => {
            let on = with_executor(alloc, names, " on ", happening.executor)?;
            format!(in alloc; "begins to run{on}")
        }
        Deed::Resumes { ended } => {
            let ended = *ended;
            format!(in alloc; "gets the result of job {ended}")
        }
        Deed::Computes => computing_text(alloc, word, happening.access),
        Deed::Prints { line } => {
            let printed = printed(alloc, line.as_slice())?;
            format!(in alloc; "prints {printed}")
        }
        Deed::Makes { cell } => made_text(alloc, word, *cell),
        Deed::Jumps => String::from_str(alloc, "goes on"),
        Deed::Calls { to } => {
            let leaving = with_executor(alloc, names, ", leaves for ", *to)?;
            format!(in alloc; "calls {word}{leaving}")
        }
        Deed::Starts { job } => {
            let job = *job;
            format!(in alloc; "starts job {job}")
        }
        Deed::Waits { job } => {
            let job = *job;
            format!(in alloc; "waits for job {job}")
        }
        Deed::Yields => String::from_str(alloc, "lets others run"),
        Deed::Returns => String::from_str(alloc, "returns"),
        Deed::Ends => String::from_str(alloc, "ends"),
        Deed::Traps { .. } => String::from_str(alloc, "traps"),
    }
}
