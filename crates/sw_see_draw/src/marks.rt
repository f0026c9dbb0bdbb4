//! The marks of a picture.

ghost use Rattle.std.specs.Prelude.{◌≡◌, ◌+◌, ◌<◌, ◌≤◌, ◌^◌, ◌∷◌, length, IfOk, nat_lt};
ghost use Rattle.sw_see_draw.specs.Marks.{drawn, goes_on, grown, is_plain, link_of, mark_of, marks};
ghost use Rattle.sw_see_draw.specs.Marks.{marks_from, same_executor};

use std::alloc::{AllocError, Global};
use sw_see_events::{Deed, Happening};
use sw_value::{Access, Executor};

/// The most marks that a picture has.
pub const MOST_MARKS: usize = 2000;

/// Another job that an event has to do with.
#[derive(Clone, Copy, Debug, PartialEq, Eq)]
pub enum Link {
    /// The job that it starts.
    To(u32),
    /// The job of whose end it hears.
    From(u32),
}

/// A mark: an event, and those of its job after it that say nothing new.
#[derive(Clone, Copy, Debug)]
pub struct Mark {
    /// The number of its first event; the numbers of events begin with 1.
    pub number: u32,
    /// How many events it is for.
    pub count: u32,
    pub job: u32,
    /// What the job runs on.
    pub executor: Option<Executor>,
    /// The access of its first event.
    pub access: Option<Access>,
    /// The other job of its first event.
    pub link: Option<Link>,
}

/// The other job that an event has to do with.
fn link_of(deed: &Deed) -> Option<Link>
    ensures { result ≡ link_of deed.now }
{
    match deed {
        Deed::Starts { job } => Some(Link::To(*job)),
        Deed::Resumes { ended } => Some(Link::From(*ended)),
        Deed::Runs
        | Deed::Computes
        | Deed::Prints { .. }
        | Deed::Makes { .. }
        | Deed::Jumps
        | Deed::Calls { .. }
        | Deed::Waits { .. }
        | Deed::Yields
        | Deed::Returns
        | Deed::Ends
        | Deed::Traps { .. } => None,
    }
}

/// The mark of an event by its number.
fn mark_of(number: u32, event: &Happening) -> Mark
    ensures { result ≡ mark_of number event.now }
{
    Mark {
        number,
        count: 1,
        job: event.job,
        executor: event.executor,
        access: event.access,
        link: link_of(&event.deed),
    }
}

/// Whether two jobs run on the same.
pub fn same_executor(one: Option<Executor>, other: Option<Executor>) -> bool
    ensures { result ≡ same_executor one other }
{
    match (one, other) {
        (None, None) => true,
        (Some(one), Some(other)) => one.is_same(other),
        (None, Some(_)) | (Some(_), None) => false,
    }
}

/// Whether an event makes no access and has to do with no other job.
fn is_plain(event: &Happening) -> bool
    ensures { result ≡ is_plain event.now }
{
    event.access.is_none() && link_of(&event.deed).is_none()
}

/// Whether a mark is for that event too.
fn goes_on(mark: &Mark, event: &Happening) -> bool
    ensures { result ≡ goes_on mark.now event.now }
{
    event.job == mark.job && same_executor(mark.executor, event.executor) && is_plain(event)
}

/// The marks of a first event and of those after it.
fn marks_from(
    alloc: Global,
    joins: bool,
    first: &Happening,
    events: &[Happening],
) -> Result<Vec<Mark>, AllocError>
    requires { length events.now < 2 ^ 31 }
    ensures { IfOk result (λ made.
        made.items ≡ marks_from joins (mark_of 1 first.now) 2 events.now) }
{
    let mut made = Vec::new(alloc);
    let mut mark = mark_of(1, first);
    let mut number = 2;
    for event in events {
        if joins && goes_on(&mark, event) {
            mark.count += 1;
        } else {
            made.push(mark)?;
            mark = mark_of(number, event);
        }
        number += 1;
    }
    made.push(mark)?;
    Ok(made)
}

/// The marks of events.
#[tactic(auto, unfolding(crate::specs::Marks::marks))]
pub fn marks(alloc: Global, events: &[Happening]) -> Result<Vec<Mark>, AllocError>
    requires { length events.now < 2 ^ 31 }
    ensures { IfOk result (λ made. made.items ≡ marks events.now) }
{
    match events.split_first() {
        None => Ok(Vec::new(alloc)),
        Some((first, rest)) => marks_from(alloc, events.len() > MOST_MARKS, first, rest),
    }
}

/// The last of the marks, as many as are drawn.
#[tactic(auto, unfolding(crate::specs::Marks::drawn))]
pub fn drawn(marks: &[Mark]) -> &[Mark]
    ensures value { result.now ≡ drawn marks.now }
    ensures few { length result.now ≤ MOST_MARKS }
{
    &marks[marks.len().saturating_sub(MOST_MARKS)..]
}
