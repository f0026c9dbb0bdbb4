//! The latest accesses of jobs to one location.
ghost use Rattle.std.specs.Prelude.{◌≡◌, OnOk, OnErr, map};
ghost use Rattle.std.specs.List.{list_any};
ghost use Rattle.sw_hb.specs.Entries.{newer, conflicting, if_unheard, unheard_rival, of_lesser_job};
ghost use Rattle.sw_hb.specs.Entries.{unused, is_of, with_entry, with_made, noted};

use std::alloc::AllocError;
use sw_list::ListOf;
use sw_value::Access;

/// An access, and how many events its job had by then, with that of the access.
#[derive(Clone, Copy, Debug)]
pub struct Made {
    pub rank: u32,
    pub access: Access,
}

/// The latest accesses of a job to a location.
#[derive(Clone, Copy, Debug)]
pub struct Latest {
    pub job: u32,
    pub read: Option<Made>,
    pub write: Option<Made>,
}

/// The entries of a location, one for each job that accessed it.
pub type Entries = ListOf<Latest>;

/// The later of an access that reads and one that writes, of one job.
fn newer(read: Option<Made>, write: Option<Made>) -> Option<Made>
    ensures { result ≡ newer read write }
{
    match (read, write) {
        (None, write) => write,
        (Some(read), None) => Some(read),
        (Some(read), Some(write)) => {
            if write.rank < read.rank {
                Some(read)
            } else {
                Some(write)
            }
        }
    }
}

/// The latest access of a job that conflicts with one that writes, or reads.
fn conflicting(latest: Latest, writes: bool) -> Option<Made>
    ensures { result ≡ conflicting latest writes }
{
    if writes {
        newer(latest.read, latest.write)
    } else {
        latest.write
    }
}

/// The access that was made, if there is one and the count doesn't reach it.
fn if_unheard(count: u32, made: Option<Made>) -> Option<Access>
    ensures { result ≡ if_unheard count made }
{
    let made = made?;
    if count < made.rank {
        Some(made.access)
    } else {
        None
    }
}

/// The latest access of a job that is a rival of this one, if the count of that job doesn't reach
/// it.
#[tactic(auto, unfolding(crate::specs::Entries::unheard_rival))]
pub fn unheard_rival(latest: Latest, access: Access, count: u32) -> Option<Access>
    ensures { result ≡ unheard_rival count access latest }
{
    if latest.job == access.job {
        return None;
    }
    if_unheard(count, conflicting(latest, access.writes))
}

/// The access of the lesser job; of one job the first.
pub fn of_lesser_job(first: Option<Access>, next: Option<Access>) -> Option<Access>
    ensures { result ≡ of_lesser_job first next }
{
    match (first, next) {
        (first, None) => first,
        (None, Some(next)) => Some(next),
        (Some(first), Some(next)) => {
            if next.job < first.job {
                Some(next)
            } else {
                Some(first)
            }
        }
    }
}

/// Whether a job has an entry.
fn has_entry(entries: &[Latest], job: u32) -> bool
    ensures { result ≡ list_any (is_of job) entries.now }
{
    entries.iter().any(|latest| latest.job == job)
}

/// The entry of a job that made no access.
pub fn unused(job: u32) -> Latest
    ensures { result ≡ unused job }
{
    Latest {
        job,
        read: None,
        write: None,
    }
}

/// Adds an entry for a job that has none. Where memory runs out the entries stay as they were.
pub fn make_entry(entries: &mut Entries, job: u32) -> Result<(), AllocError>
    ensures ok { OnOk result (entries.new ≡ with_entry job entries.old) }
    ensures err { OnErr result (entries.new ≡ entries.old) }
{
    if has_entry(entries.as_slice(), job) {
        return Ok(());
    }
    entries.push(unused(job))
}

/// The entry with what was made as the latest access of its kind.
fn with_made(latest: Latest, made: Made) -> Latest
    ensures { result ≡ with_made made latest }
{
    if made.access.writes {
        Latest {
            job: latest.job,
            read: latest.read,
            write: Some(made),
        }
    } else {
        Latest {
            job: latest.job,
            read: Some(made),
            write: latest.write,
        }
    }
}

/// The entry after an access that was made: it changes if it is of that job.
#[tactic(auto, unfolding(crate::specs::Entries::noted))]
fn noted(latest: Latest, made: Made) -> Latest
    ensures { result ≡ noted made latest }
{
    if latest.job == made.access.job {
        with_made(latest, made)
    } else {
        latest
    }
}

/// Notes an access in the entry of its job.
pub fn note(entries: &mut Entries, made: Made)
    ensures { entries.new ≡ map (noted made) entries.old }
{
    for index in 0..entries.len() {
        let latest = *entries.at(index);
        entries.set(index, noted(latest, made));
    }
}
