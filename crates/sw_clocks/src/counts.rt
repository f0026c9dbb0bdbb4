//! Rows of counts, one after the other: `MOST_JOBS` counts each.
ghost use Rattle.std.specs.Prelude.{◌≡◌, ◌+◌, ◌*◌, ◌<◌, ◌≤◌, length};
ghost use Rattle.sw_before.specs.Channels.{OfJob, OfEnd};
ghost use Rattle.sw_clocks.specs.Rows.{job_row, end_row, count_at, IsJoined};

use crate::links::MOST_JOBS;

/// The row of a job, if it is one that there may be.
pub fn job_row(job: u32) -> Option<usize>
    ensures { result ≡ job_row job }
{
    if (job as usize) < MOST_JOBS {
        Some(job as usize * 2)
    } else {
        None
    }
}

/// The row of the end of a job, if it is one that there may be.
pub fn end_row(job: u32) -> Option<usize>
    ensures { result ≡ end_row job }
{
    if (job as usize) < MOST_JOBS {
        Some(job as usize * 2 + 1)
    } else {
        None
    }
}

/// The count of a job in a row; 0 of a job that there can't be.
pub fn count(counts: &[u32], row: usize, job: u32) -> u32
    requires { row * MOST_JOBS + MOST_JOBS ≤ length counts.now }
    ensures { result ≡ count_at counts.now row job }
{
    if (job as usize) < MOST_JOBS {
        counts[row * MOST_JOBS + job as usize]
    } else {
        0
    }
}

/// A row takes in another one: of each of the first `jobs` counts it takes the greater one.
pub fn join(counts: &mut [u32], from: usize, to: usize, jobs: usize)
    requires from { from * MOST_JOBS + MOST_JOBS ≤ length counts.old }
    requires to { to * MOST_JOBS + MOST_JOBS ≤ length counts.old }
    requires jobs { jobs ≤ MOST_JOBS }
    ensures { IsJoined from to jobs counts.old counts.new }
{
    for job in 0..jobs {
        let heard = counts[from * MOST_JOBS + job];
        let place = to * MOST_JOBS + job;
        if counts[place] < heard {
            counts[place] = heard;
        }
    }
}
