ghost use Rattle.std.specs.Prelude.{◌≡◌, ℕ, ◌+◌, ◌<◌, ◌≤◌, true, None, Some, length, slice_get};
ghost use Rattle.std.specs.Prelude.{◌||◌, not, if◌then◌else◌, OnOk, OnErr, IfSome, IfOk};
ghost use Rattle.std.specs.Prelude.{MatchOption};
ghost use Rattle.std.specs.List.{list_any};
ghost use Rattle.sw_value.specs.declared.value.Value.{Value};
ghost use Rattle.sw_value.specs.Busy.{exclusive, held, times, time, IsReplaced, IsBusy};
ghost use Rattle.sw_value.specs.Executor.{is_same};
ghost use Rattle.sw_value.specs.Job.{is_running, dispatch, enter, leave};

use crate::executor::Executor;
use crate::frame::Frame;
use crate::job::{Job, JobList};
use std::alloc::{AllocError, Global};
use sw_list::ListOf;

/// Executors in no order.
pub type ExecutorList = ListOf<Executor>;

impl Executor {
    /// The executor, unless it is the generic one, which is never taken.
    fn exclusive(self) -> Option<Executor>
        ensures { result ≡ exclusive self }
    {
        match self {
            Executor::Generic => None,
            Executor::ActorOf(_) | Executor::Global(_) => Some(self),
        }
    }
}

impl Job {
    /// The executor that the job takes: that of its top frame, if it runs.
    #[tactic(auto, unfolding(crate::specs::Busy::held))]
    pub fn held(&self) -> Option<Executor>
        ensures { result ≡ held self.now }
    {
        if !self.is_running() {
            return None;
        }
        self.top_frame()?.executor.exclusive()
    }

    /// The executor that the job takes once it is dispatched.
    #[tactic(auto, using(crate::proofs::BusyLemmas::held_dispatched))]
    pub fn held_dispatched(&self) -> Option<Executor>
        ensures { result ≡ held (dispatch self.now) }
    {
        self.top_frame()?.executor.exclusive()
    }

    /// The executor that the job takes once a frame is put on top.
    #[tactic(auto, using(crate::proofs::BusyLemmas::held_entered))]
    pub fn held_entered(&self, frame: &Frame) -> Option<Executor>
        ensures { (next : ℕ) → result ≡ held (enter frame.now next self.now) }
    {
        if frame.crossing || !self.is_running() {
            return None;
        }
        frame.executor.exclusive()
    }

    /// The executor that the job takes once its top frame has returned.
    pub fn held_left(&self) -> Option<Executor>
        ensures { (v : Value) → result ≡ held (leave v self.now) }
    {
        let depth = self.frames.len();
        if depth < 2 {
            return None;
        }
        self.held_below(self.frames.at(depth - 1), self.frames.at(depth - 2))
    }

    /// The executor that the job takes once its frame `above` has returned to `below`.
    fn held_below(&self, above: &Frame, below: &Frame) -> Option<Executor>
        ensures { result ≡ (if above.now.crossing || not (is_running self.now) then None
            else exclusive below.now.executor) }
    {
        if above.crossing || !self.is_running() {
            return None;
        }
        below.executor.exclusive()
    }
}

/// Whether two jobs that hold these hold the same.
pub fn is_same_held(held: Option<Executor>, later: Option<Executor>) -> bool
    ensures { result ≡ true → held ≡ later }
{
    match held {
        None => later.is_none(),
        Some(held) => match later {
            None => false,
            Some(later) => held.is_same(later),
        },
    }
}

/// What is to be taken out and put in where a job held one executor and holds another: nothing
/// where they are the same.
pub fn moved(
    held: Option<Executor>,
    later: Option<Executor>,
) -> (Option<Executor>, Option<Executor>)
    ensures alike { (e : Executor) →
        time e result.0 + time e later ≡ time e result.1 + time e held }
    ensures out { IfSome result.0 (λ e. held ≡ Some e) }
{
    if is_same_held(held, later) {
        return (None, None);
    }
    (held, later)
}

/// Takes one executor out, and puts another in. Where memory runs out nothing changes.
pub fn replace(
    busy: &mut ExecutorList,
    held: Option<Executor>,
    later: Option<Executor>,
) -> Result<(), AllocError>
    requires there { IfSome held (λ e. 0 < times e busy.old) }
    ensures ok { OnOk result (IsReplaced held later busy.old busy.new) }
    ensures err { OnErr result (busy.new ≡ busy.old) }
{
    let (out, put) = moved(held, later);
    occupy(busy, put)?;
    release(busy, out);
    Ok(())
}

/// Puts an executor in. Where memory runs out nothing changes.
pub fn occupy(busy: &mut ExecutorList, put: Option<Executor>) -> Result<(), AllocError>
    ensures ok { OnOk result (IsReplaced None put busy.old busy.new) }
    ensures err { OnErr result (busy.new ≡ busy.old) }
    ensures more { OnOk result ((e : Executor) → times e busy.old ≤ times e busy.new) }
    ensures there { OnOk result (IfSome put (λ e. 0 < times e busy.new)) }
{
    if let Some(executor) = put {
        busy.push(executor)?;
    }
    Ok(())
}

/// Takes an executor out.
pub fn release(busy: &mut ExecutorList, out: Option<Executor>)
    requires there { IfSome out (λ e. 0 < times e busy.old) }
    ensures { IsReplaced out None busy.old busy.new }
{
    if let Some(executor) = out {
        take_out(busy, executor);
    }
}

fn take_out(busy: &mut ExecutorList, executor: Executor)
    requires there { 0 < times executor busy.old }
    ensures { IsReplaced (Some executor) None busy.old busy.new }
{
    if let Some(index) = place_of(busy, executor) {
        remove_at(busy, index);
    }
}

/// Where an executor is among others.
fn place_of(busy: &ExecutorList, executor: Executor) -> Option<usize>
    ensures { MatchOption result (times executor busy.now ≡ 0)
        (λ i. (b : Executor) × (slice_get busy.now i ≡ Some b) × (is_same b executor ≡ true)) }
{
    for (index, other) in busy.as_slice().iter().enumerate() {
        if other.is_same(executor) {
            return Some(index);
        }
    }
    None
}

/// Takes out the executor at an index, and puts the last in its place.
fn remove_at(busy: &mut ExecutorList, index: usize)
    requires { index < length busy.old }
    ensures { (b : Executor) → slice_get busy.old index ≡ Some b
        → IsReplaced (Some b) None busy.old busy.new }
{
    if let Some(last) = busy.pop() {
        if index < busy.len() {
            busy.set(index, last);
        }
    }
}

/// The executors that jobs hold.
pub fn busy_of(alloc: Global, jobs: &JobList) -> Result<ExecutorList, AllocError>
    ensures { IfOk result (λ busy. IsBusy busy jobs.now) }
{
    let mut busy = ListOf::new(alloc);
    for job in jobs.as_slice() {
        occupy(&mut busy, job.held())?;
    }
    Ok(busy)
}

/// Whether an executor is among others.
pub fn is_among(busy: &ExecutorList, executor: Executor) -> bool
    ensures { result ≡ list_any (λ b. is_same b executor) busy.now }
{
    busy.as_slice().iter().any(|other| other.is_same(executor))
}
