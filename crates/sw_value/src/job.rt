ghost use Rattle.std.specs.Prelude.{◌≡◌, IfOk, OnOk, OnErr, ◌∷◌, []};
ghost use Rattle.std.specs.Option.{option_copied};
ghost use Rattle.sw_value.specs.Frame.{finish_instr, go_on, set_field};
ghost use Rattle.sw_value.specs.Job.{top_frame, is_running, in_top, dispatch, wake};
ghost use Rattle.sw_value.specs.Job.{enter, wait};
ghost use Rattle.sw_value.specs.Job.{rest, leave, return_to, new_job};

use crate::frame::{Frame, FrameList};
use crate::value::Value;
use std::alloc::{AllocError, Global};
use sw_list::ListOf;

/// The jobs of a state, by number. A job never goes away.
pub type JobList = ListOf<Job>;

/// Whether a job can go on.
#[derive(Debug, Drop)]
pub enum Status {
    /// It waits for its executor.
    Ready,
    /// It has its executor.
    Running,
    /// It waits for the end of another job, whose result goes into a register.
    Waiting { job: u32, reg: u32 },
    /// It has ended with a value.
    Ended { value: Value },
}

/// A task: a stack of frames, and whether it can go on.
#[derive(Debug, Drop)]
pub struct Job {
    pub frames: FrameList,
    pub status: Status,
}

/// How many jobs there may be.
pub const MAX_JOBS: usize = 65_536;

impl Job {
    /// A job that has not run yet, with one frame.
    #[tactic(auto, unfolding(crate::specs::Job::new_job))]
    pub fn new(alloc: Global, frame: Frame) -> Result<Job, AllocError>
        ensures { IfOk result (λ job. job ≡ new_job (frame ∷ [])) }
    {
        let mut frames = ListOf::new(alloc);
        frames.push(frame)?;
        Ok(Job {
            frames,
            status: Status::Ready,
        })
    }

    /// The frame that the job executes.
    #[tactic(auto, unfolding(crate::specs::Job::top_frame))]
    pub fn top_frame(&self) -> Option<&Frame>
        ensures { option_copied result ≡ top_frame self.now }
    {
        let depth = self.frames.len();
        if depth == 0 {
            return None;
        }
        self.frames.get(depth - 1)
    }

    /// Whether the job has its executor.
    #[tactic(auto, unfolding(crate::specs::Job::is_running))]
    pub fn is_running(&self) -> bool
        ensures { result ≡ is_running self.now }
    {
        matches!(self.status, Status::Running)
    }

    /// Gives the job its executor.
    #[tactic(auto, unfolding(crate::specs::Job::dispatch))]
    pub fn dispatch(&mut self)
        ensures { self.new ≡ dispatch self.old }
    {
        self.status = Status::Running;
    }

    /// Gives a register of the top frame the value that the job waited for.
    #[tactic(auto, using(crate::proofs::ListLemmas::changes), unfolding(crate::specs::Job::wake))]
    pub fn wake(&mut self, reg: u32, value: Value)
        ensures { self.new ≡ wake reg value self.old }
    {
        let depth = self.frames.len();
        if depth > 0 {
            self.frames.at_mut(depth - 1).set_register(reg, value);
        }
        self.status = Status::Ready;
    }

    /// Gives a register of the top frame the value of its instruction; the frame goes on at `next`.
    #[tactic(auto, using(crate::proofs::ListLemmas::changes), unfolding(crate::specs::Job::in_top))]
    pub fn finish_instr(&mut self, reg: u32, value: Value, next: u32)
        ensures { self.new ≡ in_top (finish_instr reg value next) self.old }
    {
        let depth = self.frames.len();
        if depth > 0 {
            self.frames.at_mut(depth - 1).finish_instr(reg, value, next);
        }
    }

    /// Gives the struct in a register of the top frame another value as a part; the frame goes on
    /// at `next`.
    #[tactic(auto, using(crate::proofs::ListLemmas::changes), unfolding(crate::specs::Job::in_top))]
    pub fn set_field(&mut self, reg: u32, part: usize, value: Value, next: u32)
        ensures { self.new ≡ in_top (set_field reg part value next) self.old }
    {
        let depth = self.frames.len();
        if depth > 0 {
            self.frames
                .at_mut(depth - 1)
                .set_field(reg, part, value, next);
        }
    }

    /// The top frame goes on at `next`.
    #[tactic(auto, using(crate::proofs::ListLemmas::changes), unfolding(crate::specs::Job::in_top))]
    pub fn go_on(&mut self, next: u32)
        ensures { self.new ≡ in_top (go_on next) self.old }
    {
        let depth = self.frames.len();
        if depth > 0 {
            self.frames.at_mut(depth - 1).go_on(next);
        }
    }

    /// Puts a frame on top, for a call after which the frame below goes on at `next`.
    #[tactic(auto, using(crate::proofs::ListLemmas::pushes), unfolding(crate::specs::Job::enter))]
    pub fn enter(&mut self, frame: Frame, next: u32) -> Result<(), AllocError>
        ensures ok { OnOk result (self.new ≡ enter frame next self.old) }
        ensures err { OnErr result (self.new ≡ self.old) }
    {
        let crossing = frame.crossing;
        let depth = self.frames.len();
        self.frames.push(frame)?;
        if depth > 0 {
            self.frames.at_mut(depth - 1).go_on(next);
        }
        if crossing {
            self.status = Status::Ready;
        }
        Ok(())
    }

    /// Gives the executor up until the job `on` has ended, whose result is for register `reg`.
    #[tactic(auto, using(crate::proofs::ListLemmas::changes), unfolding(crate::specs::Job::in_top, crate::specs::Job::wait))]
    pub fn wait(&mut self, on: u32, reg: u32, next: u32)
        ensures { self.new ≡ wait on reg next self.old }
    {
        self.go_on(next);
        self.status = Status::Waiting { job: on, reg };
    }

    /// Gives the executor up; register `reg` of the top frame gets the value of `Void`.
    #[tactic(auto, using(crate::proofs::ListLemmas::changes), unfolding(crate::specs::Job::in_top, crate::specs::Job::rest))]
    pub fn rest(&mut self, reg: u32, next: u32)
        ensures { self.new ≡ rest reg next self.old }
    {
        self.finish_instr(reg, Value::Unit, next);
        self.status = Status::Ready;
    }

    /// Returns a value from the top frame.
    #[tactic(auto, using(crate::proofs::JobLemmas::returns), unfolding(crate::specs::Job::leave, crate::specs::Job::top_frame))]
    pub fn leave(&mut self, value: Value)
        ensures { self.new ≡ leave value self.old }
    {
        if let Some(frame) = self.frames.pop() {
            self.return_to(&frame, value);
        }
    }

    /// Hands the value of a frame that was taken off to the one below, or ends the job with it.
    #[tactic(auto, using(crate::proofs::JobLemmas::returns))]
    fn return_to(&mut self, frame: &Frame, value: Value)
        ensures { self.new ≡ return_to self.old.frames frame.now value self.old.status }
    {
        let depth = self.frames.len();
        if depth == 0 {
            self.status = Status::Ended { value };
        } else {
            self.frames
                .at_mut(depth - 1)
                .take_result(frame.result, value);
            if frame.crossing {
                self.status = Status::Ready;
            }
        }
    }
}
