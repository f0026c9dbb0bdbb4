ghost use Rattle.std.specs.Prelude.{◌≡◌, true, None, IfOk, OnOk, OnErr, ◌∷◌, []};
ghost use Rattle.std.specs.Option.{option_copied};
ghost use Rattle.std.specs.List.{list_any};
ghost use Rattle.sw_value.specs.declared.cell.HeapCell.TheVariants.{TaskOf};
ghost use Rattle.sw_value.specs.Cell.{with_slot};
ghost use Rattle.sw_value.specs.Frame.{finish_instr, go_on, set_field};
ghost use Rattle.sw_value.specs.Busy.{is_exclusive, IsBusy};
ghost use Rattle.sw_value.specs.Job.{in_top, dispatch, wake, enter, wait, rest, leave, new_job};
ghost use Rattle.sw_value.specs.Job.{runs_on};
ghost use Rattle.sw_value.specs.State.{in_job, add_job, add_cell, in_cell, set_global, halt};
ghost use Rattle.sw_value.specs.State.{is_free};
ghost use Rattle.sw_value.specs.State.{result_of};

use crate::busy::{ExecutorList, busy_of, is_among, moved, occupy, release, replace};
use crate::cell::{CellList, HeapCell, Slot};
use crate::executor::Executor;
use crate::frame::Frame;
use crate::job::{Job, JobList, Status};
use crate::value::{Value, ValueSlots};
use std::alloc::{AllocError, Global};
use std::marker::Model;

/// What halts the machine.
#[derive(Clone, Copy, Debug, PartialEq, Eq)]
pub enum TrapKind {
    /// A result outside 64 bits.
    Overflow,
    ZeroDivisor,
    /// One frame too many in a job.
    Frames,
    /// One job too many.
    Jobs,
}

/// A state of the machine. Contracts see it as a `Machine` with these fields.
#[derive(Debug, Drop)]
pub struct State {
    pub cells: CellList,
    pub globals: ValueSlots,
    pub jobs: JobList,
    /// The trap that halted the machine, and the byte offset of its instruction.
    pub halted: Option<(TrapKind, u32)>,
    /// The executors other than the generic one that jobs run on, one for each such job.
    busy: ExecutorList,
}

impl Model for State {
    ghost use Rattle.sw_value.specs.Busy.{IsBusy};
    ghost use Rattle.sw_value.specs.Machine.{Machine, machine_code};

    ghost Value = { Machine };

    ghost coded = { machine_code };

    ghost view = { λ s. record {
      cells = s.cells;
      globals = s.globals;
      jobs = s.jobs;
      halted = s.halted;
    } };

    ghost invariant = { λ s. IsBusy s.busy s.jobs };
}

/// Changes of one job of the state.
#[tactic(auto, using(crate::proofs::ListLemmas::changes), unfolding(crate::specs::State::in_job))]
impl State {
    /// Gives a job its executor.
    pub fn dispatch(&mut self, job: u32) -> Result<(), AllocError>
        ensures ok { OnOk result (self.new ≡ in_job dispatch job self.old) }
        ensures err { OnErr result (self.new ≡ self.old) }
    {
        if (job as usize) < self.jobs.len() {
            let there = self.jobs.at(job as usize);
            let held = there.held();
            let later = there.held_dispatched();
            replace(&mut self.busy, held, later)?;
            self.jobs.at_mut(job as usize).dispatch();
        }
        Ok(())
    }

    /// Gives a job the value that it waited for, in a register of its top frame.
    pub fn wake(&mut self, job: u32, reg: u32, value: Value)
        ensures { self.new ≡ in_job (wake reg value) job self.old }
    {
        if (job as usize) < self.jobs.len() {
            let held = self.jobs.at(job as usize).held();
            release(&mut self.busy, held);
            self.jobs.at_mut(job as usize).wake(reg, value);
        }
    }

    /// Gives a register of a job's top frame the value of its instruction; the frame goes on at
    /// `next`.
    pub fn finish_instr(&mut self, job: u32, reg: u32, value: Value, next: u32)
        ensures { self.new ≡ in_job (in_top (finish_instr reg value next)) job self.old }
    {
        if (job as usize) < self.jobs.len() {
            self.jobs
                .at_mut(job as usize)
                .finish_instr(reg, value, next);
        }
    }

    /// Gives the struct in a register of a job's top frame another value as a part; the frame goes
    /// on at `next`.
    pub fn set_field(&mut self, job: u32, reg: u32, part: usize, value: Value, next: u32)
        ensures { self.new ≡ in_job (in_top (set_field reg part value next)) job self.old }
    {
        if (job as usize) < self.jobs.len() {
            self.jobs
                .at_mut(job as usize)
                .set_field(reg, part, value, next);
        }
    }

    /// A job's top frame goes on at `next`.
    pub fn go_on(&mut self, job: u32, next: u32)
        ensures { self.new ≡ in_job (in_top (go_on next)) job self.old }
    {
        if (job as usize) < self.jobs.len() {
            self.jobs.at_mut(job as usize).go_on(next);
        }
    }

    /// Puts a frame on top of a job's, for a call after which the frame below goes on at `next`.
    pub fn enter(&mut self, job: u32, frame: Frame, next: u32) -> Result<(), AllocError>
        ensures ok { OnOk result (self.new ≡ in_job (enter frame next) job self.old) }
        ensures err { OnErr result (self.new ≡ self.old) }
    {
        if (job as usize) < self.jobs.len() {
            let there = self.jobs.at(job as usize);
            let held = there.held();
            let (out, put) = moved(held, there.held_entered(&frame));
            occupy(&mut self.busy, put)?;
            match self.jobs.at_mut(job as usize).enter(frame, next) {
                Ok(()) => release(&mut self.busy, out),
                Err(error) => {
                    release(&mut self.busy, put);
                    return Err(error);
                }
            }
        }
        Ok(())
    }

    /// A job gives its executor up until the job `on` has ended, whose result is for register
    /// `reg`.
    pub fn wait(&mut self, job: u32, on: u32, reg: u32, next: u32)
        ensures { self.new ≡ in_job (wait on reg next) job self.old }
    {
        if (job as usize) < self.jobs.len() {
            let held = self.jobs.at(job as usize).held();
            release(&mut self.busy, held);
            self.jobs.at_mut(job as usize).wait(on, reg, next);
        }
    }

    /// A job gives its executor up; register `reg` of its top frame gets the value of `Void`.
    pub fn rest(&mut self, job: u32, reg: u32, next: u32)
        ensures { self.new ≡ in_job (rest reg next) job self.old }
    {
        if (job as usize) < self.jobs.len() {
            let held = self.jobs.at(job as usize).held();
            release(&mut self.busy, held);
            self.jobs.at_mut(job as usize).rest(reg, next);
        }
    }

    /// Returns a value from a job's top frame.
    pub fn leave(&mut self, job: u32, value: Value) -> Result<(), AllocError>
        ensures ok { OnOk result (self.new ≡ in_job (leave value) job self.old) }
        ensures err { OnErr result (self.new ≡ self.old) }
    {
        if (job as usize) < self.jobs.len() {
            let there = self.jobs.at(job as usize);
            let held = there.held();
            let later = there.held_left();
            replace(&mut self.busy, held, later)?;
            self.jobs.at_mut(job as usize).leave(value);
        }
        Ok(())
    }
}

impl State {
    /// A state that is not halted.
    pub fn new(
        alloc: Global,
        cells: CellList,
        globals: ValueSlots,
        jobs: JobList,
    ) -> Result<State, AllocError>
        ensures { IfOk result (λ state. state ≡ record {
          cells = cells;
          globals = globals;
          jobs = jobs;
          halted = None;
        }) }
    {
        let busy = busy_of(alloc, &jobs)?;
        Ok(State {
            cells,
            globals,
            jobs,
            halted: None,
            busy,
        })
    }

    /// Halts the machine.
    #[tactic(auto, unfolding(crate::specs::State::halt))]
    pub fn halt(&mut self, kind: TrapKind, at: u32)
        ensures { self.new ≡ halt kind at self.old }
    {
        self.halted = Some((kind, at));
    }

    /// Adds a cell.
    #[tactic(auto, unfolding(crate::specs::State::add_cell))]
    pub fn add_cell(&mut self, cell: HeapCell) -> Result<(), AllocError>
        ensures ok { OnOk result (self.new ≡ add_cell cell self.old) }
        ensures err { OnErr result (self.new ≡ self.old) }
    {
        self.cells.push(cell)
    }

    /// Puts a value into a slot of a cell.
    #[tactic(auto, using(crate::proofs::ListLemmas::changes), unfolding(crate::specs::State::in_cell))]
    pub fn set_slot(&mut self, cell: u32, slot: Slot, value: Value)
        ensures { self.new ≡ in_cell (with_slot slot value) cell self.old }
    {
        if (cell as usize) < self.cells.len() {
            self.cells.at_mut(cell as usize).set_slot(slot, value);
        }
    }

    /// Gives a global a value.
    #[tactic(auto, using(std::proofs::lemmas::List::set_past), unfolding(crate::specs::State::set_global))]
    pub fn set_global(&mut self, global: u32, value: Value)
        ensures { self.new ≡ set_global global value self.old }
    {
        if (global as usize) < self.globals.len() {
            self.globals.set(global as usize, Some(value));
        }
    }

    /// Adds a job with one frame, and then the cell of its task. Where memory runs out it adds
    /// neither.
    #[tactic(auto, unfolding(crate::specs::State::add_job, crate::specs::State::add_cell))]
    pub fn add_task(&mut self, alloc: Global, frame: Frame, job: u32) -> Result<(), AllocError>
        ensures ok { OnOk result
            (self.new ≡ add_cell (TaskOf job) (add_job (new_job (frame ∷ [])) self.old)) }
        ensures err { OnErr result (self.new ≡ self.old) }
    {
        let made = Job::new(alloc, frame)?;
        self.cells.push(HeapCell::TaskOf { job })?;
        match self.jobs.push(made) {
            Ok(()) => Ok(()),
            Err(error) => {
                let _ = self.cells.pop();
                Err(error)
            }
        }
    }

    /// Whether one more job may begin to run on an executor: on the generic one always, on another
    /// where no job runs on it.
    pub fn is_free(&self, executor: Executor) -> bool
        ensures { result ≡ is_free executor self.now.jobs }
    {
        match executor {
            Executor::Generic => true,
            Executor::ActorOf(_) | Executor::Global(_) => !self.is_taken(executor),
        }
    }

    /// Whether some job runs on an executor other than the generic one.
    fn is_taken(&self, executor: Executor) -> bool
        requires { is_exclusive executor ≡ true }
        ensures { result ≡ list_any (runs_on executor) self.now.jobs }
    {
        is_among(&self.busy, executor)
    }

    /// What a job has ended with.
    #[tactic(auto, unfolding(crate::specs::State::result_of))]
    pub fn result_of(&self, job: u32) -> Option<&Value>
        ensures { option_copied result ≡ result_of self.now job }
    {
        match self.jobs.get(job as usize) {
            None => None,
            Some(job) => match &job.status {
                Status::Ended { value } => Some(value),
                Status::Ready | Status::Running | Status::Waiting { .. } => None,
            },
        }
    }
}
