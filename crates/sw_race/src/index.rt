use crate::target::{Target, job_target, target_at};
use crate::uses::{UsesByPlace, is_alone, take_in, take_out};
use crate::with::least_race;
use indexmap::IndexMap;
use std::alloc::{AllocError, Global};
use std::marker::Model;
use sw_graph::Graph;
use sw_list::ListOf;
use sw_value::{Race, State};

/// An index of the targets of jobs. It stands for one state after another: `update` follows each
/// item, and `least_race` looks at no job unless the targets of two jobs clashed. Contracts see the
/// target of each job.
#[derive(Drop)]
pub struct RaceIndex {
    targets: ListOf<Option<Target>>,
    uses: UsesByPlace,
    /// Set only where the targets of no two jobs clash. Where it is not set they may clash or not.
    clear: bool,
}

impl Model for RaceIndex {
    ghost use Rattle.std.specs.Prelude.{List, Option};
    ghost use Rattle.std.specs.Coded.{coded_list, coded_option};
    ghost use Rattle.sw_race.specs.declared.target.Target.{Target};
    ghost use Rattle.sw_race.specs.contracts.target.Target as target;
    ghost use Rattle.sw_race.specs.Index.{IsIndexed};

    ghost Value = { List (Option Target) };

    ghost coded = { coded_list (coded_option target.the_row.coded) };

    ghost view = { λ i. i.targets };

    ghost invariant = { λ i. IsIndexed i.uses i.clear i.targets };
}

impl RaceIndex {
    ghost use Rattle.std.specs.Prelude.{◌≡◌, ◌+◌, ◌<◌, ◌≤◌, ◌^◌, ℕ, Option, List, [], ◌∷◌, ◌++◌};
    ghost use Rattle.std.specs.Prelude.{None, Some, true, length, slice_set, IfOk, OnOk, OnErr};
    ghost use Rattle.sw_race.specs.declared.target.Target.{Target};
    ghost use Rattle.sw_race.specs.Index.{IsIndexOf, StandsBefore, IsFoundOfAll};
    ghost use Rattle.sw_race.specs.Index.{kept_up};

    /// The index that stands for a state. It answers an error only for want of memory.
    pub fn new(alloc: Global, graph: &Graph, state: &State) -> Result<RaceIndex, AllocError>
        requires jobs { length state.now.jobs < 2 ^ 32 }
        ensures { IfOk result (IsIndexOf graph.now state.now) }
    {
        let mut index = RaceIndex::empty(alloc);
        for job in state.jobs.as_slice() {
            index.add(job_target(graph, job))?;
        }
        Ok(index)
    }

    /// Follows an item of a job from the state for which the index stands to the given state. It
    /// looks at no other job. It answers an error only if memory runs out, and then the index stays
    /// as it was.
    pub fn update(&mut self, graph: &Graph, state: &State, job: u32) -> Result<(), AllocError>
        requires before { StandsBefore graph.now self.old state.now job }
        requires jobs { length state.now.jobs < 2 ^ 32 }
        ensures stands { OnOk result (IsIndexOf graph.now state.now self.new) }
        ensures err { OnErr result (self.new ≡ self.old) }
    {
        self.keep_up(state.jobs.len(), job, target_at(graph, state, job))
    }

    /// The least race of the state for which the index stands, or none where that is not racing. It
    /// looks at no job where the targets of no two jobs clashed in any state for which it stood.
    pub fn least_race(&self, graph: &Graph, state: &State) -> Option<Race>
        requires stands { IsIndexOf graph.now state.now self.now }
        requires jobs { length state.now.jobs < 2 ^ 32 }
        ensures { IsFoundOfAll graph.now state.now result }
    {
        if self.clear {
            return None;
        }
        least_race(graph, state)
    }

    /// The index of no job.
    fn empty(alloc: Global) -> RaceIndex
        ensures { result ≡ [] }
    {
        RaceIndex {
            targets: ListOf::new(alloc),
            uses: IndexMap::new(alloc),
            clear: true,
        }
    }

    /// Adds a job with its target.
    fn add(&mut self, next: Option<Target>) -> Result<(), AllocError>
        requires room { length self.old < 2 ^ 32 }
        ensures ok { OnOk result (self.new ≡ self.old ++ next ∷ []) }
        ensures err { OnErr result (self.new ≡ self.old) }
    {
        let number = self.targets.len();
        self.grow()?;
        match self.replace(number, next) {
            Ok(()) => Ok(()),
            Err(error) => {
                self.shrink();
                Err(error)
            }
        }
    }

    /// Gives a job its next target, after one job without target is added if there are more jobs
    /// than targets. A number past the targets gives no job a target.
    fn keep_up(&mut self, jobs: usize, job: u32, next: Option<Target>) -> Result<(), AllocError>
        requires room { length self.old < 2 ^ 32 }
        ensures ok { OnOk result (self.new ≡ kept_up jobs job next self.old) }
        ensures err { OnErr result (self.new ≡ self.old) }
    {
        let grows = self.targets.len() < jobs;
        if !grows {
            return self.set(job, next);
        }
        self.grow()?;
        match self.set(job, next) {
            Ok(()) => Ok(()),
            Err(error) => {
                self.shrink();
                Err(error)
            }
        }
    }

    /// Adds a job without target.
    fn grow(&mut self) -> Result<(), AllocError>
        ensures ok { OnOk result (self.new ≡ self.old ++ None ∷ []) }
        ensures err { OnErr result (self.new ≡ self.old) }
    {
        self.targets.push(None)
    }

    /// Takes the last job away, which has no target.
    fn shrink(&mut self)
        requires { (targets : List (Option Target)) × (self.old ≡ targets ++ None ∷ []) }
        ensures { (targets : List (Option Target)) → self.old ≡ targets ++ None ∷ []
            → self.new ≡ targets }
    {
        let _last = self.targets.pop();
    }

    /// Gives the job with a number another target; a number past the jobs changes nothing.
    #[tactic(auto, using(std::proofs::lemmas::List::set_past))]
    fn set(&mut self, job: u32, next: Option<Target>) -> Result<(), AllocError>
        requires room { length self.old < 2 ^ 33 }
        ensures ok { OnOk result (self.new ≡ slice_set self.old job next) }
        ensures err { OnErr result (self.new ≡ self.old) }
    {
        if (job as usize) < self.targets.len() {
            self.replace(job as usize, next)?;
        }
        Ok(())
    }

    /// Gives a job another target.
    fn replace(&mut self, job: usize, next: Option<Target>) -> Result<(), AllocError>
        requires inside { job < length self.old }
        requires room { length self.old < 2 ^ 33 }
        ensures ok { OnOk result (self.new ≡ slice_set self.old job next) }
        ensures err { OnErr result (self.new ≡ self.old) }
    {
        let old = *self.targets.at(job);
        take_in(&mut self.uses, next)?;
        take_out(&mut self.uses, old);
        self.targets.set(job, next);
        self.clear = self.clear && is_alone(&self.uses, next);
        Ok(())
    }
}
