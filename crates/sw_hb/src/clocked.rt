ghost use Rattle.std.specs.Prelude.{◌≡◌, ◌<◌, ◌^◌, ◌++◌, ◌∷◌, [], Some, IfOk, IfErr, OnOk, OnErr};
ghost use Rattle.std.specs.Prelude.{length};
ghost use Rattle.sw_value.specs.Act.{act_of};
ghost use Rattle.sw_value.specs.Reach.{step_of};
ghost use Rattle.sw_step.specs.Event.{event_of, act_event};
ghost use Rattle.sw_before.specs.Events.{events_of};
ghost use Rattle.sw_hb.specs.declared.fault.ClockFault.TheVariants.{ManyJobs};
ghost use Rattle.sw_hb.specs.Clocked.{HasManyJobs, IsClocked, is_one_too_many};
ghost use Rattle.sw_hb.specs.Events.{accesses_in, IsFirstPair};

use crate::fault::ClockFault;
use crate::history::History;
use crate::links::{links_by, made_by};
use std::alloc::{AllocError, Global};
use sw_clocks::MOST_JOBS;
use sw_graph::Graph;
use sw_list::ListOf;
use sw_race::next_access;
use sw_step::{Event, act_of, perform};
use sw_value::{Access, Act, State, start};

/// The items of a run, each the number of a job.
pub type ItemList = ListOf<u32>;

/// A state of the machine with the items that led to it, and what they tell of the order of their
/// accesses.
#[derive(Drop)]
pub struct Clocked {
    pub state: State,
    /// All items so far, in order.
    pub items: ItemList,
    history: History,
}

/// The machine before any item. It answers an error only for want of memory.
pub fn clock_start(alloc: Global, graph: &Graph) -> Result<Clocked, AllocError>
    ensures items { IfOk result (λ clocked. clocked.items ≡ []) }
    ensures clocked { IfOk result (IsClocked graph.now) }
{
    Ok(Clocked {
        state: start(alloc, graph)?,
        items: ListOf::new(alloc),
        history: History::new(alloc)?,
    })
}

/// Does what one item of a schedule says, and adds it to the items.
pub fn clock_step(
    alloc: Global,
    graph: &Graph,
    clocked: &mut Clocked,
    item: u32,
) -> Result<Event, ClockFault>
    requires clocked { IsClocked graph.now clocked.old }
    requires cells { length clocked.old.state.cells < 4294967295 }
    requires items { length clocked.old.items < 4294967295 }

    ensures steps { OnOk result (clocked.new.state ≡ step_of graph.now clocked.old.state item) }
    ensures items { OnOk result (clocked.new.items ≡ clocked.old.items ++ item ∷ []) }
    ensures event { IfOk result (λ event. event ≡ event_of graph.now clocked.old.state item) }
    ensures few { OnOk result (¬ HasManyJobs (step_of graph.now clocked.old.state item)) }
    ensures many { IfErr result (λ fault. fault ≡ ManyJobs
        → HasManyJobs (step_of graph.now clocked.old.state item)) }
    ensures unchanged { OnErr result ((clocked.new.state ≡ clocked.old.state)
        × (clocked.new.items ≡ clocked.old.items)) }
    ensures clocked { IsClocked graph.now clocked.new }
{
    match act_of(alloc, graph, &clocked.state, item)? {
        None => {
            clocked.items.push(item)?;
            Ok(Event::Nothing)
        }
        Some(act) => clocked.take(alloc, graph, item, act),
    }
}

impl Clocked {
    /// The first unordered pair of accesses so far, the earlier one first; or none where all are
    /// ordered. It takes no memory.
    pub fn unordered(&self, graph: &Graph) -> Option<(Access, Access)>
        requires { IsClocked graph.now self.now }
        ensures { IsFirstPair (events_of graph.now self.now.items) result }
    {
        self.history.first
    }

    /// How many items so far made an access. It takes no memory.
    pub fn accesses(&self, graph: &Graph) -> u64
        requires { IsClocked graph.now self.now }
        ensures { result ≡ accesses_in (events_of graph.now self.now.items) }
    {
        self.history.accesses
    }
}

impl Clocked {
    /// Takes an item that makes its job do an act.
    fn take(
        &mut self,
        alloc: Global,
        graph: &Graph,
        item: u32,
        act: Act,
    ) -> Result<Event, ClockFault>
        requires clocked { IsClocked graph.now self.old }
        requires acts { act_of graph.now self.old.state item ≡ Some act }
        requires items { length self.old.items < 4294967295 }
        ensures steps { OnOk result (self.new.state ≡ step_of graph.now self.old.state item) }
        ensures items { OnOk result (self.new.items ≡ self.old.items ++ item ∷ []) }
        ensures event { IfOk result (λ event. event ≡ act_event act) }
        ensures few { OnOk result (¬ HasManyJobs (step_of graph.now self.old.state item)) }
        ensures many { IfErr result (λ fault. fault ≡ ManyJobs
            → HasManyJobs (step_of graph.now self.old.state item)) }
        ensures unchanged { OnErr result ((self.new.state ≡ self.old.state)
            × (self.new.items ≡ self.old.items)) }
        ensures clocked { IsClocked graph.now self.new }
    {
        if is_one_too_many(made_by(&act)) {
            return Err(ClockFault::ManyJobs);
        }
        let links = links_by(&self.state, item, &act);
        let access = next_access(graph, &self.state, item);
        self.history.make_room(alloc, &links, access)?;
        self.items.push(item)?;
        match perform(alloc, &mut self.state, item, act) {
            Ok(event) => {
                self.history.take_in(&links, access);
                Ok(event)
            }
            Err(error) => {
                let _last = self.items.pop();
                Err(ClockFault::from(error))
            }
        }
    }
}

/// Whether a job that is made, if one is, has no clocks.
fn is_one_too_many(made: Option<u32>) -> bool
    ensures { result ≡ is_one_too_many made }
{
    match made {
        None => false,
        Some(job) => job as usize >= MOST_JOBS,
    }
}
