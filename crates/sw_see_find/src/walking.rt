//! A walk of the machine by chance, up to a race.

ghost use Rattle.std.specs.Prelude.{◌≡◌, ◌+◌, ◌<◌, ◌≤◌, ◌^◌, IfOk, OnOk, IsFalse, length};
ghost use Rattle.sw_value.specs.Reach.{reach};

use crate::memory::Memory;
use rand_pcg::Pcg32;
use std::alloc::{AllocError, Global};
use sw_graph::Graph;
use sw_race::race_with;
use sw_step::{act_of, perform};
use sw_value::{State, start};

/// The most items of a walk.
pub const MOST_ITEMS: usize = 4_096;

/// A state, and the items that led to it; each of them changed something.
#[derive(Drop)]
struct Walk {
    state: State,
    items: Vec<u32>,
}

impl Walk {
    /// No item is taken.
    #[tactic(auto, unfolding(sw_value::specs::Reach::reach))]
    fn new(alloc: Global, graph: &Graph) -> Result<Walk, AllocError>
        ensures reached { IfOk result (λ walk. walk.state ≡ reach graph.now walk.items.items) }
        ensures none { IfOk result (λ walk. length walk.items.items ≡ 0) }
    {
        Ok(Walk {
            state: start(alloc, graph)?,
            items: Vec::new(alloc),
        })
    }

    /// Takes an item, if it changes something, and returns whether it does.
    fn take(&mut self, alloc: Global, graph: &Graph, job: u32) -> Result<bool, AllocError>
        requires reached { self.old.state ≡ reach graph.now self.old.items.items }
        requires few { length self.old.items.items < MOST_ITEMS }
        ensures reached { OnOk result (self.new.state ≡ reach graph.now self.new.items.items) }
        ensures more { OnOk result
            (length self.new.items.items ≤ length self.old.items.items + 1) }
        ensures same { IfOk result (λ moved. IsFalse moved → self.new ≡ self.old) }
    {
        let Some(act) = act_of(alloc, graph, &self.state, job)? else {
            return Ok(false);
        };
        perform(alloc, &mut self.state, job, act)?;
        self.items.push(job)?;
        Ok(true)
    }

    /// The items.
    fn into_items(self) -> Vec<u32>
        ensures { result ≡ self.items }
    {
        let Walk { items, .. } = self;
        items
    }

    /// How many jobs there are.
    fn jobs(&self) -> u32
        requires { length self.now.state.jobs < 2 ^ 32 }
        ensures { result ≡ length self.now.state.jobs }
    {
        self.state.jobs.len() as u32
    }

    /// Lets a job go on: the one with this number, or the next one that can. It returns which one
    /// did, if any.
    fn go_on(&mut self, alloc: Global, graph: &Graph, first: u32) -> Result<Option<u32>, AllocError>
        requires reached { self.old.state ≡ reach graph.now self.old.items.items }
        requires few { length self.old.items.items < MOST_ITEMS }
        ensures reached { OnOk result (self.new.state ≡ reach graph.now self.new.items.items) }
        ensures more { OnOk result
            (length self.new.items.items ≤ length self.old.items.items + 1) }
    {
        let count = self.jobs();
        for k in 0..count {
            let job = first.wrapping_add(k) % count;
            if self.take(alloc, graph, job)? {
                return Ok(Some(job));
            }
        }
        Ok(None)
    }
}

/// Lets jobs go on by chance, up to a race, and returns the items that led to it. There are none
/// where all jobs end before, or stand still, or the walk is long.
pub fn race_items(
    alloc: Global,
    graph: &Graph,
    memory: &mut Memory,
    rng: &mut Pcg32,
) -> Result<Option<Vec<u32>>, AllocError> {
    let mut walk = Walk::new(alloc, graph)?;
    let mut job = 0;
    for _taken in 0..MOST_ITEMS {
        let next = memory.next_job(graph, &walk.state, job, rng)?;
        let Some(moved) = walk.go_on(alloc, graph, next)? else {
            return Ok(None);
        };
        if race_with(graph, &walk.state, moved).is_some() {
            return Ok(Some(walk.into_items()));
        }
        job = moved;
    }
    Ok(None)
}
