ghost use Rattle.std.specs.Prelude.{◌≡◌, ◌↔◌, ℕ, ◌<◌, ◌^◌, ◌++◌, ◌∷◌, [], length, replicate};
ghost use Rattle.std.specs.Prelude.{IfOk, OnOk, IsTrue, true, false, slice_index, slice_index_or};
ghost use Rattle.std.specs.Prelude.{All};
ghost use Rattle.sw_types.specs.Paths.{AreInRange, IsOrder, Path};

use std::alloc::{AllocError, Global};
use sw_list::ListOf;

/// How far a number has come.
#[derive(Clone, Copy)]
enum Progress {
    /// The walk has not come to it.
    Fresh,
    /// It stands at this place among the open numbers.
    Open(usize),
    /// It is in the order, and all that it leads to is settled too.
    Settled,
}

/// Open numbers that lead to each other: the place of the first, and how many targets waited when
/// it was opened. The members are the open numbers from there to the next group.
#[derive(Clone, Copy)]
struct Group {
    first: usize,
    waiting: usize,
}

/// Numbers in an order, and which of them lead back to themselves.
#[derive(Drop)]
pub struct Sorting {
    pub order: ListOf<u32>,
    pub returns: ListOf<bool>,
}

/// A walk along edges: how far each number has come, the open numbers in the order in which they
/// were opened, their groups, the targets that wait for a look, and of the settled numbers an order
/// and which lead back to themselves.
#[derive(Drop)]
struct Walk {
    progress: ListOf<Progress>,
    opened: ListOf<u32>,
    groups: ListOf<Group>,
    waiting: ListOf<u32>,
    order: ListOf<u32>,
    returns: ListOf<bool>,
}

/// The numbers below `count`.
fn numbers_below(alloc: Global, count: u32) -> Result<ListOf<u32>, AllocError>
    ensures all { IfOk result (λ numbers. length numbers ≡ count) }
    ensures each { IfOk result (λ numbers. (k : ℕ) → k < count → slice_index numbers k ≡ k) }
{
    let mut numbers = ListOf::new(alloc);
    for number in 0..count {
        numbers.push(number)?;
    }
    Ok(numbers)
}

/// No marks, for the numbers below `count`.
pub fn no_marks(alloc: Global, count: usize) -> Result<ListOf<bool>, AllocError>
    ensures { IfOk result (λ marks. marks ≡ replicate count false) }
{
    Ok(ListOf::from_vec(vec![in alloc; false; count]?))
}

impl Walk {
    ghost use Rattle.std.specs.Prelude.{◌+◌, ◌≤◌, Contains, Some, slice_get};
    ghost use Rattle.std.specs.List.{AllWithin};
    ghost use Rattle.sw_types.specs.Walks.{AllWait, AreInOrder, AreMoved, IsBegun, IsWalk, LeadBack};
    ghost use Rattle.sw_types.specs.Walks.{fresh_count, progress_at, steps_left};
    ghost use Rattle.sw_types.specs.Walks.{with_group, with_open, with_waiting};
    ghost use Rattle.sw_types.specs.declared.ordering.Progress.TheVariants.{Open};

    /// A walk for which each number below `count` waits.
    fn new(alloc: Global, count: usize) -> Result<Walk, AllocError>
        requires { count < 2 ^ 32 }
        ensures { IfOk result (IsBegun count) }
    {
        Ok(Walk {
            progress: ListOf::from_vec(vec![in alloc; Progress::Fresh; count]?),
            opened: ListOf::new(alloc),
            groups: ListOf::new(alloc),
            waiting: numbers_below(alloc, count as u32)?,
            order: ListOf::new(alloc),
            returns: no_marks(alloc, count)?,
        })
    }

    /// How far a number has come.
    fn progress_of(&self, number: u32) -> Progress
        requires { number < length self.now.progress }
        ensures { result ≡ progress_at self.now.progress number }
    {
        self.progress.as_slice()[number as usize]
    }

    /// Puts targets at the end of those that wait.
    fn wait(&mut self, targets: &[u32]) -> Result<(), AllocError>
        ensures { OnOk result (self.new ≡ with_waiting self.old targets.now) }
    {
        for target in targets {
            self.waiting.push(*target)?;
        }
        Ok(())
    }

    /// Comes to a number, whose targets then wait.
    fn open(&mut self, number: u32, targets: &[u32]) -> Result<(), AllocError>
        requires { number < length self.old.progress }
        ensures { OnOk result (self.new ≡ with_waiting (with_open self.old number) targets.now) }
    {
        let group = Group {
            first: self.opened.len(),
            waiting: self.waiting.len(),
        };
        self.progress
            .set(number as usize, Progress::Open(group.first));
        self.opened.push(number)?;
        self.groups.push(group)?;
        self.wait(targets)
    }

    /// How many groups begin no later than at a place.
    fn groups_until(&self, place: usize) -> usize
        requires { AreInOrder self.now.groups }
        ensures within { result ≤ length self.now.groups }
        ensures until { AllWithin (λ group. group.first ≤ place) self.now.groups 0 result }
        ensures after { AllWithin (λ group. place < group.first) self.now.groups result
            (length self.now.groups) }
    {
        let groups = self.groups.as_slice();
        let mut count = groups.len();
        while count > 0 && groups[count - 1].first > place {
            count -= 1;
        }
        count
    }

    /// Looks at a target of the last group, which was taken off those that wait: a fresh one is
    /// opened, and the groups from that of an open one on are united.
    fn look(&mut self, edges: &[ListOf<u32>], target: u32) -> Result<(), AllocError>
        requires edges { AreInRange edges.now }
        requires walk { IsWalk edges.now (with_waiting self.old (target ∷ [])) }
        requires last { AllWait (with_waiting self.old (target ∷ [])) }
        ensures walk { OnOk result (IsWalk edges.now self.new) }
        ensures fewer { OnOk result (steps_left edges.now self.new
            < steps_left edges.now (with_waiting self.old (target ∷ []))) }
    {
        match self.progress_of(target) {
            Progress::Settled => {}
            Progress::Open(place) => {
                let count = self.groups_until(place);
                self.groups.truncate(count);
            }
            Progress::Fresh => self.open(target, edges[target as usize].as_slice())?,
        }
        Ok(())
    }

    /// Whether the open numbers from the place `first` on, which lead to each other, lead back to
    /// themselves.
    fn lead_back(&self, edges: &[ListOf<u32>], first: usize) -> bool
        requires first { first < length self.now.opened }
        requires within { slice_index self.now.opened first < length edges.now }
        ensures { IsTrue result ↔ LeadBack edges.now self.now.opened first }
    {
        let number = self.opened.as_slice()[first];
        self.opened.len() - first > 1 || edges[number as usize].as_slice().contains(&number)
    }

    /// Puts the open numbers from the place `first` on into the order, and says of each whether it
    /// leads back to itself.
    fn move_from(&mut self, first: usize, returns: bool) -> Result<(), AllocError>
        requires first { first ≤ length self.old.opened }
        requires placed { (k place : ℕ) → slice_get self.old.opened place ≡ Some k
            → progress_at self.old.progress k ≡ Open place }
        requires sized { length self.old.returns ≡ length self.old.progress }
        ensures { OnOk result
            (AreMoved first (length self.old.opened) returns self.old self.new) }
    {
        for place in first..self.opened.len() {
            let number = self.opened.as_slice()[place];
            self.progress.set(number as usize, Progress::Settled);
            self.returns.set(number as usize, returns);
            self.order.push(number)?;
        }
        Ok(())
    }

    /// Settles the members of the last group, which was taken off and for which no target waits.
    fn settle(&mut self, edges: &[ListOf<u32>], group: Group) -> Result<(), AllocError>
        requires walk { IsWalk edges.now (with_group self.old group) }
        requires done { length self.old.waiting ≤ group.waiting }
        ensures walk { OnOk result (IsWalk edges.now self.new) }
        ensures groups { OnOk result (self.new.groups ≡ self.old.groups) }
        ensures left { OnOk result (steps_left edges.now self.new
            ≡ steps_left edges.now self.old) }
    {
        let returns = self.lead_back(edges, group.first);
        self.move_from(group.first, returns)?;
        self.opened.truncate(group.first);
        Ok(())
    }

    /// Settles the last groups, as far as no target waits for them.
    fn settle_last(&mut self, edges: &[ListOf<u32>]) -> Result<(), AllocError>
        requires walk { IsWalk edges.now self.old }
        ensures walk { OnOk result (IsWalk edges.now self.new) }
        ensures waits { OnOk result (AllWait self.new) }
        ensures left { OnOk result (steps_left edges.now self.new
            ≡ steps_left edges.now self.old) }
    {
        while let Some(group) = self.groups.pop() {
            if group.waiting < self.waiting.len() {
                return self.groups.push(group);
            }
            self.settle(edges, group)?;
        }
        Ok(())
    }
}

/// Puts the numbers into an order, and says which lead back to themselves, in a time that is linear
/// in the numbers and edges. Where none does, each number stands after those that it leads to.
pub fn sorting_of(alloc: Global, edges: &[ListOf<u32>]) -> Result<Sorting, AllocError>
    requires edges { AreInRange edges.now }
    requires small { length edges.now < 2 ^ 32 }
    ensures sized { IfOk result (λ sorting. length sorting.returns ≡ length edges.now) }
    ensures returns { IfOk result (λ sorting. (k : ℕ)
        → (slice_index_or sorting.returns k false ≡ true) ↔ Path edges.now k k) }
    ensures order { IfOk result (λ sorting.
        ((k : ℕ) → slice_index_or sorting.returns k false ≡ false)
        → IsOrder edges.now sorting.order) }
{
    let mut walk = Walk::new(alloc, edges.len())?;
    while let Some(target) = walk.waiting.pop() {
        walk.look(edges, target)?;
        walk.settle_last(edges)?;
    }
    let Walk { order, returns, .. } = walk;
    Ok(Sorting { order, returns })
}
