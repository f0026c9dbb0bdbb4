//! The graphs, and facts that count their joins.
ghost use Rattle.std.specs.Prelude.{◌≡◌, ◌<◌, length, vec_len, IfOk};
ghost use Rattle.std.specs.List.Sorted.{IsStrictlyIncreasing};

use smallvec::SmallVec;
use std::alloc::{AllocError, Global};
use std::cell::Cell;
use std::sync::ledger::{Blank, Ledger};
use sw_partition::Partition;
use sw_solve::{Flow, Lattice, Steps, solve};

/// The numbers below `count`, as sites.
pub fn rising(alloc: Global, count: u32) -> Result<Vec<u32>, AllocError>
    ensures count { IfOk result (λ sites. vec_len sites ≡ count) }
    ensures rising { IfOk result (λ sites. IsStrictlyIncreasing sites.items) }
{
    let mut sites = Vec::new(alloc);
    for site in 0..count {
        sites.push(site)?;
    }
    Ok(sites)
}

/// A region state whose joins count in a cell of its graph.
#[derive(Drop)]
pub struct Counted<'a> {
    state: Partition,
    joins: &'a Cell<u64>,
}

impl<'a> Lattice for Counted<'a> {
    ghost use Rattle.sw_partition.specs.Regions.{size_of, IsWithin, IsSameState};
    ghost use Rattle.sw_partition.specs.Rank.{rank_of, height_of};
    ghost use Rattle.sw_partition.specs.Laws.{within_refl, within_trans, within_both, same_within};
    ghost use Rattle.sw_partition.specs.Laws.{rank_rises, rank_bound};

    ghost size = { λ a. size_of a.state };

    ghost le = { λ a b. IsWithin a.state b.state };

    ghost alike = { λ a b. IsSameState a.state b.state };

    ghost rank = { λ a. rank_of a.state };

    ghost height = { height_of };

    fn copy(&self, alloc: Global) -> Result<Counted<'a>, AllocError> {
        Ok(Counted {
            state: self.state.copy(alloc)?,
            joins: self.joins,
        })
    }

    fn join_with<L: Ledger>(&mut self, other: &Counted<'a>, steps: &mut Steps<L>) -> bool {
        self.joins.set(self.joins.get().saturating_add(1));
        self.state.join_with(&other.state, steps)
    }

    ghost reflexive = { λ a. within_refl a.state };

    ghost transitive = { λ a b c. within_trans a.state b.state c.state };

    ghost antisymmetric = { λ a b. within_both a.state b.state };

    ghost alike_le = { λ a b. same_within a.state b.state };

    ghost rises = { λ a b. rank_rises a.state b.state };

    ghost bounded = { λ a. rank_bound a.state };
}

/// Points in a row; in a ring the last leads to the first, and in a ladder each leads also to the
/// one after the next. The step of a point joins two elements and gives their class away.
#[derive(Drop)]
pub struct Graph<'a> {
    pub points: u32,
    pub is_ring: bool,
    pub is_ladder: bool,
    pub sites: &'a [u32],
    pub joins: &'a Cell<u64>,
    ghost some: { 0 < points },
    ghost fifty: { length sites.now ≡ 50 },
    ghost rising: { IsStrictlyIncreasing sites.now },
}

impl<'a> Flow for Graph<'a> {
    ghost use Rattle.std.specs.Prelude.{◌≡◌, ◌+◌, ◌*◌, ◌%◌, ◌&&◌, nat_lt, if◌then◌else◌, [], ◌∷◌};
    ghost use Rattle.std.specs.Prelude.{◌++◌, slice_index};
    ghost use Rattle.sw_partition.specs.Effects.{IsBlank};
    ghost use Rattle.sw_partition.specs.Laws.{within_trans};
    ghost use Rattle.bench_solve.specs.Bench.{IsStep, step_monotone, blank_within};

    type Fact = Counted<'a>;

    ghost count = { λ graph. graph.points };

    ghost fact_size = { λ graph. 100 ∷ graph.sites.now };

    ghost enters = { λ graph fact. IsBlank 100 graph.sites.now fact.state };

    ghost leads = { λ graph p before after.
        IsStep (1 + p % 99) (1 + p % 99 * 7 % 99) (slice_index graph.sites.now (p % 50))
        before.state after.state };

    ghost successors = { λ graph p.
        (if nat_lt (p + 1) graph.points then (p + 1) ∷ []
        else (if graph.is_ring then 0 ∷ [] else []))
        ++ (if graph.is_ladder && nat_lt (p + 2) graph.points then (p + 2) ∷ [] else []) };

    fn points(&self) -> u32 {
        self.points
    }

    fn entry(&self, alloc: Global) -> Result<Counted<'a>, AllocError> {
        Ok(Counted {
            state: Partition::new(alloc, 100, self.sites)?,
            joins: self.joins,
        })
    }

    fn after(
        &self,
        alloc: Global,
        point: u32,
        before: &Counted<'a>,
    ) -> Result<Counted<'a>, AllocError> {
        let mut state = before.state.copy(alloc)?;
        let x = 1 + point % 99;
        state.join(x, 1 + point % 99 * 7 % 99);
        state.give(x, self.sites[(point % 50) as usize]);
        Ok(Counted {
            state,
            joins: self.joins,
        })
    }

    fn next(&self, alloc: Global, point: u32) -> Result<SmallVec<u32, 2, Global>, AllocError> {
        let left = self.points - point;
        let mut next = SmallVec::new(alloc);
        if left > 1 {
            next.push(point + 1)?;
        } else if self.is_ring {
            next.push(0)?;
        }
        if self.is_ladder && left > 2 {
            next.push(point + 2)?;
        }
        Ok(next)
    }

    ghost one_entry = { λ graph a b. blank_within 100 graph.sites.now a.state b.state };

    ghost monotone = { λ graph p a b c d size_a size_b.
        step_monotone (1 + p % 99) (1 + p % 99 * 7 % 99) (slice_index graph.sites.now (p % 50))
        a.state b.state c.state d.state };
}

/// Solves the graph's problem, and says how many points have a state.
pub fn solved<L: Ledger>(alloc: Global, graph: &Graph, blank: Blank) -> Result<usize, AllocError>
    requires name { blank.name ≡ L.name }
    requires parts { blank.parts ≡ L.parts }
    requires part { 0 < blank.parts }
{
    let mut steps = Steps::<L>::new(blank);
    let solution = solve(alloc, graph, &mut steps)?;
    Ok(
        (0..graph.points)
            .filter(|p| solution.at(*p).is_some())
            .count(),
    )
}
