//! The sites at which a function gives elements away.
ghost use Rattle.std.specs.Prelude.{◌≡◌, ◌++◌, ◌↔◌, ℕ, Contains, flat_map, OnOk, IfOk};
ghost use Rattle.std.specs.List.Sorted.{IsStrictlyIncreasing};
ghost use Rattle.sw_region_ops.specs.Sites.{site_of, sites_of, AreSites};
ghost use Rattle.sw_region_ops.specs.Table.{block_ops};

use crate::context::Context;
use crate::op::Op;
use std::alloc::{AllocError, Global};
use sw_graph::Block;
use sw_list::ListOf;

/// Adds the site of an operation that gives an element away.
fn add_site(sites: &mut ListOf<u32>, op: &Op) -> Result<(), AllocError>
    ensures { OnOk result (sites.new ≡ sites.old ++ site_of op.now) }
{
    match op {
        Op::Give { site, .. } => sites.push(*site),
        Op::Need { .. } | Op::Free { .. } | Op::Fresh { .. } | Op::Put { .. } | Op::Join { .. } =>
            Ok(()),
    }
}

/// Adds the sites of operations.
fn add_sites(sites: &mut ListOf<u32>, ops: &[Op]) -> Result<(), AllocError>
    ensures { OnOk result (sites.new ≡ sites.old ++ sites_of ops.now) }
{
    for op in ops {
        add_site(sites, op)?;
    }
    Ok(())
}

/// The sites of the operations of blocks, in order.
#[tactic(auto, using(crate::proofs::SiteLemmas::sites_append))]
fn block_sites(
    alloc: Global,
    context: &Context,
    blocks: &[Block],
) -> Result<ListOf<u32>, AllocError>
    ensures { IfOk result (λ sites. sites
        ≡ sites_of (flat_map (block_ops context.now) blocks.now)) }
{
    let mut sites = ListOf::new(alloc);
    for block in blocks {
        let ops = context.block_ops(alloc, block)?;
        add_sites(&mut sites, ops.as_slice())?;
    }
    Ok(sites)
}

/// The same numbers, each once, in rising order.
fn in_order(sites: ListOf<u32>) -> Vec<u32>
    ensures rising { IsStrictlyIncreasing result.items }
    ensures same { (site : ℕ) → Contains result.items site ↔ Contains sites site }
{
    let mut sites = sites.into_vec();
    sites.sort_unstable();
    sites.dedup();
    sites
}

impl Context<'_> {
    /// The sites at which the function gives elements away, each once, in rising order.
    pub fn sites(&self, alloc: Global) -> Result<Vec<u32>, AllocError>
        ensures { IfOk result (λ sites. AreSites self.now sites.items) }
    {
        Ok(in_order(block_sites(alloc, self, self.body().blocks.as_slice())?))
    }
}
