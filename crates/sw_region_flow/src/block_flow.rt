//! The flow of a function's blocks with region states.
ghost use Rattle.std.specs.Prelude.{◌≡◌, IfOk};
ghost use Rattle.sw_graph.specs.Mentions.{blocks_of};

use crate::walking::walk;
use smallvec::SmallVec;
use std::alloc::{AllocError, Global};
use std::marker::Model;
use sw_graph::{Block, Graph, Last};
use sw_list::ListOf;
use sw_partition::Partition;
use sw_region_ops::{Context, OpList, run};
use sw_solve::{Flow, Lattice};

/// The blocks of a function as the points of a flow, whose step does the operations of a block.
/// Contracts see the function's setting, and the sites of its states.
#[derive(Drop)]
pub struct BlockFlow<'a> {
    context: Context<'a>,
    sites: Vec<u32>,
}

impl<'a> Model for BlockFlow<'a> {
    ghost use Rattle.sw_graph.specs.contracts.function.Function as function;
    ghost use Rattle.sw_region_flow.specs.Analysis.{Analysis, IsAnalysis, analysis_code};
    ghost use Rattle.sw_region_ops.specs.Setting.{setting_code};

    ghost Value = { Analysis };

    ghost coded = { analysis_code (setting_code function.the_row.coded) };

    ghost view = { λ f. record { setting = f.context; sites = f.sites.items } };

    ghost invariant = { λ f. IsAnalysis (record { setting = f.context; sites = f.sites.items }) };
}

/// The blocks that a last instruction leads to.
fn targets(alloc: Global, last: &Last) -> Result<SmallVec<u32, 2, Global>, AllocError>
    ensures { IfOk result (λ targets. targets.items ≡ blocks_of last.now) }
{
    match last {
        Last::Jump { to } => SmallVec::from_slice(alloc, &[*to]),
        Last::Branch { yes, no, .. } => SmallVec::from_slice(alloc, &[*yes, *no]),
        Last::Switch { to, .. } => SmallVec::from_slice(alloc, to.as_slice()),
        Last::Return { .. } => SmallVec::from_slice(alloc, &[]),
    }
}

impl<'a> BlockFlow<'a> {
    ghost use Rattle.std.specs.Prelude.{◌≡◌, ◌<◌, ◌↔◌, Some, length, slice_get, All, IsTrue, IfOk};
    ghost use Rattle.std.specs.Prelude.{OnOk};
    ghost use Rattle.sw_graph.specs.declared.function.Function.{Function};
    ghost use Rattle.sw_partition.specs.Regions.{size_of};
    ghost use Rattle.sw_region_flow.specs.Analysis.{IsAnalysis, block_ops_at, facts_of};
    ghost use Rattle.sw_region_flow.specs.Analysis.{targets_at};
    ghost use Rattle.sw_region_ops.specs.Entry.{IsEntry};
    ghost use Rattle.sw_region_flow.specs.Passing.{AllPass};
    ghost use Rattle.sw_region_ops.specs.Runs.{Fits, Runs};
    ghost use Rattle.sw_region_ops.specs.Setting.{setting_of};

    /// The flow of a function of a graph.
    pub fn new(
        alloc: Global,
        graph: &'a Graph,
        function: usize,
    ) -> Result<BlockFlow<'a>, AllocError>
        requires { function < length graph.now.functions }
        ensures setting { IfOk result (λ flow. (body : Function)
            → slice_get graph.now.functions function ≡ Some body
            → flow.setting ≡ setting_of graph.now body) }
        ensures fits { IfOk result IsAnalysis }
    {
        let context = Context::new(alloc, graph, function)?;
        let sites = context.sites(alloc)?;
        Ok(BlockFlow { context, sites })
    }

    /// How many blocks there are.
    pub fn blocks(&self) -> u32
        ensures count { result ≡ length self.now.setting.body.blocks }
        ensures fits { IsAnalysis self.now }
    {
        self.context.body().blocks.len() as u32
    }

    /// A block.
    fn block(&self, number: u32) -> &Block
        requires { number < length self.now.setting.body.blocks }
        ensures block { slice_get self.now.setting.body.blocks number ≡ Some result.now }
        ensures fits { IsAnalysis self.now }
    {
        self.context.body().blocks.at(number as usize)
    }

    /// The operations of a block.
    pub(crate) fn ops(&self, alloc: Global, block: u32) -> Result<OpList, AllocError>
        requires { block < length self.now.setting.body.blocks }
        ensures ops { IfOk result (λ ops. ops ≡ block_ops_at self.now.setting block) }
        ensures fit { IfOk result (All (Fits (facts_of self.now))) }
    {
        let ops = self.context.block_ops(alloc, self.block(block))?;
        Ok(ops)
    }

    /// The blocks that follow a block.
    pub fn following(
        &self,
        alloc: Global,
        block: u32,
    ) -> Result<SmallVec<u32, 2, Global>, AllocError>
        requires { block < length self.now.setting.body.blocks }
        ensures targets { IfOk result
            (λ targets. targets.items ≡ targets_at self.now.setting.body.blocks block) }
        ensures in_range { IfOk result
            (λ targets. All (λ q. q < length self.now.setting.body.blocks) targets.items) }
    {
        let targets = targets(alloc, &self.block(block).last)?;
        Ok(targets)
    }

    /// The state at the entry.
    pub fn enter(&self, alloc: Global) -> Result<Partition, AllocError>
        ensures entry { IfOk result (IsEntry self.now.setting self.now.sites) }
        ensures size { IfOk result (λ state. size_of state ≡ facts_of self.now) }
    {
        let state = self.context.enter(alloc, &self.sites)?;
        Ok(state)
    }

    /// Goes through a block from the state with which control comes to it, and answers whether each
    /// test on the way passes.
    pub fn passes(
        &self,
        alloc: Global,
        block: u32,
        state: &mut Partition,
    ) -> Result<bool, AllocError>
        requires block { block < length self.now.setting.body.blocks }
        requires size { size_of state.old ≡ facts_of self.now }
        ensures runs { OnOk result
            (Runs (block_ops_at self.now.setting block) state.old state.new) }
        ensures passes { IfOk result (λ passes. IsTrue passes
            ↔ AllPass (block_ops_at self.now.setting block) state.old) }
    {
        let ops = self.ops(alloc, block)?;
        let mut found = ListOf::new(alloc);
        walk(&mut found, ops.as_slice(), state)?;
        Ok(found.is_empty())
    }
}

impl<'a> Flow for BlockFlow<'a> {
    ghost use Rattle.std.specs.Prelude.{length};
    ghost use Rattle.sw_region_flow.specs.Analysis.{WalksBlock, facts_of, targets_at};
    ghost use Rattle.sw_region_flow.specs.Laws.{entries_within, leads_monotone};
    ghost use Rattle.sw_region_ops.specs.Entry.{IsEntry};

    type Fact = Partition;

    ghost count = { λ f. length f.setting.body.blocks };

    ghost fact_size = { facts_of };

    ghost enters = { λ f. IsEntry f.setting f.sites };

    ghost leads = { WalksBlock };

    ghost successors = { λ f. targets_at f.setting.body.blocks };

    fn points(&self) -> u32 {
        self.blocks()
    }

    fn entry(&self, alloc: Global) -> Result<Partition, AllocError> {
        self.enter(alloc)
    }

    fn after(
        &self,
        alloc: Global,
        point: u32,
        before: &Partition,
    ) -> Result<Partition, AllocError> {
        let ops = self.ops(alloc, point)?;
        let mut state = before.copy(alloc)?;
        run(ops.as_slice(), &mut state);
        Ok(state)
    }

    fn next(&self, alloc: Global, point: u32) -> Result<SmallVec<u32, 2, Global>, AllocError> {
        self.following(alloc, point)
    }

    ghost one_entry = { λ f a b. entries_within f.setting f.sites a b };

    ghost monotone = { leads_monotone };
}
