ghost use Rattle.std.specs.Prelude.{◌≡◌, ◌<◌, ◌≤◌, ◌↔◌, length, Some, Err, IfOk, OnOk, OnErr};
ghost use Rattle.sw_lower_builder.specs.declared.fault.BuildFault.TheVariants.{Full};
ghost use Rattle.sw_lower_builder.specs.Blocks.{with_instr, with_last};
ghost use Rattle.sw_lower_builder.specs.Unfinished.{begun, with_register, with_block, in_block, finished};
ghost use Rattle.sw_lower_builder.specs.Unfinished.{HasAllRegisters, HasAllPoints, instrs_in};
ghost use Rattle.sw_graph.specs.Points.{points_of};

use crate::fault::BuildFault;
use std::alloc::{AllocError, Global};
use std::marker::Model;
use sw_graph::{
    Block, BlockList, BoolList, Function, Instr, Last, MAX_POINTS, MAX_REGISTERS, RegKind, RegList,
};
use sw_list::ListOf;
use sw_types::{Iso, Ty};

/// How many blocks a function has at most, so that each has a number of 32 bits.
pub const MOST_BLOCKS: usize = 4_294_967_295;

/// A function of a graph under construction. Registers and blocks are numbered in the order in
/// which they are made. Contracts see it as an `Unfinished` with these fields.
#[derive(Debug, Drop)]
pub struct Builder {
    alloc: Global,
    key: u32,
    iso: Iso,
    is_async: bool,
    regs: RegList,
    blocks: BlockList,
    /// How many points the blocks have, so that the limit is seen without a count.
    points: usize,
}

impl Model for Builder {
    ghost use Rattle.sw_lower_builder.specs.Unfinished.{Unfinished, unfinished_code, IsCounted};

    ghost Value = { Unfinished };

    ghost coded = { unfinished_code };

    ghost view = { λ b. record {
      key = b.key;
      iso = b.iso;
      is_async = b.is_async;
      regs = b.regs;
      blocks = b.blocks;
    } };

    ghost invariant = { λ b. IsCounted b.regs b.blocks b.points };
}

impl Builder {
    /// A function without registers and blocks. `key` is the byte offset of its key token.
    pub fn new(alloc: Global, key: u32, iso: Iso, is_async: bool) -> Builder
        ensures { result ≡ begun key iso is_async }
    {
        Builder {
            alloc,
            key,
            iso,
            is_async,
            regs: ListOf::new(alloc),
            blocks: ListOf::new(alloc),
            points: 0,
        }
    }

    /// Makes a register, and gives its number. A refusal drops `kind`.
    pub fn reg(&mut self, kind: RegKind) -> Result<u32, BuildFault>
        ensures full { (result ≡ Err Full) ↔ HasAllRegisters self.old }
        ensures number { IfOk result (λ number. number ≡ length self.old.regs) }
        ensures made { OnOk result (self.new ≡ with_register kind self.old) }
        ensures refused { OnErr result (self.new ≡ self.old) }
    {
        let number = self.regs.len();
        if number >= MAX_REGISTERS {
            return Err(BuildFault::Full);
        }
        self.regs.push(kind)?;
        Ok(number as u32)
    }

    /// Makes a block that returns nothing, and gives its number. It isn't refused for the points
    /// that are there.
    pub fn block(&mut self) -> Result<u32, AllocError>
        requires { length self.old.blocks < MOST_BLOCKS }
        ensures number { IfOk result (λ number. number ≡ length self.old.blocks) }
        ensures made { OnOk result (self.new ≡ with_block self.old) }
        ensures refused { OnErr result (self.new ≡ self.old) }
    {
        let number = self.blocks.len();
        let block = Block {
            instrs: ListOf::new(self.alloc),
            last: Last::Return { value: None },
        };
        self.blocks.push(block)?;
        self.points += 1;
        Ok(number as u32)
    }

    /// Adds an instruction to a block that was made. A refusal drops it.
    pub fn emit(&mut self, block: u32, instr: Instr) -> Result<(), BuildFault>
        requires { block < length self.old.blocks }
        ensures full { (result ≡ Err Full) ↔ HasAllPoints self.old }
        ensures emitted { OnOk result (self.new ≡ in_block (with_instr instr) block self.old) }
        ensures refused { OnErr result (self.new ≡ self.old) }
    {
        if self.points >= MAX_POINTS {
            return Err(BuildFault::Full);
        }
        add_instr(self.blocks.at_mut(block as usize), instr)?;
        self.points += 1;
        Ok(())
    }

    /// Gives a block that was made another last instruction.
    pub fn patch(&mut self, block: u32, last: Last)
        requires { block < length self.old.blocks }
        ensures { self.new ≡ in_block (with_last last) block self.old }
    {
        end_with(self.blocks.at_mut(block as usize), last);
    }

    /// How many blocks were made.
    pub fn block_count(&self) -> usize
        ensures count { result ≡ length self.now.blocks }
        ensures bounded { result ≤ MOST_BLOCKS }
    {
        self.blocks.len()
    }

    /// How many points the blocks have.
    pub fn point_count(&self) -> usize
        ensures { result ≡ length (points_of self.now.blocks) }
    {
        self.points
    }

    /// The instructions of a block that was made.
    pub fn instrs(&self, block: u32) -> &[Instr]
        requires { block < length self.now.blocks }
        ensures { instrs_in block self.now ≡ Some result.now }
    {
        self.blocks.at(block as usize).instrs.as_slice()
    }

    /// The function, which takes its first `takes` registers and gives a value of the type `gives`.
    pub fn finish(self, takes: u32, sending: BoolList, sends: bool, gives: Ty) -> Function
        ensures { result ≡ finished self takes sending sends gives }
    {
        let Builder {
            alloc: _,
            key,
            iso,
            is_async,
            regs,
            blocks,
            points: _,
        } = self;
        Function {
            key,
            iso,
            is_async,
            takes,
            sending,
            sends,
            result: gives,
            regs,
            blocks,
        }
    }
}

/// Adds an instruction to a block. A refusal drops it.
fn add_instr(block: &mut Block, instr: Instr) -> Result<(), AllocError>
    ensures added { OnOk result (block.new ≡ with_instr instr block.old) }
    ensures refused { OnErr result (block.new ≡ block.old) }
{
    block.instrs.push(instr)
}

/// Gives a block another last instruction.
fn end_with(block: &mut Block, last: Last)
    ensures { block.new ≡ with_last last block.old }
{
    block.last = last;
}
