//! The steps of making a function, each as its run.
ghost use Rattle.std.specs.Prelude.{◌≡◌, ◌||◌, Ok, IfOk, length, nat_lt, take};
ghost use Rattle.sw_lower_builder.specs.Unfinished.{finished};
ghost use Rattle.sw_lower_draft.specs.Drafts.{GivesAsRun, making_of, number_by};
ghost use Rattle.sw_lower_plans.specs.Run.{at_start, points, run_bind, run_block, run_close};
ghost use Rattle.sw_lower_plans.specs.Run.{run_emit, run_front, run_number, run_reg, run_resume};
ghost use Rattle.sw_lower_plans.specs.Run.{run_var};

use crate::draft::Draft;
use crate::lookups::{all_payloads, is_payload, var_in};
use crate::numbers::NumberTable;
use std::alloc::{AllocError, Global};
use sw_graph::{BoolList, Function, Instr, Last, MAX_POINTS, RegKind};
use sw_list::ListOf;
use sw_lower_builder::{BuildFault, Builder, MOST_BLOCKS};
use sw_lower_plans::{Bound, CodeFault, FunctionName};
use sw_types::{Iso, Ty};

#[tactic(auto, unfolding(crate::specs::Drafts::making_of))]
impl<'a> Draft<'a> {
    /// A function without registers, whose first block goes on. `key` is the byte offset of its key
    /// token.
    pub fn new(
        alloc: Global,
        numbers: &'a NumberTable,
        key: u32,
        iso: Iso,
        is_async: bool,
    ) -> Result<Draft<'a>, AllocError>
        ensures { IfOk result (λ draft. making_of draft
            ≡ at_start (number_by numbers.now) key iso is_async) }
    {
        let mut builder = Builder::new(alloc, key, iso, is_async);
        builder.block()?;
        Ok(Draft {
            numbers,
            builder,
            here: 0,
            vars: ListOf::new(alloc),
            over: false,
        })
    }

    /// Makes a register, and gives its number. A refusal drops `kind`.
    pub fn reg(&mut self, kind: RegKind) -> Result<u32, CodeFault>
        ensures { GivesAsRun (run_reg kind (making_of self.old)) result self.new }
    {
        match self.builder.reg(kind) {
            Ok(number) => Ok(number),
            Err(BuildFault::Full) => Err(CodeFault::Registers),
            Err(BuildFault::Memory) => Err(CodeFault::Memory),
        }
    }

    /// Makes a block, and gives its number.
    pub fn block(&mut self) -> Result<u32, CodeFault>
        ensures { GivesAsRun (run_block (making_of self.old)) result self.new }
    {
        if self.builder.block_count() >= MOST_BLOCKS {
            return Err(CodeFault::Blocks);
        }
        Ok(self.builder.block()?)
    }

    /// Adds an instruction to the block that goes on. Where the function has all its points, it
    /// drops the instruction and notes that.
    pub fn emit(&mut self, instr: Instr) -> Result<(), CodeFault>
        ensures { GivesAsRun (run_emit instr (making_of self.old)) result self.new }
    {
        match self.builder.emit(self.here, instr) {
            Ok(()) => Ok(()),
            Err(BuildFault::Full) => {
                self.over = true;
                Ok(())
            }
            Err(BuildFault::Memory) => Err(CodeFault::Memory),
        }
    }

    /// Adds an instruction that takes a payload, at the front of the block that goes on.
    pub fn front(&mut self, instr: Instr) -> Result<(), CodeFault>
        ensures { GivesAsRun (run_front instr (making_of self.old)) result self.new }
    {
        if is_payload(&instr) && all_payloads(self.builder.instrs(self.here)) {
            self.emit(instr)
        } else {
            Err(CodeFault::Missing)
        }
    }

    /// Gives the block that goes on its last instruction.
    pub fn close(&mut self, last: Last)
        ensures { run_close last (making_of self.old) ≡ Ok (tt, making_of self.new) }
    {
        self.builder.patch(self.here, last);
    }

    /// Goes on with another block.
    pub fn resume(&mut self, number: u32) -> Result<(), CodeFault>
        ensures { GivesAsRun (run_resume number (making_of self.old)) result self.new }
    {
        if number as usize >= self.builder.block_count() {
            return Err(CodeFault::Missing);
        }
        self.here = number;
        Ok(())
    }

    /// Adds a variable to those that are seen.
    pub fn bind(&mut self, bound: Bound) -> Result<(), CodeFault>
        ensures { GivesAsRun (run_bind bound (making_of self.old)) result self.new }
    {
        Ok(self.vars.push(bound)?)
    }

    /// How many variables are seen.
    pub fn var_count(&self) -> usize
        ensures { result ≡ length (making_of self.now).vars }
    {
        self.vars.len()
    }

    /// From here on the variables are the first ones, as many as `count`.
    pub fn forget(&mut self, count: usize)
        ensures { making_of self.new
            ≡ record (making_of self.old) { vars = take count (making_of self.old).vars } }
    {
        self.vars.truncate(count);
    }

    /// The variable with this key.
    pub fn var(&self, key: u32) -> Result<Bound, CodeFault>
        ensures { GivesAsRun (run_var key (making_of self.now)) result self.now }
    {
        var_in(self.vars.as_slice(), key).ok_or(CodeFault::Missing)
    }

    /// The number of the function with this name.
    pub fn number(&self, name: FunctionName) -> Result<u32, CodeFault>
        ensures { GivesAsRun (run_number name (making_of self.now)) result self.now }
    {
        self.numbers.get(name).ok_or(CodeFault::Missing)
    }

    /// Whether the function has more points than a function of a graph.
    pub fn is_too_long(&self) -> bool
        ensures { result ≡ ((making_of self.now).over
            || nat_lt MAX_POINTS (points (making_of self.now))) }
    {
        self.over || self.builder.point_count() > MAX_POINTS
    }

    /// The function, which takes its first `takes` registers and gives a value of the type `gives`.
    pub fn finish(self, takes: u32, sending: BoolList, sends: bool, gives: Ty) -> Function
        ensures { result ≡ finished (making_of self.entry).made takes sending sends gives }
    {
        self.builder.finish(takes, sending, sends, gives)
    }
}
