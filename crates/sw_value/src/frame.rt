ghost use Rattle.std.specs.Prelude.{◌≡◌, ◌+◌, ◌<◌, ◌^◌, OnSome};
ghost use Rattle.std.specs.Option.{option_copied};
ghost use Rattle.sw_value.specs.Frame.{point_at, start_at, set_register, finish_instr};
ghost use Rattle.sw_value.specs.Frame.{go_on, set_field, take_result};
ghost use Rattle.sw_graph.specs.Lent.{lent_point};
ghost use Rattle.sw_value.specs.Value.{value_at, reference_at};

use crate::executor::Executor;
use crate::value::{Value, ValueSlots, value_in};
use sw_graph::{Graph, Operand, Point};
use sw_list::ListOf;

/// The frames of a job from the bottom to the top.
pub type FrameList = ListOf<Frame>;

/// A call that has not returned.
#[derive(Debug, Drop)]
pub struct Frame {
    /// The number of the function that runs.
    pub function: u32,
    /// The point of that function at which the frame goes on.
    pub point: u32,
    pub regs: ValueSlots,
    pub executor: Executor,
    /// Whether the job gives its executor up when this frame returns.
    pub crossing: bool,
    /// The register of the frame below that gets the result, or [`NO_REGISTER`] where no frame waits for one.
    pub result: u32,
}

/// How many frames a job may have.
pub const MAX_FRAMES: usize = 4_096;

/// The result number of a frame that no other frame waits for. It stands for no register.
pub const NO_REGISTER: u32 = 512;

impl Frame {
    /// What stands at the frame's point, if its function is there and has that point.
    #[tactic(auto, unfolding(crate::specs::Frame::point_at))]
    pub fn point_at<'a>(&self, graph: &'a Graph) -> Option<Point<'a>>
        ensures point { lent_point result ≡ point_at graph.now self.now }
        ensures numbered { OnSome result (self.now.point + 1 < 2 ^ 32) }
    {
        graph.point(self.function, self.point)
    }

    /// The point at which a block of the frame's function begins, if there is such a block.
    #[tactic(auto, unfolding(crate::specs::Frame::start_at))]
    pub fn start_at(&self, graph: &Graph, block: u32) -> Option<u32>
        ensures { result ≡ start_at graph.now self.now block }
    {
        graph.block_start(self.function, block)
    }

    /// The value of a register, if it is there and has one.
    pub fn value_at(&self, reg: u32) -> Option<&Value>
        ensures { option_copied result ≡ value_at self.now.regs reg }
    {
        value_in(&self.regs, reg)
    }

    /// The cell that an operand refers to, by number.
    pub fn reference_at(&self, operand: &Operand) -> Option<u32>
        ensures { result ≡ reference_at self.now.regs operand.now }
    {
        self.value_at(operand.reg)?.reference()
    }

    /// Gives a register a value.
    #[tactic(auto, using(std::proofs::lemmas::List::set_past), unfolding(crate::specs::Frame::set_register))]
    pub fn set_register(&mut self, reg: u32, value: Value)
        ensures { self.new ≡ set_register reg value self.old }
    {
        if (reg as usize) < self.regs.len() {
            self.regs.set(reg as usize, Some(value));
        }
    }

    /// Gives a register the value of an instruction, and goes on at `next`.
    #[tactic(auto, unfolding(crate::specs::Frame::set_register, crate::specs::Frame::finish_instr))]
    pub fn finish_instr(&mut self, reg: u32, value: Value, next: u32)
        ensures { self.new ≡ finish_instr reg value next self.old }
    {
        self.set_register(reg, value);
        self.point = next;
    }

    /// Goes on at `next`.
    #[tactic(auto, unfolding(crate::specs::Frame::go_on))]
    pub fn go_on(&mut self, next: u32)
        ensures { self.new ≡ go_on next self.old }
    {
        self.point = next;
    }

    /// Gives the struct in a register another value as a part, and goes on at `next`.
    #[tactic(auto, using(crate::proofs::ListLemmas::changes), unfolding(crate::specs::Frame::set_field))]
    pub fn set_field(&mut self, reg: u32, part: usize, value: Value, next: u32)
        ensures { self.new ≡ set_field reg part value next self.old }
    {
        self.point = next;
        if (reg as usize) < self.regs.len() {
            if let Some(group) = self.regs.at_mut(reg as usize) {
                group.set_field(part, value);
            }
        }
    }

    /// Takes the result of the frame above into the register that it is for.
    #[tactic(auto, unfolding(crate::specs::Frame::take_result))]
    pub fn take_result(&mut self, reg: u32, value: Value)
        ensures { self.new ≡ take_result reg value self.old }
    {
        if reg != NO_REGISTER {
            self.set_register(reg, value);
        }
    }
}
