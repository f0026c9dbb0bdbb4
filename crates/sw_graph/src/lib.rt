//! The control-flow graph of a program: functions of basic blocks of instructions over registers,
//! and their points. It knows nothing of what an instruction does.
#![tactic(auto)]

mod function;
mod functions;
mod graph;
mod instr;
mod laws;
mod point;
mod table;

pub use function::{
    BoolList, Excess, Function, FunctionList, GlobalKind, GlobalKinds, MAX_POINTS, MAX_REGISTERS,
    RegKind, RegList,
};
pub use functions::Functions;
pub use graph::Graph;
pub use instr::{
    BinOp, Block, BlockList, IdList, Instr, InstrList, Last, Literal, Operand, OperandList, UnOp,
};
pub use laws::{
    function_limits, only_classes_have_global_actors, registers_are_set, straight_graphs_fit,
};
pub use point::Point;
