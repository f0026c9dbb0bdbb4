use crate::instr::BlockList;
use sw_list::ListOf;
use sw_types::{Iso, Ty};

/// How many registers a function of a graph has at most.
pub const MAX_REGISTERS: usize = 512;

/// How many points a function of a graph has at most.
pub const MAX_POINTS: usize = 16_384;

/// The kinds of a function's registers, by number.
pub type RegList = ListOf<RegKind>;

/// Truth values in order.
pub type BoolList = ListOf<bool>;

/// Functions by number.
pub type FunctionList = ListOf<Function>;

/// The globals of a program, by number.
pub type GlobalKinds = ListOf<GlobalKind>;

/// What a register holds: a value of a type, or a box around one.
#[derive(Debug, Drop)]
pub enum RegKind {
    Plain(Ty),
    BoxOf(Ty),
}

/// A global variable: its type, whether it is a `var`, and its global actor by number.
#[derive(Debug, Drop)]
pub struct GlobalKind {
    pub ty: Ty,
    pub mutable: bool,
    pub actor: Option<u32>,
}

/// A function, method, initialiser, closure body, task body, getter or first value of a global.
#[derive(Debug, Drop)]
pub struct Function {
    /// The byte offset of its key token.
    pub key: u32,
    pub iso: Iso,
    pub is_async: bool,
    /// How many registers it takes, from register 0 on: captures, then `self`, then parameters.
    pub takes: u32,
    /// For each register that it takes, whether that parameter is `sending` (SE-0430).
    pub sending: BoolList,
    /// Whether its result is `sending`.
    pub sends: bool,
    pub result: Ty,
    pub regs: RegList,
    pub blocks: BlockList,
}

/// What a function has too many of.
#[derive(Clone, Copy, Debug, PartialEq, Eq)]
pub enum Excess {
    Registers,
    Points,
}
