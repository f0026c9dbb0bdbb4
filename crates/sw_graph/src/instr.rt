use sw_list::ListOf;
use sw_types::CallKind;

/// Operands in order.
pub type OperandList = ListOf<Operand>;

/// Numbers in order, such as those of blocks or functions.
pub type IdList = ListOf<u32>;

/// Instructions in order.
pub type InstrList = ListOf<Instr>;

/// Blocks by number; block 0 is where a function begins.
pub type BlockList = ListOf<Block>;

/// A register that an instruction reads, with the byte offset of the expression that gave it.
#[derive(Clone, Copy, Debug, PartialEq, Eq)]
pub struct Operand {
    pub reg: u32,
    pub at: u32,
}

/// A literal's value.
#[derive(Clone, Copy, Debug, PartialEq, Eq)]
pub enum Literal {
    Int(i64),
    Bool(bool),
}

/// A prefix operator.
#[derive(Clone, Copy, Debug, PartialEq, Eq)]
pub enum UnOp {
    Not,
    Neg,
}

/// An infix operator that computes from two values.
#[derive(Clone, Copy, Debug, PartialEq, Eq)]
pub enum BinOp {
    Add,
    Sub,
    Mul,
    Div,
    Rem,
    Eq,
    Ne,
    Lt,
    Le,
    Gt,
    Ge,
}

/// One instruction. `at` is its byte offset in the source and `dst` the register that it sets;
/// shapes, functions and globals are given by number, parts and payloads by index.
#[derive(Debug, Drop)]
pub enum Instr {
    Const {
        at: u32,
        dst: u32,
        value: Literal,
    },
    Un {
        at: u32,
        dst: u32,
        op: UnOp,
        src: Operand,
    },
    Bin {
        at: u32,
        dst: u32,
        op: BinOp,
        left: Operand,
        right: Operand,
    },
    Print {
        at: u32,
        dst: u32,
        args: OperandList,
    },
    Copy {
        at: u32,
        dst: u32,
        src: Operand,
    },
    Field {
        at: u32,
        dst: u32,
        src: Operand,
        part: usize,
    },
    Payload {
        at: u32,
        dst: u32,
        src: Operand,
        index: usize,
    },
    SetField {
        at: u32,
        target: Operand,
        part: usize,
        src: Operand,
    },
    Make {
        at: u32,
        dst: u32,
        shape: u32,
        tag: Option<usize>,
        args: OperandList,
    },
    NewObject {
        at: u32,
        dst: u32,
        shape: u32,
        args: OperandList,
    },
    NewBox {
        at: u32,
        dst: u32,
        src: Operand,
    },
    NewActor {
        at: u32,
        dst: u32,
        shape: u32,
        args: OperandList,
    },
    LoadBox {
        at: u32,
        dst: u32,
        cell: Operand,
    },
    StoreBox {
        at: u32,
        cell: Operand,
        src: Operand,
    },
    LoadProp {
        at: u32,
        dst: u32,
        cell: Operand,
        part: usize,
    },
    StoreProp {
        at: u32,
        cell: Operand,
        part: usize,
        src: Operand,
    },
    LoadGlobal {
        at: u32,
        dst: u32,
        global: u32,
    },
    StoreGlobal {
        at: u32,
        global: u32,
        src: Operand,
    },
    NewClosure {
        at: u32,
        dst: u32,
        function: u32,
        captures: OperandList,
    },
    Call {
        at: u32,
        dst: u32,
        kind: CallKind,
        function: u32,
        args: OperandList,
    },
    CallClosure {
        at: u32,
        dst: u32,
        closure: Operand,
        args: OperandList,
    },
    NewTask {
        at: u32,
        dst: u32,
        function: u32,
        captures: OperandList,
    },
    Await {
        at: u32,
        dst: u32,
        task: Operand,
    },
    Yield {
        at: u32,
        dst: u32,
    },
}

/// The last instruction of a block: where control goes.
#[derive(Debug, Drop)]
pub enum Last {
    Jump {
        to: u32,
    },
    Branch {
        condition: Operand,
        yes: u32,
        no: u32,
    },
    /// The block of each case of an enum, by the case's number.
    Switch {
        subject: Operand,
        to: IdList,
    },
    Return {
        value: Option<Operand>,
    },
}

/// A basic block.
#[derive(Debug, Drop)]
pub struct Block {
    pub instrs: InstrList,
    pub last: Last,
}
