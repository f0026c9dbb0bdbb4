use sw_graph::{BinOp, Literal, UnOp};
use sw_isolation_rules::Capture;
use sw_list::ListOf;
use sw_types::{CallKind, Iso};

/// The name of a body that is found by one.
#[derive(Clone, Copy)]
pub enum BodyName {
    /// A function, a method, an initialiser or the entry, by the key of its declaration.
    Function { key: u32 },
    /// The getter of a property, by the numbers of its type and of the property.
    PartGetter { shape: u32, part: usize },
    /// The getter of the global variable with a number.
    GlobalGetter { global: u32 },
    /// What gives the global variable with a number its first value.
    FirstValue { global: u32 },
}

/// An act. It takes the newest temporaries, and its result becomes the newest; a count says how many
/// it takes. `at` is where a trap stands; variables are named by the keys of their declarations.
#[derive(Clone, Copy)]
pub enum Act {
    Literal {
        value: Literal,
    },
    Read {
        variable: u32,
    },
    /// The newest isn't wanted.
    Drop,
    /// The two newest change places.
    Swap,
    /// The newest once more.
    Keep,
    /// The newest in the place of the one before it.
    Replace,
    Unary {
        at: u32,
        op: UnOp,
    },
    /// Of the two operands the right one is the newest.
    Binary {
        at: u32,
        op: BinOp,
    },
    Print {
        count: usize,
    },
    Field {
        part: usize,
    },
    /// The newest is a struct, below it lies a copy of it, and below that the copy's next part.
    SetField {
        part: usize,
    },
    /// A struct, or the case of an enum with the number `tag`.
    Make {
        tag: Option<usize>,
        count: usize,
    },
    Declare {
        variable: u32,
        boxed: bool,
    },
    Store {
        variable: u32,
    },
    /// A variable begins with a payload of the newest, which stays.
    Payload {
        variable: u32,
        index: usize,
    },
    LoadPart {
        part: usize,
    },
    /// The newest is the object, and below it lies the part's next value.
    StorePart {
        part: usize,
    },
    LoadGlobal {
        global: u32,
    },
    StoreGlobal {
        global: u32,
    },
    Call {
        at: u32,
        kind: CallKind,
        name: BodyName,
        count: usize,
    },
    /// The closure lies below its arguments.
    CallClosure {
        at: u32,
        count: usize,
    },
    Await,
    Yield,
}

/// A node: what is done next, and by their numbers the nodes with which it goes on. All of these
/// stand before it.
#[derive(Drop)]
pub enum Node {
    Then {
        act: Act,
        rest: usize,
    },
    /// An object or an actor of the type with a number, whose properties got values in the order of
    /// these names.
    New {
        number: u32,
        names: ListOf<u32>,
        rest: usize,
    },
    /// A closure with its key, what it captures, the keys of its parameters and its body.
    Close {
        at: u32,
        captures: ListOf<Capture>,
        params: ListOf<u32>,
        body: usize,
        rest: usize,
    },
    /// A task with its isolation, what it captures and its body.
    Spawn {
        at: u32,
        iso: Iso,
        captures: ListOf<Capture>,
        body: usize,
        rest: usize,
    },
    /// By the newest temporary.
    Test {
        yes: usize,
        no: usize,
    },
    /// By the case of the newest temporary, a value of the enum with the number `shape`.
    Switch {
        shape: Option<u32>,
        ways: usize,
    },
    /// The way of the case with this name, and those of the others.
    Case {
        name: u32,
        way: usize,
        others: usize,
    },
    Otherwise {
        way: usize,
    },
    /// A part of a statement or of an operator ends.
    Jump {
        rest: usize,
    },
    Loop {
        cond: usize,
        body: usize,
        rest: usize,
    },
    /// By the newest temporary the innermost loop's body, or what follows the loop.
    Decide,
    /// The condition of the innermost loop.
    Again,
    /// What follows the innermost loop.
    Leave,
    /// The body ends with the newest temporary as its value.
    Return,
    /// The body ends without a value.
    Finish,
    /// No program that keeps the rules has this.
    Unknown,
}
