use sw_decls::{GlobalVar, Signature};
use sw_tree::{Block, Closure, Expr, ParamTree, PropTree};
use sw_types::{Iso, Part, Shape};

/// A body of a program, by the part of the tree that it is made of.
#[derive(Clone, Copy)]
pub struct BodyTree<'a> {
    /// The key of its declaration, closure or task; of a getter that of its variable.
    pub key: u32,
    /// Whether it is a getter. What gives a global variable its first value has the same key.
    pub getter: bool,
    pub iso: Iso,
    pub is_async: bool,
    pub form: BodyForm<'a>,
}

/// What a body is made of.
#[derive(Clone, Copy)]
pub enum BodyForm<'a> {
    /// A function, a method or the entry.
    Declared {
        params: &'a [ParamTree],
        block: &'a Block,
        func: &'a Signature,
    },
    /// An initialiser of the type with a number. One that isn't written has no block.
    Init {
        number: u32,
        shape: &'a Shape,
        props: &'a [PropTree],
        params: &'a [ParamTree],
        block: Option<&'a Block>,
        func: &'a Signature,
    },
    /// A closure in a member of the type with a number.
    Closure {
        owner: Option<u32>,
        closure: &'a Closure,
    },
    /// A task whose word stands at `at`.
    Task {
        owner: Option<u32>,
        at: u32,
        closure: &'a Closure,
    },
    /// The getter of a property, by the numbers of its type and of the property.
    PartGetter {
        number: u32,
        index: usize,
        shape: &'a Shape,
        part: &'a Part,
    },
    /// The getter of the global variable with a number.
    GlobalGetter {
        index: u32,
        global: &'a GlobalVar,
    },
    /// What gives the global variable with a number its first value.
    FirstValue {
        index: u32,
        value: &'a Expr,
    },
}
