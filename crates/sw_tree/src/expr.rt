use crate::name::{Name, NameList};
use crate::operator::{InfixOp, PrefixOp};
use crate::stmt::Block;
use crate::type_tree::TypeTree;
use sw_list::{Boxed, ListOf};

/// Arguments in order.
pub type ArgList = ListOf<Arg>;

/// The operators of a chain with their right operands, in order.
pub type LinkList = ListOf<Link>;

/// A closure's parameters, in order.
pub type ClosureParamList = ListOf<ClosureParam>;

/// An expression. Brackets round an expression leave no node. Positions are byte offsets into the
/// source.
#[cycle(tree)]
#[derive(Drop)]
pub enum Expr {
    /// An integer literal.
    Int {
        at: u32,
        value: i64,
    },
    /// `true` or `false`.
    Bool {
        at: u32,
        value: bool,
    },
    /// A word that means a variable, a property, a function or a type.
    Use {
        name: Name,
    },
    /// `self`.
    Me {
        at: u32,
    },
    /// `base.name`.
    Member {
        base: Boxed<Expr>,
        name: Name,
    },
    /// `name(args)`.
    Call {
        name: Name,
        args: ArgList,
    },
    /// `base.name(args)`.
    Method {
        base: Boxed<Expr>,
        name: Name,
        args: ArgList,
    },
    /// `first op operand op operand ..`, with operators of one rank: the left operand of each
    /// operator is all that stands before it.
    Chain {
        first: Boxed<Expr>,
        rest: LinkList,
    },
    /// `op inner`.
    Prefix {
        op: PrefixOp,
        /// Where the operator stands.
        at: u32,
        inner: Boxed<Expr>,
    },
    /// `await inner`.
    Await {
        /// Where the word `await` stands.
        at: u32,
        inner: Boxed<Expr>,
    },
    /// A closure.
    Fun(Boxed<Closure>),
    /// `Task { .. }` or `Task.detached { .. }`.
    Spawn {
        /// Where the word `Task` stands.
        at: u32,
        detached: bool,
        body: Boxed<Closure>,
    },
    /// `Task.yield()`.
    Yield {
        /// Where the word `Task` stands.
        at: u32,
    },
}

/// An operator of a chain and its right operand.
#[cycle(tree)]
#[derive(Drop)]
pub struct Link {
    pub op: InfixOp,
    /// Where the operator stands.
    pub at: u32,
    pub operand: Expr,
}

/// An argument of a call.
#[cycle(tree)]
#[derive(Drop)]
pub struct Arg {
    pub label: Option<Name>,
    pub value: Expr,
}

/// A closure, or the body of a task.
#[cycle(tree)]
#[derive(Drop)]
pub struct Closure {
    /// Where its `{` stands.
    pub at: u32,
    /// `@Sendable`, or a task's global actor.
    pub mark: Option<Name>,
    /// The words of its capture list.
    pub captures: NameList,
    pub params: ClosureParamList,
    pub result: Option<TypeTree>,
    pub body: Block,
}

/// A parameter of a closure.
#[derive(Drop)]
pub struct ClosureParam {
    pub name: Name,
    pub ty: TypeTree,
}
