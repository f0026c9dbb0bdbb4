use crate::expr::Expr;
use crate::name::Name;
use crate::operator::AssignOp;
use crate::type_tree::TypeTree;
use sw_list::ListOf;

/// Statements in order.
pub type StmtList = ListOf<Stmt>;

/// The arms of an `if`, in order.
pub type IfArmList = ListOf<IfArm>;

/// The arms of a `switch`, in order.
pub type CaseArmList = ListOf<CaseArm>;

/// The patterns of a `case`, in order.
pub type PatternList = ListOf<Pattern>;

/// A statement. Positions are byte offsets into the source.
#[cycle(tree)]
#[derive(Drop)]
pub enum Stmt {
    /// `let name: ty = value` or `var name: ty = value`.
    Bind {
        /// Whether it is a `var`.
        mutable: bool,
        name: Name,
        ty: Option<TypeTree>,
        value: Expr,
    },
    /// `place op value`, where `place` is made of `Use`, `Me` and `Member` alone.
    Assign {
        /// Where the operator stands.
        at: u32,
        op: AssignOp,
        place: Expr,
        value: Expr,
    },
    /// `_ = value`.
    Discard {
        /// Where the `_` stands.
        at: u32,
        value: Expr,
    },
    /// `if cond { .. } else if cond { .. } else { .. }`; it has an arm.
    If {
        arms: IfArmList,
        otherwise: Option<Block>,
    },
    /// `while cond { .. }`.
    While {
        /// Where the word `while` stands.
        at: u32,
        cond: Expr,
        body: Block,
    },
    /// `switch subject { case .name(patterns): .. default: .. }`.
    Switch {
        /// Where the word `switch` stands.
        at: u32,
        subject: Expr,
        arms: CaseArmList,
        otherwise: Option<Block>,
    },
    /// `return value`.
    Return {
        /// Where the word `return` stands.
        at: u32,
        value: Option<Expr>,
    },
    /// `break`.
    Break {
        at: u32,
    },
    /// `continue`.
    Continue {
        at: u32,
    },
    /// An expression.
    Plain(Expr),
}

/// Statements between braces, or of one arm.
#[cycle(tree)]
#[derive(Drop)]
pub struct Block {
    pub stmts: StmtList,
}

/// A condition of an `if` and its block.
#[cycle(tree)]
#[derive(Drop)]
pub struct IfArm {
    /// Where its word `if` stands.
    pub at: u32,
    pub cond: Expr,
    pub body: Block,
}

/// `case .name(patterns):` and its statements.
#[cycle(tree)]
#[derive(Drop)]
pub struct CaseArm {
    /// The word of the enum's case.
    pub name: Name,
    pub patterns: PatternList,
    pub body: Block,
}

/// A pattern for one part of a case's payload.
#[derive(Clone, Copy, PartialEq, Eq)]
pub enum Pattern {
    /// `_`.
    Skip { at: u32 },
    /// `let name`.
    Let { name: Name },
}
