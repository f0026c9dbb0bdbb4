//! Programs as trees: expressions, statements, types and declarations as they are written, the
//! names in them, and the key of each node. It knows nothing of tokens, of how trees are spelled
//! and of what names mean.
#![tactic(auto)]

mod decl;
mod expr;
mod laws;
mod name;
mod names;
mod node;
mod operator;
mod program;
mod stmt;
mod type_tree;

pub use decl::{
    CaseList, CaseTree, Decl, DeclList, FuncList, FuncTree, InitList, InitTree, ParamList,
    ParamTree, PropList, PropTree, Written,
};
pub use expr::{Arg, ArgList, Closure, ClosureParam, ClosureParamList, Expr, Link, LinkList};
pub use laws::{ids_name_texts, keys_are_in_trees};
pub use name::{Name, NameList};
pub use names::Names;
pub use operator::{AssignOp, InfixOp, PrefixOp};
pub use program::Program;
pub use stmt::{
    Block, CaseArm, CaseArmList, IfArm, IfArmList, Pattern, PatternList, Stmt, StmtList,
};
pub use type_tree::{TypeTree, TypeTreeList};
