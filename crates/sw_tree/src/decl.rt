use crate::expr::Expr;
use crate::name::Name;
use crate::stmt::Block;
use crate::type_tree::{TypeTree, TypeTreeList};
use sw_list::ListOf;

/// Declarations in order.
pub type DeclList = ListOf<Decl>;

/// Functions in order.
pub type FuncList = ListOf<FuncTree>;

/// Properties in order.
pub type PropList = ListOf<PropTree>;

/// Initialisers in order.
pub type InitList = ListOf<InitTree>;

/// The cases of an enum, in order.
pub type CaseList = ListOf<CaseTree>;

/// Parameters in order.
pub type ParamList = ListOf<ParamTree>;

/// A declaration at top level. `conforms` is whether `: Sendable` is written, `word` the word that
/// it declares.
#[derive(Drop)]
pub enum Decl {
    /// `@main struct word { static func main() { .. } }`.
    Entry {
        /// The struct's word. It takes a name and names no type.
        word: Name,
        /// The isolation that is written at `main`.
        written: Written,
        /// Where the word `main` stands.
        at: u32,
        is_async: bool,
        body: Block,
    },
    Struct {
        word: Name,
        conforms: bool,
        fields: PropList,
        funcs: FuncList,
    },
    Enum {
        word: Name,
        conforms: bool,
        cases: CaseList,
        funcs: FuncList,
    },
    Class {
        written: Written,
        word: Name,
        conforms: bool,
        props: PropList,
        inits: InitList,
        funcs: FuncList,
    },
    Actor {
        word: Name,
        props: PropList,
        inits: InitList,
        funcs: FuncList,
    },
    /// `@globalActor actor word { static let shared = made() }`.
    GlobalActor {
        word: Name,
        made: Name,
    },
    Func(FuncTree),
    Global(PropTree),
}

/// The isolation that is written before a declaration (SE-0313, SE-0316, SE-0461).
#[derive(Clone, Copy, PartialEq, Eq)]
pub enum Written {
    Absent,
    /// An `@` with a word, which is to name a global actor.
    At(Name),
    /// `nonisolated`.
    Nonisolated,
    /// `@concurrent`, also before `nonisolated`: it runs on no actor.
    Concurrent,
    /// `nonisolated(nonsending)`: it runs where its caller runs.
    Nonsending,
}

/// A function or a method.
#[derive(Drop)]
pub struct FuncTree {
    pub written: Written,
    pub word: Name,
    pub params: ParamList,
    pub is_async: bool,
    /// Whether its result is `sending` (SE-0430).
    pub sends: bool,
    pub result: Option<TypeTree>,
    pub body: Block,
}

/// A parameter of a function or an initialiser.
#[derive(Drop)]
pub struct ParamTree {
    /// The label that an argument has; a lone word is label and name.
    pub label: Option<Name>,
    pub name: Name,
    /// Whether it is `sending` (SE-0430).
    pub sending: bool,
    pub ty: TypeTree,
}

/// A stored property, a struct's field or a global variable.
#[derive(Drop)]
pub struct PropTree {
    pub written: Written,
    /// Whether it is a `var`.
    pub mutable: bool,
    pub word: Name,
    pub ty: Option<TypeTree>,
    pub value: Option<Expr>,
}

/// An initialiser.
#[derive(Drop)]
pub struct InitTree {
    /// Where the word `init` stands.
    pub at: u32,
    pub params: ParamList,
    pub body: Block,
}

/// A case of an enum with the types of its payload.
#[derive(Drop)]
pub struct CaseTree {
    pub word: Name,
    pub types: TypeTreeList,
}
