use crate::name::Name;
use sw_list::{Boxed, ListOf};

/// Written types in order.
pub type TypeTreeList = ListOf<TypeTree>;

/// A type as it is written. Positions are byte offsets into the source.
#[cycle(type_tree)]
#[derive(Drop)]
pub enum TypeTree {
    /// A type's name.
    Named {
        name: Name,
    },
    /// `()`.
    Unit {
        /// Where its `(` stands.
        at: u32,
    },
    /// A function type.
    Arrow {
        /// Where its first `(` stands.
        at: u32,
        /// `@Sendable` before it.
        mark: Option<Name>,
        params: TypeTreeList,
        result: Boxed<TypeTree>,
    },
    /// `Task<inner, Never>`.
    TaskOf {
        /// Where its `Task` stands.
        at: u32,
        inner: Boxed<TypeTree>,
    },
}
