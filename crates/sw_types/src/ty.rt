use sw_list::{Boxed, ListOf};

/// Types in order, as a function's parameters or a case's payload has them.
pub type TyList = ListOf<Ty>;

/// A type of the language.
#[derive(Debug, Drop)]
pub enum Ty {
    /// An integer of 64 bits.
    Int,
    Bool,
    /// `Void`, also written `()`.
    Unit,
    /// A struct, enum, class or actor, by its shape's number.
    Named(u32),
    /// A function type; `sendable` where it is marked `@Sendable`.
    Func {
        sendable: bool,
        params: TyList,
        result: Boxed<Ty>,
    },
    /// `Task<T, Never>`, with the type of its result.
    Task(Boxed<Ty>),
}
