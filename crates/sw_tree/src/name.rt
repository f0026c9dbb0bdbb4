use sw_list::ListOf;

/// Names in order.
pub type NameList = ListOf<Name>;

/// A word of the program: where it stands, and its index in the program's `Names`.
///
/// An attribute is kept as a name too: its position is that of its `@`, and its text what is
/// written after the `@`.
#[derive(Clone, Copy, PartialEq, Eq)]
pub struct Name {
    /// Where its token begins, in bytes from the start of the source.
    pub at: u32,
    /// Its index in the program's `Names`.
    pub id: u32,
}
