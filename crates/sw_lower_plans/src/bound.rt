/// A variable that a body sees.
#[derive(Clone, Copy, Debug, PartialEq, Eq)]
pub struct Bound {
    /// The key of its declaration; of `self` the word of its type.
    pub key: u32,
    /// The register that holds its value, or its box.
    pub reg: u32,
    /// Whether the register holds a box, which closures share.
    pub boxed: bool,
}
