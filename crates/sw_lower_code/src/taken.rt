use sw_graph::RegKind;

/// A variable that a function takes.
#[derive(Debug, Drop)]
pub struct Taken {
    /// The key of its declaration; of `self` the word of its type.
    pub key: u32,
    /// The kind of its register.
    pub kind: RegKind,
    /// Whether the register holds a box, which closures share.
    pub boxed: bool,
    /// Whether the parameter is `sending` (SE-0430).
    pub sending: bool,
}
