/// A function of a program, by what it stands for.
#[derive(Clone, Copy, Debug, PartialEq, Eq)]
pub struct FunctionName {
    /// The key of its declaration, closure or task; of a getter that of its variable.
    pub key: u32,
    /// Whether it is a getter. What gives a global variable its first value has the same key.
    pub getter: bool,
}
