use sw_decl_words::Meaning as WordMeaning;

/// What a word means that no visible variable has as its name.
#[derive(Clone, Copy)]
pub enum Outer {
    /// A property of the type around: the number of its shape, and its own.
    OwnProperty(u32, usize),
    /// A method of the type around, by its key.
    OwnMethod(u32),
    /// A case of the enum around.
    OwnCase,
    /// What the word means at top level.
    Top(WordMeaning),
    /// `print`.
    Printing,
    Nothing,
}
