use sw_tree::Name;

/// A word that is declared, and the ids of the texts that are made of it.
#[derive(Clone, Copy, PartialEq, Eq)]
pub struct Declared {
    pub name: Name,
    /// The id of its text with `?`: what is in an optional, until the word has it.
    pub part: u32,
    /// The id of its text with `??`: the value that the word gets.
    pub whole: u32,
}

/// Where the tokens of `let x: T = value ?? literal` stand, or of the same with `var`.
#[derive(Clone, Copy, PartialEq, Eq)]
pub struct OrLiteral {
    /// Whether it is a `var`.
    pub mutable: bool,
    /// The word `x`.
    pub word: Declared,
    /// The id of `some`.
    pub some: u32,
    /// Where its `let` or `var` stands.
    pub let_at: u32,
    /// Where its `:` stands.
    pub colon_at: u32,
    /// Where its `=` stands.
    pub eq_at: u32,
    /// Where its `??` stands.
    pub op_at: u32,
}

/// The beginning of `if let name = subject { .. }`.
#[derive(Clone, Copy, PartialEq, Eq)]
pub struct LetArm {
    /// The id of `some`.
    pub some: u32,
    /// Where its `if` stands.
    pub at: u32,
    /// Where its `let` stands.
    pub let_at: u32,
    pub name: Name,
}
