use sw_types::Ty;

/// What a name, a member or a call means.
#[derive(Clone, Copy)]
pub enum Meaning {
    /// A variable, a parameter, a pattern or a listed capture: the key of the variable's
    /// declaration.
    Local(u32),
    /// A property of the type around, by number, with `self` left out.
    OwnPart(usize),
    /// A method of the type around, by its number among the functions, with `self` left out.
    OwnFunc(usize),
    /// A global variable, by number.
    GlobalOf(u32),
    /// A function, or a method of the value before the `.`, by its number among the functions.
    FuncOf(usize),
    /// The making of a struct, class or actor, by the number of its shape.
    MakeOf(u32),
    /// A case of an enum: the number of its shape, and that of the case.
    CaseOf(u32, usize),
    /// A property of the value before the `.`, by number.
    PartOf(usize),
    /// `print`.
    Print,
    /// The result of a task, `value`.
    TaskValue,
}

/// What is said of the node with a key.
#[derive(Drop)]
pub enum Row {
    /// The type of an expression, a place or a variable.
    Typed {
        at: u32,
        ty: Ty,
    },
    /// What a name, a member or a call means.
    Means {
        at: u32,
        meaning: Meaning,
    },
    /// The node is ill: the number of the code, 401 of E401. If it is in doubt, it is so `unless`
    /// the `return` without a value with this key is.
    Ill {
        at: u32,
        code: u16,
        unless: Option<u32>,
    },
}
