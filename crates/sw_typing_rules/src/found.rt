use sw_types::Ty;

/// What a name means after a `.`.
#[derive(Drop)]
pub enum Found {
    /// A property of a type: the number of its shape, and its own.
    Property(u32, usize),
    /// A method, by its key.
    Method(u32),
    /// The `value` of a task, with its type.
    Result(Ty),
    NoMember,
}
