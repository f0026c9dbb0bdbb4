use sw_types::Ty;

/// What a rule says of a node. A node is held where a part of it or a word that it uses has no
/// type, so that nothing is said of it.
#[derive(Drop)]
pub enum Verdict {
    /// It has this type.
    Has(Ty),
    /// It is ill: the number of the code, 401 of E401.
    Fails(u16),
    Held,
}

/// What is known of an argument: the id of its label, and its type, where it has them.
#[derive(Drop)]
pub struct Given {
    pub label: Option<u32>,
    pub ty: Option<Ty>,
}
