/// Where `break` and `continue` lead, by the numbers of blocks.
#[derive(Clone, Copy, Debug, PartialEq, Eq)]
pub struct Targets {
    pub breaks: Option<u32>,
    pub continues: Option<u32>,
}
