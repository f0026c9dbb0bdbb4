//! What a walk over a program has noted so far.
use crate::rows::Rows;
use sw_typing_rules::Returned;
use sw_typing_words::Scope;

/// The variables that are visible, what is noted of nodes, and what is known of the result of the
/// body.
#[derive(Drop)]
pub struct Table {
    pub vars: Scope,
    pub rows: Rows,
    pub returned: Returned,
}
