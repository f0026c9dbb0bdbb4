//! Laws, without code, on the graph of a text: it is placed and supplied, that of an accepted text
//! is clean, its machine never races and leaves no conflicting accesses unordered; no machine of a
//! text is ever stuck, and a step brings in races of its own job alone. The crate knows nothing of
//! how the facts that it puts together are shown.
#![tactic(auto)]

mod laws;

pub use laws::{
    accepted_texts_have_clean_graphs, accepted_texts_never_race,
    accepted_texts_order_their_accesses, texts_have_placed_graphs, texts_never_get_stuck,
    texts_race_by_their_last_step,
};
