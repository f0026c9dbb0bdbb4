//! What a name, a member or a call uses by its meaning, how closures and tasks are isolated, and
//! what is noted of each use: each exactly as `sw_isolation_rules` defines it. The crate goes over
//! no expressions and no statements, and knows nothing of what a closure makes of its captures.
#![tactic(auto)]

mod codes;
mod isolations;
mod known;
mod lookups;
mod steps;
mod words;

pub use isolations::{closure_iso, is_isolated, shape_iso, task_iso};
pub use known::{marked_at, may_cross};
pub use lookups::{base_of, no_base, used};
pub use steps::{await_notes, note_body, store_notes, task_races};
pub use words::{member_notes, word_notes};
