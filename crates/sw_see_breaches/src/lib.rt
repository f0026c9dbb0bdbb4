//! Breaches for people: each with the name of the file, its line of the source with a mark under
//! the position, and what usually mends it. The crate knows the codes of breaches. It knows nothing
//! of how a breach is found.
#![tactic(auto)]

mod laws;
mod painting;
mod remedies;
mod rendering;

pub use laws::codes_have_remedies;
pub use painting::Paint;
pub use remedies::{meaning_of, remedy_of};
pub use rendering::show_breaches;
