//! The isolation of a program: a walk over its bodies and first values by the rules of
//! `sw_isolation_rules`. It gives the bodies, the kinds of calls, the captures and the boxes, or
//! the first breach of isolation (E501 to E505), and then all values that may not be shared (E601
//! to E606). It stands on the types of nodes. It knows nothing of graphs and of region states.
#![tactic(auto)]

mod collecting;
mod isolating;
mod programs;
mod races;

pub use isolating::{IsoFault, isolate};
pub use races::race_forms;
pub use sw_isolation_table::Isolated;
