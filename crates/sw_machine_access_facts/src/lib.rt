//! Laws, without code: a step touches no location except the one that its job accesses. It writes
//! no other, and what it does depends on no other. The crate knows nothing of how a step is taken,
//! of races, of the kinds of values or of regions.
#![tactic(auto)]

mod laws;

pub use laws::{
    accesses_are_of_locations, contents_are_apart, steps_read_what_they_access,
    steps_write_what_they_access, variables_are_locations,
};
