//! The breaches of values in declarations: properties without one (E305), and first values and
//! statements of initialisers outside the profile (E306). It knows nothing of the types of
//! expressions, except of those that are evident.
#![tactic(auto)]

mod counts;
mod profile;
mod simplicity;
mod values;

pub use profile::add_values;
