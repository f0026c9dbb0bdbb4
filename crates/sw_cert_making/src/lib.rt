//! The certificate of a graph: the lines of its least annotations, which are found by solving, and
//! that it is accepted if the graph has no region breach. The crate knows nothing of how a
//! certificate is read or tested.
#![tactic(auto)]

mod laws;
mod making;

pub use laws::{graphs_have_certificates, printed_certificates_are_accepted};
pub use making::certificate;
