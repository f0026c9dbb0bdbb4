//! Certificates: annotations of a graph's blocks as text, each line with the region state of a
//! block (SE-0414, SE-0430). Here are the definition of a certificate, the line of a state, which
//! numbers may stand where, the reading of lines up to the first byte with which no certificate
//! goes on, the state that a line shows, and the test of a certificate of a graph: it goes through
//! the block of each line once and solves nothing. The crate doesn't know how states are found.
#![tactic(auto)]

mod classes;
mod flows;
mod form;
mod heads;
mod laws;
mod line;
mod pairs;
mod printing;
mod reading;
mod shared;
mod slip;
mod states;
mod tables;
mod testing;
mod verdict;
mod verifying;

pub use laws::{
    accepted_certificates_are_ok, accepted_certificates_show_no_breach, certificates_are_texts,
    numbers_follow, texts_are_verified_in_one_way,
};
pub use line::{Extent, Line, Pair, Spot};
pub use printing::line_of;
pub use verdict::{CERTIFICATE_LIMIT, CertFault};
pub use verifying::verify;
