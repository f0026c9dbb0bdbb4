//! What closures capture: what is mentioned where, what a closure makes of the notes inside it, and
//! the captures and boxes among the notes of a program, each exactly as `sw_isolation_rules`
//! defines it. The crate knows nothing of how expressions are gone through, nor of calls and their
//! breaches.
#![tactic(auto)]

mod captures;
mod closing;
mod firsts;
mod listed;
mod mention;

pub use captures::{boxes_in, captures_in};
pub use closing::close;
pub use listed::Listed;
pub use mention::{list_words, mention_list, mention_self, mention_word};
