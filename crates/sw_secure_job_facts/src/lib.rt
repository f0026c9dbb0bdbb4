//! Laws, without code: tasks, returns, dispatches and wakes keep a state secure, and so does the start.
#![tactic(auto)]

mod laws;

pub use laws::{jobs_stay_secure, returns_stay_secure, starts_are_secure, tasks_stay_secure};
