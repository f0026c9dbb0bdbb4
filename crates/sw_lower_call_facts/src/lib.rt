//! Laws, without code: what the calls and the tasks of programs call and run, and which of them
//! give the actor that they run on. It knows nothing of how a program is gone through.
#![tactic(auto)]

mod laws;

pub use laws::{bodies_call_what_is_meant, calls_give_their_actors, own_tasks_stand_in_actors};
