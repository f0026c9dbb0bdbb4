//! One item of a schedule on the actor machine: a job is dispatched, is woken or executes one
//! instruction. It knows nothing of lists of items.
#![tactic(auto)]

mod applying;
mod arithmetic;
mod calling;
mod computing;
mod context;
mod event;
mod execute;
mod memory;
mod operands;
mod reading;
mod stepping;

pub use event::Event;
pub use stepping::{act_of, perform, step};
pub use sw_value::Line;
