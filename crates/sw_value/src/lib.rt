//! The state of the actor machine: values, cells, frames and jobs, and the definitions of what one
//! item of a schedule does to them and of races. It knows nothing of schedules' texts, and it takes
//! no step.
#![tactic(auto)]

mod beginning;
mod busy;
mod call;
mod cell;
mod effect;
mod executor;
mod frame;
mod job;
mod laws;
mod race;
mod state;
mod value;

pub use beginning::{first_frame, start};
pub use cell::{CellList, HeapCell, Slot};
pub use effect::{Act, Effect};
pub use executor::Executor;
pub use frame::{Frame, FrameList, MAX_FRAMES, NO_REGISTER};
pub use job::{Job, JobList, MAX_JOBS, Status};
pub use laws::{
    idle_jobs_access_nothing, machine_numbers, races_are_decided, states_stay_in_bounds,
    steps_reach, transitions_describe,
};
pub use race::{Access, Place, Race};
pub use state::{State, TrapKind};
pub use value::{Line, Value, ValueList, ValueSlots, value_in};
