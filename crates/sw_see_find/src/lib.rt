//! A search for a schedule under which a program races. Schedules are made by chance, and where one
//! races, items of it are left out as long as it does. Nothing rests on the search: what it finds is
//! printed, read again and replayed before it is answered. The crate knows the machine and
//! schedules, and nothing of source texts.
#![tactic(auto)]

mod confirming;
mod finding;
mod laws;
mod memory;
mod printing;
mod shortening;
mod walking;

pub use finding::{Found, MOST_TRIES, find};
pub use laws::found_schedules_race;
pub use walking::MOST_ITEMS;
