//! Which locations several jobs accessed, and when another job goes on.

ghost use Rattle.std.specs.Prelude.{◌<◌, IfOk};

use indexmap::IndexMap;
use rand_core::Rng;
use rand_pcg::Pcg32;
use std::alloc::{AllocError, Global};
use sw_graph::Graph;
use sw_race::next_access;
use sw_value::{Access, Place, State};

/// Which jobs accessed a location.
#[derive(Clone, Copy, Debug)]
enum Users {
    One(u32),
    Several,
}

/// The jobs that accessed each location, in all schedules that were tried. It decides which ones are
/// tried next, and nothing is proved of it.
#[derive(Drop)]
pub struct Memory {
    users: IndexMap<Place, Users>,
}

impl Memory {
    /// No location was accessed.
    pub fn new(alloc: Global) -> Memory {
        Memory {
            users: IndexMap::new(alloc),
        }
    }

    /// The jobs that accessed the location of an access, with that of the access.
    fn users_with(&self, access: Access) -> Users {
        match self.users.get(&access.place) {
            None => Users::One(access.job),
            Some(Users::Several) => Users::Several,
            Some(Users::One(job)) => {
                if *job == access.job {
                    Users::One(access.job)
                } else {
                    Users::Several
                }
            }
        }
    }

    /// Notes the access that a job makes next, and returns of how many times it lets others go on
    /// before. It does so every other time where another job accesses that location, too.
    fn patience(&mut self, access: Option<Access>) -> Result<u32, AllocError>
        ensures { IfOk result (λ times. 0 < times) }
    {
        let Some(access) = access else {
            return Ok(64);
        };
        let users = self.users_with(access);
        self.users.insert(access.place, users)?;
        match users {
            Users::One(_) => Ok(8),
            Users::Several => Ok(2),
        }
    }

    /// The job to go on after this one has: mostly the same one, and sometimes any other number.
    pub fn next_job(
        &mut self,
        graph: &Graph,
        state: &State,
        job: u32,
        rng: &mut Pcg32,
    ) -> Result<u32, AllocError> {
        let times = self.patience(next_access(graph, state, job))?;
        if rng.next_u32() % times == 0 {
            Ok(rng.next_u32())
        } else {
            Ok(job)
        }
    }
}
