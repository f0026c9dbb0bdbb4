use sw_value::Executor;

/// How many jobs there may be. The numbers of jobs are below it.
pub const MOST_JOBS: usize = 256;

/// What links an event of a run to other events.
#[derive(Clone, Copy, Debug, PartialEq, Eq)]
pub struct Links {
    /// The job whose event it is.
    pub job: u32,
    /// The job that it makes.
    pub makes: Option<u32>,
    /// The job for whose end its job waited.
    pub follows: Option<u32>,
    pub enters: Option<Executor>,
    pub leaves: Option<Executor>,
    /// Whether it ends its job.
    pub ends: bool,
}
