ghost use Rattle.std.specs.Prelude.{◌≡◌, option_map, option_and_then};
ghost use Rattle.sw_before.specs.Channels.{OfJob, OfEnd, channel_of};
ghost use Rattle.sw_clocks.specs.Channel.{actor_of, meant};

use sw_value::Executor;

/// An actor, by the number of its cell, or a global actor, by number.
#[derive(Clone, Copy, Debug, PartialEq, Eq, Hash)]
pub enum Actor {
    ActorOf(u32),
    Global(u32),
}

/// What an event tells, and what it hears: a job, the end of a job, or an actor.
#[derive(Clone, Copy, Debug)]
pub enum Channel {
    OfJob(u32),
    OfEnd(u32),
    OfActor(Actor),
}

/// The actor or global actor that an executor is. The generic executor is none.
pub fn actor_of(executor: Executor) -> Option<Actor>
    ensures { result ≡ actor_of executor }
{
    match executor {
        Executor::Generic => None,
        Executor::ActorOf(cell) => Some(Actor::ActorOf(cell)),
        Executor::Global(actor) => Some(Actor::Global(actor)),
    }
}

/// The channel of a job, if there is one.
pub fn of_job(job: Option<u32>) -> Option<Channel>
    ensures { option_map meant result ≡ option_map OfJob job }
{
    match job {
        None => None,
        Some(job) => Some(Channel::OfJob(job)),
    }
}

/// The channel of the end of a job, if there is one.
pub fn of_end(job: Option<u32>) -> Option<Channel>
    ensures { option_map meant result ≡ option_map OfEnd job }
{
    match job {
        None => None,
        Some(job) => Some(Channel::OfEnd(job)),
    }
}

/// The channel of an executor, if there is one and it isn't the generic one.
pub fn of_executor(executor: Option<Executor>) -> Option<Channel>
    ensures { option_map meant result ≡ option_and_then channel_of executor }
{
    match executor {
        None => None,
        Some(Executor::Generic) => None,
        Some(Executor::ActorOf(cell)) => Some(Channel::OfActor(Actor::ActorOf(cell))),
        Some(Executor::Global(actor)) => Some(Channel::OfActor(Actor::Global(actor))),
    }
}
