//! The parts of commands that read no file.

ghost use Rattle.std.specs.Prelude.{◌≡◌, ◌≢◌, ◌<◌, ◌≤◌, IfOk, Ok, Err, length};
ghost use Rattle.std.specs.List.{AllByRecursion};
ghost use Rattle.sw_breach.specs.Codes.{IsCode};
ghost use Rattle.sw_check_parts.specs.Leaves.{Decides};
ghost use Rattle.sw_verdict.specs.Phases.{all_phases, phases_to_sharing, phases_to_size};
ghost use Rattle.sw_check.specs.Lines.{schedule_line};
ghost use Rattle.sw_check.specs.Phases.{list_of};
ghost use Rattle.sw_check.specs.Programs.{seen_graph, seen_result};
ghost use Rattle.sw_check.specs.Reply.{Certifies, IsJudgement, Owns, Runs, Scheduled, Traces};
ghost use Rattle.sw_check.specs.Reply.{Orders, Verifies, order_outcome, verified_outcome};
ghost use Rattle.sw_check.specs.Reply.{bad_schedule_outcome, demo_outcome, refusal, replay_outcome, run_outcome};
ghost use Rattle.sw_replay.specs.Output.{output_of};
ghost use Rattle.sw_gen.specs.Program.{program};

use crate::lines::{
    certificate_line, demo_line, ordered_line, race_lines, schedule_line, summary, trap_line,
    unordered_lines,
};
use std::alloc::{AllocError, Global};
use sw_breach::{Breach, render};
use sw_cert::{CERTIFICATE_LIMIT, CertFault, verify};
use sw_cert_making::certificate;
use sw_check_parts::{Exit, Outcome, PROGRAM_LIMIT, Stop, lines, with_last_line};
use sw_check_text::{Verdict, check_text};
use sw_decls::AsyncDefault;
use sw_graph::Graph;
use sw_hb::{OrderReplay, order_replay};
use sw_list::ListOf;
use sw_owners::{OwnerReplay, color_replay, owner_lines};
use sw_replay::{
    End, Output, Replay, SCHEDULE_LIMIT, SchedFault, Schedule, output_of, replay, schedule,
};
use sw_verdict::{Judged, NamedGraph, Refusal, judge_sharing, lower_text};

/// The reply about a program that is refused.
fn refusal(alloc: Global, text: &[u8], breaches: &[Breach]) -> Result<Outcome, AllocError>
    requires short { length text.now ≤ PROGRAM_LIMIT }
    requires some { 0 < length breaches.now }
    requires codes { AllByRecursion (λ breach. IsCode breach.code) breaches.now }
    ensures { IfOk result (λ outcome. outcome ≡ refusal text.now breaches.now) }
{
    let bytes = render(alloc, text, breaches)?;
    Ok(Outcome {
        exit: Exit::Breached,
        bytes: ListOf::from_vec(bytes),
    })
}

/// The phases that judge a program.
#[derive(Clone, Copy)]
pub enum Phases {
    /// All of them: a program in which they find no breach is accepted.
    All,
    /// Those up to the size of functions: a program in which they find no breach has a graph,
    /// whatever races it has.
    ToSize,
    /// Those up to sharing: a program in which they find no breach is accepted if the test of a
    /// certificate shows that its regions have none.
    ToSharing,
}

/// The graph of a text in which no phase finds a breach under a default.
fn accepted(alloc: Global, default: AsyncDefault, text: &[u8]) -> Result<NamedGraph, Stop>
    requires { length text.now ≤ PROGRAM_LIMIT }
    ensures { Decides (IsJudgement default all_phases text.now) (seen_result result) }
{
    match check_text(alloc, text, default)? {
        Verdict::Accepted { checked, actors } => Ok(NamedGraph {
            graph: checked.graph,
            actors,
        }),
        Verdict::Races { breaches, .. } => {
            Err(Stop::Refused(refusal(alloc, text, breaches.as_slice())?))
        }
        Verdict::Refused { breach } => Err(Stop::Refused(refusal(alloc, text, &[breach])?)),
    }
}

/// The graph of a text in which no phase up to the size of functions finds a breach under a
/// default.
fn lowered(alloc: Global, default: AsyncDefault, text: &[u8]) -> Result<NamedGraph, Stop>
    requires { length text.now ≤ PROGRAM_LIMIT }
    ensures { Decides (IsJudgement default phases_to_size text.now) (seen_result result) }
{
    match lower_text(alloc, text, default) {
        Ok(made) => Ok(made),
        Err(Refusal::Breached { breach }) => {
            Err(Stop::Refused(refusal(alloc, text, &[breach])?))
        }
        Err(Refusal::Memory) => Err(Stop::Memory),
    }
}

/// The graph of a text in which no phase up to sharing finds a breach under a default.
fn unshared(alloc: Global, default: AsyncDefault, text: &[u8]) -> Result<NamedGraph, Stop>
    requires { length text.now ≤ PROGRAM_LIMIT }
    ensures { Decides (IsJudgement default phases_to_sharing text.now) (seen_result result) }
{
    match judge_sharing(alloc, text, default) {
        Ok(Judged { made, races }) => {
            if races.is_empty() {
                Ok(made)
            } else {
                Err(Stop::Refused(refusal(alloc, text, races.as_slice())?))
            }
        }
        Err(Refusal::Breached { breach }) => {
            Err(Stop::Refused(refusal(alloc, text, &[breach])?))
        }
        Err(Refusal::Memory) => Err(Stop::Memory),
    }
}

/// The graph of a text in which none of these phases finds a breach under a default.
pub fn judged(
    alloc: Global,
    default: AsyncDefault,
    text: &[u8],
    phases: Phases,
) -> Result<NamedGraph, Stop>
    requires { length text.now ≤ PROGRAM_LIMIT }
    ensures { Decides (IsJudgement default (list_of phases) text.now) (seen_result result) }
{
    match phases {
        Phases::All => accepted(alloc, default, text),
        Phases::ToSize => lowered(alloc, default, text),
        Phases::ToSharing => unshared(alloc, default, text),
    }
}

/// The reply with the certificate of a program's graph.
pub fn certify(alloc: Global, graph: &Graph) -> Result<Outcome, AllocError>
    ensures { IfOk result (λ outcome. Certifies graph.now (Ok outcome)) }
{
    match certificate(alloc, graph)? {
        Some(text) => Ok(Outcome {
            exit: Exit::Done,
            bytes: ListOf::from_vec(text),
        }),
        None => lines(alloc, Exit::LongCertificate, "certificate: too long\n"),
    }
}

/// The reply about a certificate that has a fault.
fn bad_certificate(alloc: Global, bytes: &[u8], fault: CertFault) -> Result<Outcome, AllocError>
    requires { length bytes.now ≤ CERTIFICATE_LIMIT }
    ensures { IfOk result (λ outcome. (fault ≢ CertFault.Memory)
        × (outcome ≡ verified_outcome bytes.now (Err fault))) }
{
    if let CertFault::Memory = fault {
        return Err(AllocError);
    }
    let line = certificate_line(alloc, bytes, fault)?;
    lines(alloc, Exit::BadCertificate, line.as_str())
}

/// The reply to the test of a certificate of a program's graph.
pub fn verified(alloc: Global, graph: &Graph, bytes: &[u8]) -> Result<Outcome, AllocError>
    requires { length bytes.now ≤ CERTIFICATE_LIMIT }
    ensures { IfOk result (λ outcome. Verifies graph.now bytes.now (Ok outcome)) }
{
    match verify(alloc, graph, bytes) {
        Ok(()) => lines(alloc, Exit::Done, "certificate accepted\n"),
        Err(fault) => bad_certificate(alloc, bytes, fault),
    }
}

/// The reply about the text of a schedule that has a fault.
fn bad_schedule(alloc: Global, text: &[u8], fault: SchedFault) -> Result<Outcome, AllocError>
    requires { length text.now ≤ SCHEDULE_LIMIT }
    ensures outcome { IfOk result (λ outcome. (fault ≢ SchedFault.Memory)
        × (outcome ≡ bad_schedule_outcome text.now fault)) }
{
    if let SchedFault::Memory = fault {
        return Err(AllocError);
    }
    let line = schedule_line(alloc, text, fault)?;
    lines(alloc, Exit::BadSchedule, line.as_str())
}

/// The items of a schedule.
pub fn scheduled(alloc: Global, text: &[u8]) -> Result<Schedule, Stop>
    requires { length text.now ≤ SCHEDULE_LIMIT }
    ensures { Decides (Scheduled text.now) result }
{
    match schedule(alloc, text) {
        Ok(schedule) => Ok(schedule),
        Err(fault) => Err(Stop::Refused(bad_schedule(alloc, text, fault)?)),
    }
}

/// The reply about items that were taken, all of them.
fn run_ending(alloc: Global, text: &[u8], output: Output) -> Result<Outcome, AllocError>
    requires { length text.now ≤ PROGRAM_LIMIT }
    ensures { IfOk result (λ outcome. outcome ≡ run_outcome text.now output) }
{
    let Output {
        lines: printed,
        end,
        ended,
        jobs,
    } = output;
    match end {
        End::Ran => {
            let last = summary(alloc, ended, jobs)?;
            with_last_line(Exit::Done, printed, last.as_str())
        }
        End::Trapped { kind, at } => {
            let last = trap_line(alloc, text, kind, at)?;
            with_last_line(Exit::Trapped, printed, last.as_str())
        }
    }
}

/// The reply to a run of a graph by items: they are all taken, whatever races there are.
pub fn run(
    alloc: Global,
    text: &[u8],
    graph: &Graph,
    items: &Schedule,
) -> Result<Outcome, AllocError>
    requires { length text.now ≤ PROGRAM_LIMIT }
    ensures { IfOk result (λ outcome. Runs text.now graph.now items.now (Ok outcome)) }
{
    let output = output_of(alloc, graph, items)?;
    run_ending(alloc, text, output)
}

/// The reply to a run of a program's graph by items, and who owns its coloured cells then.
pub fn owners(
    alloc: Global,
    text: &[u8],
    made: &NamedGraph,
    items: &Schedule,
) -> Result<Outcome, AllocError>
    requires { length text.now ≤ PROGRAM_LIMIT }
    ensures { IfOk result (λ outcome.
        Owns text.now (seen_graph made.now) items.now (Ok outcome)) }
{
    let OwnerReplay { output, owners } = color_replay(alloc, &made.graph, items)?;
    let Outcome { exit, bytes } = run_ending(alloc, text, output)?;
    let last = owner_lines(alloc, made.actors.as_slice(), owners.as_slice())?;
    with_last_line(exit, bytes, last.as_str())
}

/// The reply about a replay that was watched for races.
pub fn trace_ending(alloc: Global, text: &[u8], replay: Replay) -> Result<Outcome, AllocError>
    requires { length text.now ≤ PROGRAM_LIMIT }
    ensures { IfOk result (λ outcome. outcome ≡ replay_outcome text.now replay) }
{
    let Replay { output, race } = replay;
    match race {
        None => run_ending(alloc, text, output),
        Some(race) => {
            let last = race_lines(alloc, text, race)?;
            with_last_line(Exit::Raced, output.lines, last.as_str())
        }
    }
}

/// The reply to a replay of a graph by items that stops where two jobs are about to race.
pub fn trace(
    alloc: Global,
    text: &[u8],
    graph: &Graph,
    items: &Schedule,
) -> Result<Outcome, AllocError>
    requires { length text.now ≤ PROGRAM_LIMIT }
    ensures { IfOk result (λ outcome. Traces text.now graph.now items.now (Ok outcome)) }
{
    let replay = replay(alloc, graph, items)?;
    trace_ending(alloc, text, replay)
}

/// The reply about a replay whose accesses were put in order.
fn order_ending(alloc: Global, text: &[u8], replay: OrderReplay) -> Result<Outcome, AllocError>
    requires { length text.now ≤ PROGRAM_LIMIT }
    ensures { IfOk result (λ outcome. outcome ≡ order_outcome text.now replay) }
{
    match replay {
        OrderReplay::ManyJobs => lines(alloc, Exit::ManyJobs, "order: more than 256 jobs\n"),
        OrderReplay::Unordered {
            lines: printed,
            first,
            second,
        } => {
            let last = unordered_lines(alloc, text, first, second)?;
            with_last_line(Exit::Unordered, printed, last.as_str())
        }
        OrderReplay::Trapped {
            lines: printed,
            kind,
            at,
        } => {
            let last = trap_line(alloc, text, kind, at)?;
            with_last_line(Exit::Trapped, printed, last.as_str())
        }
        OrderReplay::Ordered {
            lines: printed,
            accesses,
        } => {
            let last = ordered_line(alloc, accesses)?;
            with_last_line(Exit::Done, printed, last.as_str())
        }
    }
}

/// The reply to a replay of a graph by all items about the order of its accesses.
pub fn order(
    alloc: Global,
    text: &[u8],
    graph: &Graph,
    items: &Schedule,
) -> Result<Outcome, AllocError>
    requires { length text.now ≤ PROGRAM_LIMIT }
    ensures { IfOk result (λ outcome. Orders text.now graph.now items.now (Ok outcome)) }
{
    let replay = order_replay(alloc, graph, items)?;
    order_ending(alloc, text, replay)
}

/// The reply to a run of the program that was generated for a number of actors, by its graph.
pub fn demonstrate(
    alloc: Global,
    actors: u32,
    text: &[u8],
    graph: &Graph,
    items: &Schedule,
) -> Result<Outcome, AllocError>
    requires short { length text.now ≤ PROGRAM_LIMIT }
    requires generated { text.now ≡ program actors }
    ensures { IfOk result (λ outcome.
        outcome ≡ demo_outcome actors (output_of graph.now items.now)) }
{
    let output = output_of(alloc, graph, items)?;
    match output.end {
        End::Ran => {
            let line = demo_line(alloc, actors, text, &output)?;
            lines(alloc, Exit::Done, line.as_str())
        }
        End::Trapped { .. } => run_ending(alloc, text, output),
    }
}
