//! One item of a schedule on the coloured machine.
ghost use Rattle.std.specs.Prelude.{◌≡◌, ◌<◌, IfOk, OnOk, OnErr, length};
ghost use Rattle.sw_value.specs.Reach.{after_act};
ghost use Rattle.sw_step.specs.Event.{act_event, event_of};
ghost use Rattle.sw_color_rules.specs.Changes.{after_changes};
ghost use Rattle.sw_color_rules.specs.Plans.{changes_by, plan_of};
ghost use Rattle.sw_color_rules.specs.Machine.{colored_step, owner_of};
ghost use Rattle.sw_color.specs.Making.{framed, marked, made_fresh};

use crate::planning::{Setting, may_color};
use crate::{colors, palette};
use std::alloc::{AllocError, Global};
use sw_color_rules::{Colored, FrameChange, Owner, Plan, Tint};
use sw_graph::Graph;
use sw_step::{Event, act_of, perform};
use sw_value::Act;

/// An act that a job is to do.
#[derive(Drop)]
struct Due {
    job: u32,
    act: Act,
}

/// The owner of a cell's colour, if it is a coloured cell.
#[tactic(auto, unfolding(sw_color_rules::specs::Machine::owner_of))]
pub fn owner_of(colored: &Colored, cell: u32) -> Option<Owner>
    ensures { result ≡ owner_of colored.now cell }
{
    match colors::color_number(&colored.colors, cell) {
        None => None,
        Some(number) => palette::owner(&colored.colors.palette, number),
    }
}

/// Does what one item of a schedule says, and what that does to colours. If memory runs out the
/// coloured state stays as it was. It takes no longer than the act itself and the colours of the
/// values that it moves; a closure that isn't isolated has a list of its colours, of which there may
/// be as many as it has captures, with those of the closures among them.
#[tactic(auto, using(crate::proofs::StepLemmas::steps))]
pub fn color_step(
    alloc: Global,
    graph: &Graph,
    colored: &mut Colored,
    item: u32,
) -> Result<Event, AllocError>
    requires cells { length colored.old.state.cells < 4294967295 }

    ensures steps { OnOk result (colored.new ≡ colored_step graph.now colored.old item) }
    ensures event { IfOk result (λ event. event ≡ event_of graph.now colored.old.state item) }
    ensures err { OnErr result (colored.new ≡ colored.old) }
{
    match act_of(alloc, graph, &colored.state, item)? {
        None => Ok(Event::Nothing),
        Some(act) => do_act(alloc, graph, colored, Due { job: item, act }),
    }
}

/// Lets a job do an act, and does to colours what that does.
#[tactic(auto, using(crate::proofs::StepLemmas::still))]
fn do_act(
    alloc: Global,
    graph: &Graph,
    colored: &mut Colored,
    due: Due,
) -> Result<Event, AllocError>
    ensures ok { OnOk result (colored.new ≡ record {
      state = after_act due.job due.act colored.old.state;
      colors = after_changes (changes_by due.job
          (plan_of graph.now colored.old.state colored.old.colors due.job due.act))
          colored.old.colors;
    }) }
    ensures event { IfOk result (λ event. event ≡ act_event due.act) }
    ensures err { OnErr result (colored.new ≡ colored.old) }
{
    if !may_color(&due.act) {
        return perform(alloc, &mut colored.state, due.job, due.act);
    }
    let setting = Setting {
        alloc,
        graph,
        colors: &colored.colors,
        job: due.job,
    };
    let plan = setting.plan_of(&colored.state, &due.act)?;
    carry_out(alloc, colored, due, plan)
}

/// Lets a job do an act, and carries out what it does to colours.
#[tactic(auto, using(crate::proofs::StepLemmas::carrying))]
fn carry_out(
    alloc: Global,
    colored: &mut Colored,
    due: Due,
    plan: Plan,
) -> Result<Event, AllocError>
    ensures ok { OnOk result (colored.new ≡ record {
      state = after_act due.job due.act colored.old.state;
      colors = after_changes (changes_by due.job plan) colored.old.colors;
    }) }
    ensures event { IfOk result (λ event. event ≡ act_event due.act) }
    ensures err { OnErr result (colored.new ≡ colored.old) }
{
    let Plan {
        fresh,
        tint,
        frame,
        joined,
        heir,
    } = plan;
    let event = make_color(alloc, colored, due, fresh, tint, frame)?;
    palette::join(&mut colored.colors.palette, joined.as_slice());
    palette::hand(&mut colored.colors.palette, joined.as_slice(), heir);
    Ok(event)
}

/// Makes a colour, if there is one to make, then what else is made, and lets the job do the act.
fn make_color(
    alloc: Global,
    colored: &mut Colored,
    due: Due,
    fresh: Option<Owner>,
    tint: Option<Tint>,
    frame: FrameChange,
) -> Result<Event, AllocError>
    ensures ok { OnOk result (colored.new ≡ record {
      state = after_act due.job due.act colored.old.state;
      colors = framed due.job frame (marked tint (made_fresh fresh colored.old.colors));
    }) }
    ensures event { IfOk result (λ event. event ≡ act_event due.act) }
    ensures err { OnErr result (colored.new ≡ colored.old) }
{
    match fresh {
        None => make_cell(alloc, colored, due, tint, frame),
        Some(owner) => {
            palette::make(&mut colored.colors.palette, owner)?;
            match make_cell(alloc, colored, due, tint, frame) {
                Ok(event) => Ok(event),
                Err(error) => {
                    palette::take_back(&mut colored.colors.palette);
                    Err(error)
                }
            }
        }
    }
}

/// Notes the tint of a cell, if there is one to make, then what else is made, and lets the job do the
/// act.
fn make_cell(
    alloc: Global,
    colored: &mut Colored,
    due: Due,
    tint: Option<Tint>,
    frame: FrameChange,
) -> Result<Event, AllocError>
    ensures ok { OnOk result (colored.new ≡ record {
      state = after_act due.job due.act colored.old.state;
      colors = framed due.job frame (marked tint colored.old.colors);
    }) }
    ensures event { IfOk result (λ event. event ≡ act_event due.act) }
    ensures err { OnErr result (colored.new ≡ colored.old) }
{
    match tint {
        None => make_frame(alloc, colored, due, frame),
        Some(tint) => {
            colors::mark(&mut colored.colors, tint)?;
            match make_frame(alloc, colored, due, frame) {
                Ok(event) => Ok(event),
                Err(error) => {
                    colors::unmark(&mut colored.colors);
                    Err(error)
                }
            }
        }
    }
}

/// Notes the `Here` of a frame that comes or goes, and lets the job do the act.
fn make_frame(
    alloc: Global,
    colored: &mut Colored,
    due: Due,
    frame: FrameChange,
) -> Result<Event, AllocError>
    ensures ok { OnOk result (colored.new ≡ record {
      state = after_act due.job due.act colored.old.state;
      colors = framed due.job frame colored.old.colors;
    }) }
    ensures event { IfOk result (λ event. event ≡ act_event due.act) }
    ensures err { OnErr result (colored.new ≡ colored.old) }
{
    let Due { job, act } = due;
    match frame {
        FrameChange::Stays => perform(alloc, &mut colored.state, job, act),
        FrameChange::Pushed { number } => {
            colors::push_here(&mut colored.colors, job, number)?;
            match perform(alloc, &mut colored.state, job, act) {
                Ok(event) => Ok(event),
                Err(error) => {
                    colors::unpush_here(&mut colored.colors, job);
                    Err(error)
                }
            }
        }
        FrameChange::Begun { number } => {
            colors::begin_heres(alloc, &mut colored.colors, number)?;
            match perform(alloc, &mut colored.state, job, act) {
                Ok(event) => Ok(event),
                Err(error) => {
                    colors::unbegin(&mut colored.colors);
                    Err(error)
                }
            }
        }
        FrameChange::Popped => {
            let event = perform(alloc, &mut colored.state, job, act)?;
            colors::pop_here(&mut colored.colors, job);
            Ok(event)
        }
    }
}
