//! What is drawn of a mark.

ghost use Rattle.std.specs.Prelude.{◌≡◌, ◌+◌, ◌<◌, ◌^◌, ◌++◌, suc, IfOk, OnOk, length, map, slice_get};
ghost use Rattle.std.specs.Prelude.{string_bytes};
ghost use Rattle.std.specs.Option.{option_copied};
ghost use Rattle.sw_see_draw.specs.Marking.{access_drawn, arrow, dot, link_drawn, mark_drawn};
ghost use Rattle.sw_see_draw.specs.Marking.{marks_drawn, more_text, name_below, title};

use crate::layout::{column_x, lane_y};
use crate::marks::{Link, Mark};
use crate::markup::escaped;
use crate::paints::paint;
use crate::shapes::{circle, line, rectangle, slanted};
use std::alloc::{AllocError, Global};
use std::marker::Model;
use sw_see_events::Happening;
use sw_see_lines::LineTable;
use sw_see_steps::{step_line, word_of};
use sw_value::Access;

/// What is the same in all marks of a picture. Contracts see it but for the allocator.
#[derive(Drop)]
pub struct Scene<'a> {
    pub alloc: Global,
    /// The program's text.
    pub text: &'a LineTable<'a>,
    /// The names of its global actors.
    pub names: &'a [String],
    pub events: &'a [Happening],
    /// Whether the names of what is accessed are written below the marks.
    pub named: bool,
}

impl<'a> Model for Scene<'a> {
    ghost use Rattle.std.specs.Prelude.{map, string_bytes};
    ghost use Rattle.sw_see_draw.specs.Marking.{KnownScene};

    ghost Value = { KnownScene };

    ghost view = { λ scene. record {
      text = scene.text.now;
      names = map string_bytes scene.names.now;
      events = scene.events.now;
      named = scene.named;
    } };
}

/// How many events a mark is for beside its first.
#[tactic(auto, unfolding(crate::specs::Marking::more_text))]
fn more_text(alloc: Global, count: u32) -> Result<String, AllocError>
    ensures { IfOk result (λ text. string_bytes text ≡ more_text count) }
{
    if count > 1 {
        let more = count - 1;
        format!(in alloc; "and {more} more")
    } else {
        Ok(String::new(alloc))
    }
}

/// A circle for an access, which is full for a write.
#[tactic(auto, unfolding(crate::specs::Marking::dot))]
fn dot(alloc: Global, x: u64, y: u64, writes: bool) -> Result<String, AllocError>
    ensures { IfOk result (λ tag. string_bytes tag ≡ dot x y writes) }
{
    if writes {
        circle(alloc, x, y, 4, "fill=\"black\"")
    } else {
        circle(alloc, x, y, 4, "fill=\"white\" stroke=\"black\"")
    }
}

/// An arrow along a column, from the lane of a job to that of another.
#[tactic(auto, unfolding(crate::specs::Marking::arrow))]
fn arrow(alloc: Global, x: u64, job: u32, to: u32) -> Result<String, AllocError>
    ensures { IfOk result (λ tag. string_bytes tag ≡ arrow x job to) }
{
    let more = "stroke=\"black\" marker-end=\"url(#arrow)\"";
    let from = lane_y(u64::from(job));
    line(alloc, x, from, x, lane_y(u64::from(to)), more)
}

/// The arrow of a mark, if it has to do with another job.
#[tactic(auto, unfolding(crate::specs::Marking::link_drawn))]
fn link_drawn(alloc: Global, x: u64, job: u32, link: Option<Link>) -> Result<String, AllocError>
    ensures { IfOk result (λ tag. string_bytes tag ≡ link_drawn x job link) }
{
    match link {
        None => Ok(String::new(alloc)),
        Some(Link::To(other)) => arrow(alloc, x, job, other),
        Some(Link::From(other)) => arrow(alloc, x, other, job),
    }
}

impl Scene<'_> {
    /// What a viewer shows of a mark that is pointed at.
    #[tactic(auto, unfolding(crate::specs::Marking::title))]
    fn title(&self, mark: &Mark, event: Option<&Happening>) -> Result<String, AllocError>
        ensures { IfOk result (λ tag. string_bytes tag ≡ title self.now.text
            self.now.names mark.now (option_copied event.entry)) }
    {
        match event {
            None => Ok(String::new(self.alloc)),
            Some(event) => {
                let step = step_line(self.alloc, self.text, self.names, mark.number, event)?;
                let step = escaped(self.alloc, step.as_str())?;
                let more = more_text(self.alloc, mark.count)?;
                format!(in self.alloc; "<title>{step}{more}</title>\n")
            }
        }
    }

    /// The name of what is accessed.
    #[tactic(auto, unfolding(crate::specs::Marking::name_below))]
    fn name_below(&self, x: u64, y: u64, at: u32) -> Result<String, AllocError>
        requires { y < 2 ^ 40 }
        ensures { IfOk result (λ tag. string_bytes tag
            ≡ name_below self.now.text self.now.named x y at) }
    {
        if !self.named {
            return Ok(String::new(self.alloc));
        }
        let word = word_of(self.alloc, self.text.bytes(), Some(at))?;
        slanted(self.alloc, x, y + 18, word.as_str())
    }
}

impl Scene<'_> {
    /// The access of a mark, if it has one.
    #[tactic(auto, unfolding(crate::specs::Marking::access_drawn))]
    fn access_drawn(&self, x: u64, y: u64, access: Option<Access>) -> Result<String, AllocError>
        requires x { x < 2 ^ 40 }
        requires y { y < 2 ^ 40 }
        ensures { IfOk result (λ tags. string_bytes tags
            ≡ access_drawn self.now.text self.now.named x y access) }
    {
        match access {
            None => Ok(String::new(self.alloc)),
            Some(access) => {
                let dot = dot(self.alloc, x + 6, y, access.writes)?;
                let name = self.name_below(x, y, access.at)?;
                format!(in self.alloc; "{dot}{name}")
            }
        }
    }

    /// The mark in a column, in the lane of its job.
    #[tactic(auto, unfolding(crate::specs::Marking::mark_drawn))]
    fn mark_drawn(&self, column: u32, mark: &Mark) -> Result<String, AllocError>
        ensures { IfOk result (λ tags. string_bytes tags ≡ mark_drawn self.now column mark.now) }
    {
        let x = column_x(column);
        let y = lane_y(u64::from(mark.job));
        let event = self.events.get((mark.number as usize).saturating_sub(1));
        let title = self.title(mark, event)?;
        let color = paint(self.alloc, mark.executor)?;
        let shape = rectangle(self.alloc, x, y - 10, 12, 20, color.as_str())?;
        let access = self.access_drawn(x, y, mark.access)?;
        let link = link_drawn(self.alloc, x + 6, mark.job, mark.link)?;
        format!(in self.alloc; "<g>{title}{shape}{access}{link}</g>\n")
    }

    /// Adds marks one after the other, from the first column on.
    pub fn add_marks(&self, marks: &[Mark], made: &mut Vec<u8>) -> Result<(), AllocError>
        requires { length marks.now < 2 ^ 31 }
        ensures { OnOk result (made.new.items ≡ made.old.items
            ++ marks_drawn self.now 0 marks.now) }
    {
        let mut column = 0;
        for mark in marks {
            let tags = self.mark_drawn(column, mark)?;
            made.extend_from_slice(tags.as_bytes())?;
            column += 1;
        }
        Ok(())
    }
}
