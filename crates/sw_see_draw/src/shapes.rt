//! Lines, circles, rectangles and texts in SVG.

ghost use Rattle.std.specs.Prelude.{◌≡◌, IfOk, string_bytes};
ghost use Rattle.sw_see_draw.specs.Shapes as shapes;

use crate::markup::escaped;
use std::alloc::{AllocError, Global};

/// A line from a point to another one.
#[tactic(auto, unfolding(crate::specs::Shapes::line))]
pub fn line(
    alloc: Global,
    x1: u64,
    y1: u64,
    x2: u64,
    y2: u64,
    more: &str,
) -> Result<String, AllocError>
    ensures { IfOk result (λ tag. string_bytes tag ≡ shapes.line x1 y1 x2 y2 more.now) }
{
    format!(in alloc; "<line x1=\"{x1}\" y1=\"{y1}\" x2=\"{x2}\" y2=\"{y2}\" {more}/>\n")
}

/// A circle around a point.
#[tactic(auto, unfolding(crate::specs::Shapes::circle))]
pub fn circle(alloc: Global, x: u64, y: u64, radius: u64, more: &str) -> Result<String, AllocError>
    ensures { IfOk result (λ tag. string_bytes tag ≡ shapes.circle x y radius more.now) }
{
    format!(in alloc; "<circle cx=\"{x}\" cy=\"{y}\" r=\"{radius}\" {more}/>\n")
}

/// A rectangle of a colour, by its upper left corner, its width and its height.
#[tactic(auto, unfolding(crate::specs::Shapes::rect))]
pub fn rectangle(
    alloc: Global,
    x: u64,
    y: u64,
    width: u64,
    height: u64,
    color: &str,
) -> Result<String, AllocError>
    ensures { IfOk result (λ tag. string_bytes tag ≡ shapes.rect x y width height color.now) }
{
    format!(in alloc;
        "<rect x=\"{x}\" y=\"{y}\" width=\"{width}\" height=\"{height}\" fill=\"{color}\"/>\n"
    )
}

/// A text whose line begins at a point.
#[tactic(auto, unfolding(crate::specs::Shapes::label))]
pub fn label(alloc: Global, x: u64, y: u64, more: &str, text: &str) -> Result<String, AllocError>
    ensures { IfOk result (λ tag. string_bytes tag ≡ shapes.label x y more.now text.now) }
{
    let shown = escaped(alloc, text)?;
    format!(in alloc; "<text x=\"{x}\" y=\"{y}\" {more}>{shown}</text>\n")
}

/// What makes a text small, and turns it around a point.
#[tactic(auto, unfolding(crate::specs::Shapes::turned))]
fn turned(alloc: Global, x: u64, y: u64) -> Result<String, AllocError>
    ensures { IfOk result (λ more. string_bytes more ≡ shapes.turned x y) }
{
    format!(in alloc; "font-size=\"9\" transform=\"rotate(45 {x} {y})\"")
}

/// A small text that runs down to the right from a point.
pub fn slanted(alloc: Global, x: u64, y: u64, text: &str) -> Result<String, AllocError>
    ensures { IfOk result (λ tag. string_bytes tag ≡ shapes.slanted x y text.now) }
{
    let more = turned(alloc, x, y)?;
    label(alloc, x, y, more.as_str(), text)
}
