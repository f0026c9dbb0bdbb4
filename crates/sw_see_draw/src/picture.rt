//! The picture of a replay.

ghost use Rattle.std.specs.Prelude.{◌≡◌, ◌≤◌, ◌<◌, ◌^◌, IfOk, length, map, nat_lt, string_bytes};
ghost use Rattle.sw_see_draw.specs.Picture.{drawing, head, left_out, left_out_drawn, picture};
ghost use Rattle.sw_see_draw.specs.Picture.{width_of};

use crate::keys::{add_legend, executors};
use crate::lanes::{add_lanes, lanes};
use crate::layout::{column_x, lane_y};
use crate::marking::Scene;
use crate::marks::{MOST_MARKS, Mark, drawn, marks};
use crate::races::{race_drawn, race_width};
use crate::shapes::label;
use std::alloc::{AllocError, Global};
use sw_see_events::Happening;
use sw_see_lines::LineTable;
use sw_value::Race;

/// With fewer marks than these the names of what is accessed are written below the marks.
pub const MOST_NAMED: usize = 120;

/// How many events come before the first that is drawn.
fn left_out(marks: &[Mark]) -> u32
    ensures { result ≡ left_out marks.now }
{
    match marks.first() {
        None => 0,
        Some(mark) => mark.number.saturating_sub(1),
    }
}

/// A line that says so.
#[tactic(auto, unfolding(crate::specs::Picture::left_out_drawn))]
fn left_out_drawn(alloc: Global, count: u32) -> Result<String, AllocError>
    ensures { IfOk result (λ tag. string_bytes tag ≡ left_out_drawn count) }
{
    if count > 0 {
        let words = format!(in alloc; "{count} events before these are not drawn")?;
        label(alloc, 70, 14, "", words.as_str())
    } else {
        Ok(String::new(alloc))
    }
}

/// What a picture of this size begins with.
#[tactic(auto, unfolding(crate::specs::Picture::head))]
fn head(alloc: Global, width: u64, height: u64) -> Result<String, AllocError>
    ensures { IfOk result (λ tags. string_bytes tags ≡ head width height) }
{
    format!(in alloc;
        "<svg xmlns=\"http://www.w3.org/2000/svg\" width=\"{width}\" height=\"{height}\" font-family=\"sans-serif\" font-size=\"11\" xml:space=\"preserve\">\n<defs><marker id=\"arrow\" viewBox=\"0 0 6 6\" refX=\"6\" refY=\"3\" markerWidth=\"6\" markerHeight=\"6\" orient=\"auto\"><path d=\"M0 0L6 3L0 6z\"/></marker></defs>\n<rect width=\"100%\" height=\"100%\" fill=\"white\"/>\n"
    )
}

/// The width of a picture with so many columns.
#[tactic(auto, unfolding(crate::specs::Picture::width_of))]
fn width_of(
    alloc: Global,
    text: &LineTable,
    columns: u32,
    race: Option<Race>,
) -> Result<u64, AllocError>
    ensures { IfOk result (λ width. width ≡ width_of text.now columns race) }
{
    let room = race_width(alloc, text, race)?;
    Ok((column_x(columns) + 40).max(720).max(room))
}

impl Scene<'_> {
    /// The picture of these marks.
    #[tactic(auto, unfolding(crate::specs::Picture::drawing))]
    fn drawing(&self, race: Option<Race>, marks: &[Mark]) -> Result<Vec<u8>, AllocError>
        requires { length marks.now ≤ MOST_MARKS }
        ensures { IfOk result (λ made. made.items ≡ drawing self.now race marks.now) }
    {
        let columns = marks.len() as u32;
        let end = column_x(columns);
        let width = width_of(self.alloc, self.text, columns, race)?;
        let count = lanes(race, marks);
        let bottom = lane_y(count);
        let keys = executors(self.alloc, marks)?;
        let height = bottom + 16 * keys.len() as u64 + 80;
        let head = head(self.alloc, width, height)?;
        let left_out = left_out_drawn(self.alloc, left_out(marks))?;
        let mut made = Vec::new(self.alloc);
        made.extend_from_slice(head.as_bytes())?;
        made.extend_from_slice(left_out.as_bytes())?;
        add_lanes(self.alloc, width, count, &mut made)?;
        self.add_marks(marks, &mut made)?;
        let race = race_drawn(self.alloc, self.text, end + 6, bottom, race)?;
        made.extend_from_slice(race.as_bytes())?;
        let keys = keys.as_slice();
        add_legend(self.alloc, self.names, bottom + 40, keys, &mut made)?;
        made.extend_from_slice(b"</svg>\n")?;
        Ok(made)
    }
}

/// The picture of the events of a replay, as SVG, with the race at which it stopped, if it did.
/// `names` are those of the global actors, by number.
#[tactic(auto, unfolding(crate::specs::Picture::picture))]
pub fn draw(
    alloc: Global,
    text: &LineTable<'_>,
    names: &[String],
    events: &[Happening],
    race: Option<Race>,
) -> Result<Vec<u8>, AllocError>
    requires { length events.now < 2 ^ 31 }
    ensures { IfOk result (λ made. made.items
        ≡ picture text.now (map string_bytes names.now) events.now race) }
{
    let all = marks(alloc, events)?;
    let marks = drawn(all.as_slice());
    let scene = Scene {
        alloc,
        text,
        names,
        events,
        named: marks.len() < MOST_NAMED,
    };
    scene.drawing(race, marks)
}
