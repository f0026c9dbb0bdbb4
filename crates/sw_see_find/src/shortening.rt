//! Items are left out of a schedule as long as it races.

ghost use Rattle.std.specs.Prelude.{◌≡◌, ◌<◌, ◌≤◌, ◌++◌, IfOk, OnOk, length, take, drop};
ghost use Rattle.sw_see_find.specs.Found.{RacesBy};

use crate::confirming::race_text;
use std::alloc::{AllocError, Global};
use sw_graph::Graph;
use sw_list::ListOf;

/// The most items that are replayed to find out which can be left out.
const MOST_WORK: usize = 400_000;

/// Items, and the text that they are printed as, which shows a race.
#[derive(Drop)]
pub struct Shortening {
    items: Vec<u32>,
    text: ListOf<u8>,
    /// How many items may still be replayed.
    work: usize,
}

/// The items without those from `start` up to `end`.
fn without(alloc: Global, items: &[u32], start: usize, end: usize) -> Result<Vec<u32>, AllocError>
    requires ordered { start ≤ end }
    requires within { end ≤ length items.now }
    ensures { IfOk result (λ fewer. fewer.items ≡ take start items.now ++ drop end items.now) }
{
    let mut fewer = Vec::from_slice(alloc, &items[..start])?;
    fewer.extend_from_slice(&items[end..])?;
    Ok(fewer)
}

impl Shortening {
    /// Nothing is left out.
    pub fn new(items: Vec<u32>, text: ListOf<u8>) -> Shortening
        ensures { result.text ≡ text }
    {
        Shortening {
            items,
            text,
            work: MOST_WORK,
        }
    }

    /// The text of the items that are left.
    pub fn into_text(self) -> ListOf<u8>
        ensures { result ≡ self.text }
    {
        let Shortening { text, .. } = self;
        text
    }

    /// Leaves out the items from `start` up to `end`, if the others race.
    fn leave_out(
        &mut self,
        alloc: Global,
        graph: &Graph,
        start: usize,
        end: usize,
    ) -> Result<(), AllocError>
        requires ordered { start ≤ end }
        requires races { RacesBy graph.now self.old.text }
        ensures { OnOk result (RacesBy graph.now self.new.text) }
    {
        if end > self.items.len() || self.items.len() > self.work {
            return Ok(());
        }
        self.work -= self.items.len();
        let fewer = without(alloc, self.items.as_slice(), start, end)?;
        if let Some(text) = race_text(alloc, graph, fewer.as_slice())? {
            self.items = fewer;
            self.text = text;
        }
        Ok(())
    }

    /// Leaves out pieces of so many items, from the last to the first.
    fn leave_out_pieces(
        &mut self,
        alloc: Global,
        graph: &Graph,
        size: usize,
    ) -> Result<(), AllocError>
        requires some { 0 < size }
        requires races { RacesBy graph.now self.old.text }
        ensures { OnOk result (RacesBy graph.now self.new.text) }
    {
        let mut end = self.items.len();
        while end > 0 {
            let start = end.saturating_sub(size);
            self.leave_out(alloc, graph, start, end)?;
            end = start;
        }
        Ok(())
    }

    /// Leaves out halves of the items, and then smaller pieces, down to one item.
    pub fn shorten(&mut self, alloc: Global, graph: &Graph) -> Result<(), AllocError>
        requires { RacesBy graph.now self.old.text }
        ensures { OnOk result (RacesBy graph.now self.new.text) }
    {
        let mut size = self.items.len();
        while size > 1 {
            size /= 2;
            self.leave_out_pieces(alloc, graph, size)?;
        }
        Ok(())
    }
}
